//! Rows written from their tables.

ghost use Rattle.std.specs.Prelude.{◌≡◌, ◌++◌, ◌+◌, ◌^◌, ◌<◌, ◌≤◌, length, ◌*ℤ◌, unsigned_abs};
ghost use Rattle.pool_model.specs.Network.{IsLimited, net_of};
ghost use Rattle.pool_model.specs.Paths.{paths_of};
ghost use Rattle.row_model.specs.Variables.{path_count};
ghost use Rattle.row_model.specs.Catalogue.{path_quality};
ghost use Rattle.blend_network.specs.Counts.{AreCounts};
ghost use Rattle.box_space.specs.Blocks.{IsBlock, size_of, brought as brought_in, Brings};
ghost use Rattle.blend_network.specs.Keys.{nodes_of, count_of};
ghost use Rattle.box_space.specs.Tables.{IsTable, row_of, AreTerms, IsFactor, terms_of, most_of, factor_of, rated as made_of};
ghost use Rattle.box_space.specs.Written.{IsLineOf};

use crate::numbers::number_by;
use crate::rows::{LinRow, RowKind};
use crate::table::{Block, Factor, Rate, RowTable, Terms};
use blend_network::{Counts, Key, Network};

impl LinRow {
    /// Writes the row of a table in place of what stands there: terms by rising variable, each variable once. It costs what
    /// the terms cost: the network names the arcs and the paths that have one.
    pub fn write(&mut self, net: &Network, table: &RowTable) -> RowKind
        requires { IsTable (net_of net.now) table.now }
        ensures { IsLineOf (net_of net.now) (row_of (net_of net.now) table.now) self.new result }
    {
        let counts = net.sizes();
        self.clear();
        self.set_constant(table.constant);
        for terms in &table.terms {
            self.add_terms(net, &counts, *terms);
        }
        table.kind
    }

    /// Adds terms.
    fn add_terms(&mut self, net: &Network, counts: &Counts, terms: Terms)
        requires limited { IsLimited (net_of net.now) }
        requires paths { length (paths_of (net_of net.now)) ≤ 512 }
        requires counts { AreCounts (net_of net.now) counts.now }
        requires known { AreTerms (net_of net.now) terms }
        requires room { length self.old.terms + most_of (net_of net.now) terms ≤ 1024 }
        ensures terms { self.new.terms ≡ self.old.terms ++ terms_of (net_of net.now) terms }
        ensures constant { self.new.constant ≡ self.old.constant }
    {
        match terms {
            Terms::Nothing => {}
            Terms::One(block, number, coef) => {
                self.add_term(number_by(net, counts, block, number), coef);
            }
            Terms::All(block, key, node, factor) => {
                self.add_all(net, counts, block, key, node, factor)
            }
        }
    }

    /// Adds a term for each number that a key has at a node.
    fn add_all(
        &mut self,
        net: &Network,
        counts: &Counts,
        block: Block,
        key: Key,
        node: u32,
        factor: Factor,
    )
        requires limited { IsLimited (net_of net.now) }
        requires paths { length (paths_of (net_of net.now)) ≤ 512 }
        requires counts { AreCounts (net_of net.now) counts.now }
        requires known { AreTerms (net_of net.now) (Terms.All block key node factor) }
        requires room { length self.old.terms + size_of (net_of net.now) block ≤ 1024 }
        ensures terms { self.new.terms ≡ self.old.terms ++ terms_of (net_of net.now) (Terms.All block key node factor) }
        ensures constant { self.new.constant ≡ self.old.constant }
    {
        let numbers = net.numbers_at(key, node);
        for number in numbers {
            let coef = coef_at(net, block, factor, *number);
            self.add_term(number_by(net, counts, block, *number), coef);
        }
    }
}

/// The coefficient of a block's variable.
fn coef_at(net: &Network, block: Block, factor: Factor, number: u32) -> i128
    requires factor { IsFactor (net_of net.now) block factor }
    requires among { number < size_of (net_of net.now) block }
    ensures { result ≡ factor_of (net_of net.now) block factor number }
{
    match factor {
        Factor::Same(coef) => coef,
        Factor::OfQuality(quality, rate) => rated(rate, brought(net, block, number, quality)),
    }
}

/// What a unit of a block's variable brings of a quality.
fn brought(net: &Network, block: Block, number: u32, quality: u32) -> i64
    requires brings { Brings block }
    requires among { number < size_of (net_of net.now) block }
    requires quality { quality < (net_of net.now).qualities }
    ensures { result ≡ brought_in (net_of net.now) block number quality }
{
    match block {
        Block::Feeds => net.source_quality(net.feed(number).0, quality),
        Block::Directs => {
            let (source, _) = net.direct(number);
            in_parts(net.scale(), net.source_quality(source, quality))
        }
        Block::Paths => along_path(net, number, quality),
        Block::Mixed(_) => net.retained(net.out(number).0, quality),
        _ => unreachable!(),
    }
}

/// What a path brings of a quality: so many parts of its source's as its pool retains.
fn along_path(net: &Network, path: u32, quality: u32) -> i64
    requires path { path < path_count (net_of net.now) }
    requires quality { quality < (net_of net.now).qualities }
    ensures { result ≡ path_quality (net_of net.now) path quality }
{
    let (feed, out) = net.path(path);
    let (source, _) = net.feed(feed);
    let (pool, _) = net.out(out);
    let retained = net.retained(pool, quality);
    in_parts(retained, net.source_quality(source, quality))
}

/// So many parts of a quality.
fn in_parts(parts: i64, quality: i64) -> i64
    requires parts { unsigned_abs parts ≤ 1000 }
    requires quality { unsigned_abs quality ≤ 10 ^ 11 }
    ensures { result ≡ parts *ℤ quality }
{
    parts * quality
}

/// What is made of what is brought of a quality.
fn rated(rate: Rate, brought: i64) -> i128
    ensures { result ≡ made_of rate brought }
{
    let brought = i128::from(brought);
    match rate {
        Rate::Plain => brought,
        Rate::Less => -brought,
        Rate::Below(limit) => i128::from(limit) - brought,
        Rate::Above(limit) => brought - i128::from(limit),
    }
}
