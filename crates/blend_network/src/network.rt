//! The network: the rows of a file with names looked up, numbers narrowed and absent maxima filled in.

ghost use Rattle.std.specs.Prelude.{◌≡◌, ◌<◌, ◌≤◌, ◌^◌, [], length, get_or, pos, unsigned_abs, IfSome};
ghost use Rattle.pool_model.specs.Network.{net_of, counts_of, IsLimited, IsWithin};
ghost use Rattle.pool_model.specs.Paths.{paths_of, path_at};
ghost use Rattle.pool_model.specs.Starting.{IsWay, through};
ghost use Rattle.blend_network.specs.Made.{IsMade};
ghost use Rattle.blend_network.specs.Counts.{AreCounts};
ghost use Rattle.blend_network.specs.Kinds.{names_of};

use self::limits::Limits;
use crate::counts::Counts;
use network_parts::{Arc, Kind, Path};
use number_groups::Groups;
use std::marker::Model;

mod assemble;
mod carriage;
mod index;
mod keys;
mod limits;
mod narrow;
mod reach;
mod treatment;

/// A source, in millionths.
#[derive(Drop)]
struct Source {
    name: String,
    cost: i64,
    max: u64,
    quality: Vec<i64>,
}

/// A pool, in millionths, and how many thousandths of each quality that enters it leave it.
#[derive(Drop)]
struct Pool {
    name: String,
    max: u64,
    ratio: Vec<u64>,
}

/// A product, in millionths.
#[derive(Drop)]
struct Product {
    name: String,
    price: i64,
    min: u64,
    max: u64,
    least: Vec<Option<i64>>,
    most: Vec<Option<i64>>,
}

/// A pooling network. Sources, pools, products and qualities are numbered from 0 in file order. The arcs are kept by
/// kind, each kind in file order: feeds go from a source to a pool, outs from a pool to a product, directs from a source
/// to a product. Paths are a feed and an out of one pool. Money and flow are in millionths. The scale is that of what pools retain:
/// 1 where none removes anything, else 1000.
#[derive(Drop)]
pub struct Network {
    qualities: Vec<String>,
    sources: Vec<Source>,
    pools: Vec<Pool>,
    products: Vec<Product>,
    feeds: Vec<Arc>,
    outs: Vec<Arc>,
    directs: Vec<Arc>,
    paths: Vec<Path>,
    index: Vec<Groups>,
    limits: Limits,
    scale: u64,
}

impl Model for Network {
    ghost use Rattle.pool_model.specs.Network as model;
    ghost use Rattle.std.specs.Prelude.{map, string_bytes};
    ghost use Rattle.network_parts.specs.Views.{shown_arc, shown_path};
    ghost use Rattle.blend_network.specs.Views.{shown_source, shown_pool, shown_product};
    ghost use Rattle.blend_network.specs.Built.{IsBuilt};

    ghost Value = { model.Network };

    ghost view = { λ n. record {
      qualities = map string_bytes n.qualities.items;
      sources = map shown_source n.sources.items;
      pools = map shown_pool n.pools.items;
      products = map shown_product n.products.items;
      feeds = map shown_arc n.feeds.items;
      outs = map shown_arc n.outs.items;
      directs = map shown_arc n.directs.items;
    } };

    ghost invariant = { λ n. IsBuilt record {
      qualities = map string_bytes n.qualities.items;
      sources = map shown_source n.sources.items;
      pools = map shown_pool n.pools.items;
      products = map shown_product n.products.items;
      feeds = map shown_arc n.feeds.items;
      outs = map shown_arc n.outs.items;
      directs = map shown_arc n.directs.items;
    } (map shown_path n.paths.items) n.index.items n.limits n.scale };
}

impl Network {
    /// How many sources, pools, products, qualities, feeds, outs and directs there are.
    pub fn counts(&self) -> [u32; 7]
        ensures counts { result ≡ counts_of (net_of self.now) }
        ensures limited { IsLimited (net_of self.now) }
        ensures paths { length (paths_of (net_of self.now)) ≤ 512 }
        ensures made { IsMade self.now }
    {
        [
            self.sources.len() as u32,
            self.pools.len() as u32,
            self.products.len() as u32,
            self.qualities.len() as u32,
            self.feeds.len() as u32,
            self.outs.len() as u32,
            self.directs.len() as u32,
        ]
    }

    /// The same by name, and how many paths there are.
    pub fn sizes(&self) -> Counts
        ensures counts { AreCounts (net_of self.now) result }
        ensures limited { IsLimited (net_of self.now) }
        ensures paths { length (paths_of (net_of self.now)) ≤ 512 }
        ensures made { IsMade self.now }
    {
        let [sources, pools, products, qualities, feeds, outs, directs] = self.counts();
        Counts {
            sources,
            pools,
            products,
            qualities,
            feeds,
            outs,
            directs,
            paths: self.paths(),
        }
    }

    /// What a unit from the source costs, in millionths of money.
    pub fn source_cost(&self, n: u32) -> i64
        requires { n < (net_of self.now).sources }
        // Promise: Each reader gives the network's number
        ensures value { result ≡ (net_of self.now).source_cost n }
        ensures size { unsigned_abs result ≤ 10 ^ 12 }
    {
        self.sources[n as usize].cost
    }

    /// How much the source can send, in millionths.
    pub fn source_max(&self, n: u32) -> i64
        requires { n < (net_of self.now).sources }
        // Promise: Each reader gives the network's number
        ensures { result ≡ pos ((net_of self.now).source_max n) }
    {
        self.sources[n as usize].max as i64
    }

    /// How much of the quality a unit from the source has, in millionths.
    pub fn source_quality(&self, i: u32, k: u32) -> i64
        requires source { i < (net_of self.now).sources }
        requires quality { k < (net_of self.now).qualities }
        // Promise: Each reader gives the network's number
        ensures value { result ≡ (net_of self.now).source_quality i k }
        ensures size { unsigned_abs result ≤ 10 ^ 11 }
    {
        self.sources[i as usize].quality.as_slice()[k as usize]
    }

    /// How much can flow through the pool, in millionths.
    pub fn pool_max(&self, n: u32) -> i64
        requires { n < (net_of self.now).pools }
        // Promise: Each reader gives the network's number
        ensures { result ≡ pos ((net_of self.now).pool_max n) }
    {
        self.pools[n as usize].max as i64
    }

    /// What a unit of the product brings, in millionths of money.
    pub fn product_price(&self, n: u32) -> i64
        requires { n < (net_of self.now).products }
        // Promise: Each reader gives the network's number
        ensures value { result ≡ (net_of self.now).price n }
        ensures size { unsigned_abs result ≤ 10 ^ 12 }
    {
        self.products[n as usize].price
    }

    /// How much must flow into the product, in millionths.
    pub fn product_min(&self, n: u32) -> i64
        requires { n < (net_of self.now).products }
        // Promise: Each reader gives the network's number
        ensures { result ≡ pos ((net_of self.now).product_min n) }
    {
        self.products[n as usize].min as i64
    }

    /// How much can flow into the product, in millionths.
    pub fn product_max(&self, n: u32) -> i64
        requires { n < (net_of self.now).products }
        // Promise: Each reader gives the network's number
        ensures value { result ≡ pos ((net_of self.now).product_max n) }
        ensures size { (net_of self.now).product_max n ≤ 10 ^ 12 }
    {
        self.products[n as usize].max as i64
    }

    /// The least that the product may have of the quality, in millionths, if there is a limit.
    pub fn product_least(&self, j: u32, k: u32) -> Option<i64>
        requires product { j < (net_of self.now).products }
        requires quality { k < (net_of self.now).qualities }
        // Promise: Each reader gives the network's number
        ensures value { result ≡ (net_of self.now).least j k }
        ensures size { IfSome result (IsWithin (10 ^ 11)) }
    {
        self.products[j as usize].least.as_slice()[k as usize]
    }

    /// The most that the product may have of the quality, in millionths, if there is a limit.
    pub fn product_most(&self, j: u32, k: u32) -> Option<i64>
        requires product { j < (net_of self.now).products }
        requires quality { k < (net_of self.now).qualities }
        // Promise: Each reader gives the network's number
        ensures value { result ≡ (net_of self.now).most j k }
        ensures size { IfSome result (IsWithin (10 ^ 11)) }
    {
        self.products[j as usize].most.as_slice()[k as usize]
    }

    /// The source and the pool of a feed.
    pub fn feed(&self, n: u32) -> (u32, u32)
        requires { n < (net_of self.now).feeds }
        ensures source { result.0 ≡ (net_of self.now).feed_source n }
        ensures pool { result.1 ≡ (net_of self.now).feed_pool n }
        // Promise: An end of an arc is a node that is there
        ensures known_source { result.0 < (net_of self.now).sources }
        // Promise: An end of an arc is a node that is there
        ensures known_pool { result.1 < (net_of self.now).pools }
    {
        self.feeds[n as usize].ends()
    }

    /// The pool and the product of an out.
    pub fn out(&self, n: u32) -> (u32, u32)
        requires { n < (net_of self.now).outs }
        ensures pool { result.0 ≡ (net_of self.now).out_pool n }
        ensures product { result.1 ≡ (net_of self.now).out_product n }
        // Promise: An end of an arc is a node that is there
        ensures known_pool { result.0 < (net_of self.now).pools }
        // Promise: An end of an arc is a node that is there
        ensures known_product { result.1 < (net_of self.now).products }
    {
        self.outs[n as usize].ends()
    }

    /// The source and the product of a direct.
    pub fn direct(&self, n: u32) -> (u32, u32)
        requires { n < (net_of self.now).directs }
        ensures source { result.0 ≡ (net_of self.now).direct_source n }
        ensures product { result.1 ≡ (net_of self.now).direct_product n }
        // Promise: An end of an arc is a node that is there
        ensures known_source { result.0 < (net_of self.now).sources }
        // Promise: An end of an arc is a node that is there
        ensures known_product { result.1 < (net_of self.now).products }
    {
        self.directs[n as usize].ends()
    }

    /// How many paths there are: each is a feed and an out of one pool.
    pub fn paths(&self) -> u32
        ensures count { result ≡ length (paths_of (net_of self.now)) }
        ensures limited { result ≤ 512 }
    {
        self.paths.len() as u32
    }

    /// The feed and the out of a path, which meet in one pool. Paths are ordered by pool, then by feed, then by out.
    pub fn path(&self, n: u32) -> (u32, u32)
        requires { n < length (paths_of (net_of self.now)) }
        ensures feed { result.0 ≡ (path_at (net_of self.now) n).feed }
        ensures out { result.1 ≡ (path_at (net_of self.now) n).out }
        ensures way { IsWay (net_of self.now) (through result.0 result.1) }
        ensures known_feed { result.0 < (net_of self.now).feeds }
        ensures known_out { result.1 < (net_of self.now).outs }
    {
        self.paths[n as usize].arcs()
    }

    /// The source and the product of a path.
    pub fn path_ends(&self, n: u32) -> (u32, u32)
        requires { n < length (paths_of (net_of self.now)) }
        ensures source { result.0 ≡ (net_of self.now).feed_source (path_at (net_of self.now) n).feed }
        ensures product { result.1 ≡ (net_of self.now).out_product (path_at (net_of self.now) n).out }
        ensures known_source { result.0 < (net_of self.now).sources }
        ensures known_product { result.1 < (net_of self.now).products }
    {
        let (feed, out) = self.path(n);
        let (source, _) = self.feed(feed);
        let (_, product) = self.out(out);
        (source, product)
    }

    /// The name of a source, a pool, a product or a quality. Arcs have none.
    pub fn name(&self, kind: Kind, n: u32) -> &str
        requires { n < length (names_of self.now kind) }
        ensures { result.now ≡ get_or (names_of self.now kind) n [] }
    {
        match kind {
            Kind::Source => self.sources[n as usize].name.as_str(),
            Kind::Pool => self.pools[n as usize].name.as_str(),
            Kind::Product => self.products[n as usize].name.as_str(),
            Kind::Quality => self.qualities[n as usize].as_str(),
            Kind::Arc => unreachable!(),
        }
    }
}
