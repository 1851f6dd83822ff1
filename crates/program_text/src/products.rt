//! The products of an exact program.

ghost use Rattle.std.specs.Prelude.{◌≡◌, ◌+◌, ◌*◌, ◌/◌, ◌%◌, ◌<◌, OnErr};
ghost use Rattle.edge_io.specs.Counts.{Grows, Rose};
ghost use Rattle.edge_io.specs.Writing.{Wrote};
ghost use Rattle.pool_model.specs.Network.{net_of};
ghost use Rattle.row_model.specs.Variables.{path_count};
ghost use Rattle.text_pieces.specs.Pieces.{each_below};
ghost use Rattle.program_text.specs.Lines.{mixed_line, path_line, product_line};

use crate::names::{Name, Symbol, cells, in_grid, named};
use crate::pieces::{Piece, write_pieces};
use blend_network::Network;
use edge_io::{Sink, WriteFault};

/// How many parts a proportion is counted in.
const GRAIN: u32 = 1_048_576;

/// Each mixed variable is its pool's quality times its out's flow.
pub(crate) fn write_mixed<K: Sink>(net: &Network, out: &mut K) -> Result<(), WriteFault>
    ensures wrote { Wrote result (K.taken out.old) (each_below (mixed_line (net_of net.now)) ((net_of net.now).outs * (net_of net.now).qualities)) (K.taken out.new) }
    ensures failed { OnErr result (Rose (K.faults out.old) (K.faults out.new)) }
    ensures faults_grow { Grows (K.faults out.old) (K.faults out.new) }
{
    let counts = net.sizes();
    for number in 0..cells(counts.outs, counts.qualities) {
        write_mixed_at(net, number, out)?;
    }
    Ok(())
}

fn write_mixed_at<K: Sink>(net: &Network, number: u32, out: &mut K) -> Result<(), WriteFault>
    requires { number < (net_of net.now).outs * (net_of net.now).qualities }
    ensures wrote { Wrote result (K.taken out.old) (mixed_line (net_of net.now) number) (K.taken out.new) }
    ensures failed { OnErr result (Rose (K.faults out.old) (K.faults out.new)) }
    ensures faults_grow { Grows (K.faults out.old) (K.faults out.new) }
{
    let (quality, arc) = mixed_factors(net, number);
    write_product(
        named(Symbol::Mixed, number),
        named(Symbol::Quality, quality),
        arc,
        1,
        out,
    )
}

/// The numbers of the quality and of the out whose product a mixed variable is.
fn mixed_factors(net: &Network, number: u32) -> (u32, u32)
    requires { number < (net_of net.now).outs * (net_of net.now).qualities }
    ensures quality { let n = net_of net.now in result.0 ≡ n.out_pool (number / n.qualities) * n.qualities + number % n.qualities }
    ensures arc { result.1 ≡ number / (net_of net.now).qualities }
{
    let counts = net.sizes();
    let (arc, quality) = place_of(number, counts.outs, counts.qualities);
    let (pool, _) = net.out(arc);
    (in_grid(pool, counts.qualities, quality), arc)
}

/// The row and the column of a cell in a grid of some width.
fn place_of(number: u32, rows: u32, width: u32) -> (u32, u32)
    requires { number < rows * width }
    ensures row { result.0 ≡ number / width }
    ensures column { result.1 ≡ number % width }
    ensures row_below { result.0 < rows }
    ensures column_below { result.1 < width }
{
    (number / width, number % width)
}

/// The flow along each path is its feed's proportion times its out's flow.
pub(crate) fn write_paths<K: Sink>(net: &Network, out: &mut K) -> Result<(), WriteFault>
    ensures wrote { Wrote result (K.taken out.old) (each_below (path_line (net_of net.now)) (path_count (net_of net.now))) (K.taken out.new) }
    ensures failed { OnErr result (Rose (K.faults out.old) (K.faults out.new)) }
    ensures faults_grow { Grows (K.faults out.old) (K.faults out.new) }
{
    for path in 0..net.paths() {
        write_path(net, path, out)?;
    }
    Ok(())
}

fn write_path<K: Sink>(net: &Network, path: u32, out: &mut K) -> Result<(), WriteFault>
    requires { path < path_count (net_of net.now) }
    ensures wrote { Wrote result (K.taken out.old) (path_line (net_of net.now) path) (K.taken out.new) }
    ensures failed { OnErr result (Rose (K.faults out.old) (K.faults out.new)) }
    ensures faults_grow { Grows (K.faults out.old) (K.faults out.new) }
{
    let (feed, arc) = net.path(path);
    write_product(
        named(Symbol::Path, path),
        named(Symbol::Proportion, feed),
        arc,
        GRAIN,
        out,
    )
}

/// A variable, whose scale times it is a factor times what flows along an out.
fn write_product<K: Sink>(
    variable: Name,
    factor: Name,
    arc: u32,
    scale: u32,
    out: &mut K,
) -> Result<(), WriteFault>
    ensures wrote { Wrote result (K.taken out.old) (product_line variable.symbol variable.number factor.symbol factor.number arc scale) (K.taken out.new) }
    ensures failed { OnErr result (Rose (K.faults out.old) (K.faults out.new)) }
    ensures faults_grow { Grows (K.faults out.old) (K.faults out.new) }
{
    write_pieces(
        out,
        &[
            Piece::Words(b"prod "),
            Piece::Letter(variable.symbol.letter()),
            Piece::Number(i128::from(variable.number)),
            Piece::Words(b" "),
            Piece::Letter(factor.symbol.letter()),
            Piece::Number(i128::from(factor.number)),
            Piece::Words(b" y"),
            Piece::Number(i128::from(arc)),
            Piece::Words(b" "),
            Piece::Number(i128::from(scale)),
            Piece::Words(b"\n"),
        ],
    )
}
