//! Terms of rows and of the cost.

ghost use Rattle.std.specs.Prelude.{◌≡◌, ◌<◌, All, OnErr};
ghost use Rattle.std.specs.List.{flat_map};
ghost use Rattle.edge_io.specs.Counts.{Grows, Rose};
ghost use Rattle.edge_io.specs.Writing.{Wrote};
ghost use Rattle.pool_model.specs.Network.{net_of};
ghost use Rattle.row_model.specs.Variables.{by_number, costs, variables};
ghost use Rattle.program_text.specs.Lines.{term_text, terms_text, written_term};

use crate::names::name_at;
use crate::pieces::{Piece, write_pieces};
use blend_network::Network;
use box_space::{Term, var_cost, vars};
use edge_io::{Sink, WriteFault};

/// A variable and its coefficient.
fn write_term<K: Sink>(net: &Network, term: &Term, out: &mut K) -> Result<(), WriteFault>
    requires { term.now.var < variables (net_of net.now) }
    ensures wrote { Wrote result (K.taken out.old) (written_term (net_of net.now) term.now.var term.now.coef) (K.taken out.new) }
    ensures failed { OnErr result (Rose (K.faults out.old) (K.faults out.new)) }
    ensures faults_grow { Grows (K.faults out.old) (K.faults out.new) }
{
    let coef = term.coef;
    let name = name_at(net, term.var);
    write_pieces(
        out,
        &[
            Piece::Words(b" "),
            Piece::Letter(name.symbol.letter()),
            Piece::Number(i128::from(name.number)),
            Piece::Words(b" "),
            Piece::Number(coef),
        ],
    )
}

/// The terms of a row, as they stand.
pub(crate) fn write_terms<K: Sink>(
    net: &Network,
    terms: &[Term],
    out: &mut K,
) -> Result<(), WriteFault>
    requires { All (λ t. t.var < variables (net_of net.now)) terms.now }
    ensures wrote { Wrote result (K.taken out.old) (flat_map (λ t. written_term (net_of net.now) t.var t.coef) terms.now) (K.taken out.new) }
    ensures failed { OnErr result (Rose (K.faults out.old) (K.faults out.new)) }
    ensures faults_grow { Grows (K.faults out.old) (K.faults out.new) }
{
    for term in terms {
        write_term(net, term, out)?;
    }
    Ok(())
}

/// The terms of the cost.
pub(crate) fn write_costs<K: Sink>(net: &Network, out: &mut K) -> Result<(), WriteFault>
    ensures wrote { Wrote result (K.taken out.old) (terms_text (net_of net.now) (by_number (net_of net.now) (costs (net_of net.now)))) (K.taken out.new) }
    ensures failed { OnErr result (Rose (K.faults out.old) (K.faults out.new)) }
    ensures faults_grow { Grows (K.faults out.old) (K.faults out.new) }
{
    for var in 0..vars(net) {
        write_cost(net, var, out)?;
    }
    Ok(())
}

/// The term of a variable in the cost, if it has one.
fn write_cost<K: Sink>(net: &Network, var: u32, out: &mut K) -> Result<(), WriteFault>
    requires { var < variables (net_of net.now) }
    ensures wrote { Wrote result (K.taken out.old) (term_text (net_of net.now) var (by_number (net_of net.now) (costs (net_of net.now)) var)) (K.taken out.new) }
    ensures failed { OnErr result (Rose (K.faults out.old) (K.faults out.new)) }
    ensures faults_grow { Grows (K.faults out.old) (K.faults out.new) }
{
    let cost = var_cost(net, var);
    if cost == 0 {
        return write_pieces(out, &[]);
    }
    let term = Term {
        var,
        coef: i128::from(cost),
    };
    write_term(net, &term, out)
}
