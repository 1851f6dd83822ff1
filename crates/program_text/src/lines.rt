//! The lines of an exact program.

ghost use Rattle.std.specs.Prelude.{◌≡◌, ◌+◌, ◌<◌, ◌≤◌, ◌^◌, OnErr};
ghost use Rattle.edge_io.specs.Counts.{Grows, Rose};
ghost use Rattle.edge_io.specs.Writing.{Wrote};
ghost use Rattle.pool_model.specs.Network.{net_of};
ghost use Rattle.row_model.specs.Variables.{variables};
ghost use Rattle.row_model.specs.Catalogue as catalogue;
ghost use Rattle.box_space.specs.Views.{IsView, shown_box, shown_kind};
ghost use Rattle.program_text.specs.Lines.{cost_line, ends_line, ends_lines, ends_text, kind_text, row_head, row_line, row_lines};

use crate::names::name_at;
use crate::pieces::{Piece, write_pieces};
use crate::terms::{write_costs, write_terms};
use blend_network::Network;
use box_space::{BoxView, Form, LinRow, RowKind, var_ends, vars};
use edge_io::{Sink, WriteFault, write_whole};
use row_book::row_at;
use text_buffer::TextBuffer;

/// What is made as small as it can be.
pub(crate) fn write_cost_line<K: Sink>(net: &Network, out: &mut K) -> Result<(), WriteFault>
    ensures wrote { Wrote result (K.taken out.old) (cost_line (net_of net.now)) (K.taken out.new) }
    ensures failed { OnErr result (Rose (K.faults out.old) (K.faults out.new)) }
    ensures faults_grow { Grows (K.faults out.old) (K.faults out.new) }
{
    write_whole(out, b"min")?;
    write_costs(net, out)?;
    write_whole(out, b"\n")
}

/// The ends of the variables that a form has.
pub(crate) fn write_ends<K: Sink>(
    net: &Network,
    v: &BoxView,
    form: Form,
    out: &mut K,
) -> Result<(), WriteFault>
    requires { IsView (net_of net.now) v.now }
    ensures wrote { Wrote result (K.taken out.old) (ends_lines (net_of net.now) (shown_box v.now) form) (K.taken out.new) }
    ensures failed { OnErr result (Rose (K.faults out.old) (K.faults out.new)) }
    ensures faults_grow { Grows (K.faults out.old) (K.faults out.new) }
{
    for var in 0..vars(net) {
        write_ends_of(net, v, form, var, out)?;
    }
    Ok(())
}

/// The ends of a variable, where the form has it.
fn write_ends_of<K: Sink>(
    net: &Network,
    v: &BoxView,
    form: Form,
    var: u32,
    out: &mut K,
) -> Result<(), WriteFault>
    requires view { IsView (net_of net.now) v.now }
    requires var { var < variables (net_of net.now) }
    ensures wrote { Wrote result (K.taken out.old) (ends_text (net_of net.now) (shown_box v.now) form var) (K.taken out.new) }
    ensures failed { OnErr result (Rose (K.faults out.old) (K.faults out.new)) }
    ensures faults_grow { Grows (K.faults out.old) (K.faults out.new) }
{
    let name = name_at(net, var);
    if !name.symbol.is_of(form) {
        return write_pieces(out, &[]);
    }
    let ends = var_ends(net, v, var);
    write_ends_line(net, var, &ends, out)
}

/// The line of a variable with its ends.
fn write_ends_line<K: Sink>(
    net: &Network,
    var: u32,
    ends: &(i128, i128),
    out: &mut K,
) -> Result<(), WriteFault>
    requires { var < variables (net_of net.now) }
    ensures wrote { Wrote result (K.taken out.old) (ends_line (net_of net.now) var ends.now.0 ends.now.1) (K.taken out.new) }
    ensures failed { OnErr result (Rose (K.faults out.old) (K.faults out.new)) }
    ensures faults_grow { Grows (K.faults out.old) (K.faults out.new) }
{
    let (low, high) = *ends;
    let name = name_at(net, var);
    write_pieces(
        out,
        &[
            Piece::Words(b"ends "),
            Piece::Letter(name.symbol.letter()),
            Piece::Number(i128::from(name.number)),
            Piece::Words(b" "),
            Piece::Number(low),
            Piece::Words(b" "),
            Piece::Number(high),
            Piece::Words(b"\n"),
        ],
    )
}

/// So many rows of the catalogue, from a first one on.
pub(crate) fn write_rows<K: Sink>(
    net: &Network,
    v: &BoxView,
    first: u32,
    count: u32,
    row: &mut LinRow,
    out: &mut K,
) -> Result<(), WriteFault>
    requires view { IsView (net_of net.now) v.now }
    requires known { first + count ≤ catalogue.rows (net_of net.now) }
    requires small { first + count < 2 ^ 32 }
    ensures wrote { Wrote result (K.taken out.old) (row_lines (net_of net.now) (shown_box v.now) first count) (K.taken out.new) }
    ensures failed { OnErr result (Rose (K.faults out.old) (K.faults out.new)) }
    ensures faults_grow { Grows (K.faults out.old) (K.faults out.new) }
{
    for n in 0..count {
        write_row(net, v, first + n, row, out)?;
    }
    Ok(())
}

/// A row of the catalogue, handed on as one piece.
fn write_row<K: Sink>(
    net: &Network,
    v: &BoxView,
    id: u32,
    row: &mut LinRow,
    out: &mut K,
) -> Result<(), WriteFault>
    requires view { IsView (net_of net.now) v.now }
    requires known { id < catalogue.rows (net_of net.now) }
    ensures wrote { Wrote result (K.taken out.old) (row_line (net_of net.now) (shown_box v.now) id) (K.taken out.new) }
    ensures failed { OnErr result (Rose (K.faults out.old) (K.faults out.new)) }
    ensures faults_grow { Grows (K.faults out.old) (K.faults out.new) }
{
    let mut line = TextBuffer::new();
    match put_row(net, v, id, row, &mut line) {
        Ok(()) => write_whole(out, line.text()),
        Err(_) => put_row(net, v, id, row, out),
    }
}

/// A row of the catalogue, piece by piece.
fn put_row<K: Sink>(
    net: &Network,
    v: &BoxView,
    id: u32,
    row: &mut LinRow,
    out: &mut K,
) -> Result<(), WriteFault>
    requires view { IsView (net_of net.now) v.now }
    requires known { id < catalogue.rows (net_of net.now) }
    ensures wrote { Wrote result (K.taken out.old) (row_line (net_of net.now) (shown_box v.now) id) (K.taken out.new) }
    ensures failed { OnErr result (Rose (K.faults out.old) (K.faults out.new)) }
    ensures faults_grow { Grows (K.faults out.old) (K.faults out.new) }
{
    let kind = row_at(net, v, id, row);
    write_row_head(id, kind, row, out)?;
    write_terms(net, row.terms(), out)?;
    write_whole(out, b"\n")
}

/// What stands before a row's terms.
fn write_row_head<K: Sink>(
    id: u32,
    kind: RowKind,
    row: &LinRow,
    out: &mut K,
) -> Result<(), WriteFault>
    ensures wrote { Wrote result (K.taken out.old) (row_head id (shown_kind kind) row.now.constant) (K.taken out.new) }
    ensures failed { OnErr result (Rose (K.faults out.old) (K.faults out.new)) }
    ensures faults_grow { Grows (K.faults out.old) (K.faults out.new) }
{
    write_pieces(
        out,
        &[
            Piece::Words(b"row "),
            Piece::Number(i128::from(id)),
            Piece::Words(kind_words(kind)),
            Piece::Number(row.constant()),
        ],
    )
}

fn kind_words(kind: RowKind) -> &'static [u8]
    ensures { result.now ≡ kind_text (shown_kind kind) }
{
    match kind {
        RowKind::AtLeast => b" ge ",
        RowKind::Equal => b" eq ",
    }
}
