//! The text of an exact program.

ghost use Rattle.std.specs.Prelude.{◌≡◌, ◌++◌, Err, OnErr};
ghost use Rattle.edge_io.specs.Counts.{Grows, Rose};
ghost use Rattle.edge_io.specs.Writing.{Wrote};
ghost use Rattle.pool_model.specs.Network.{net_of};
ghost use Rattle.box_space.specs.Views.{IsView, shown_box};
ghost use Rattle.program_text.specs.Outcomes.{WroteOrNothing};
ghost use Rattle.program_text.specs.Lines.{cost_line, ends_lines};
ghost use Rattle.program_text.specs.Programs.{family_lines, first_lines, group_lines, head_line, p_lines, pq_lines, program_in, program_text, q_lines};

use crate::fault::FormulationFault;
use crate::lines::{write_cost_line, write_ends, write_rows};
use crate::products::{write_mixed, write_paths};
use blend_network::Network;
use box_space::{BoxView, Form, LinRow, root_box};
use edge_io::{Sink, WriteFault, write_whole};
use row_book::{Group, exact_rows};
use std::alloc::Global;
use text_buffer::TextBuffer;

/// Writes the text of a form's exact program: what it makes as small as it can be, its variables with their ends, the rows of
/// the network and of the form's families with their products, and the end.
///
/// Memory is taken before the first byte. `Memory` leaves the sink as it was. `Write` comes only where the sink's count of
/// faults rose; the sink has taken a front of the text then.
pub fn write_formulation<K: Sink>(
    alloc: Global,
    net: &Network,
    form: Form,
    out: &mut K,
) -> Result<(), FormulationFault>
    // Promise: The text of a program is the definition's, or a front of it where the sink fails
    ensures wrote { WroteOrNothing result (K.taken out.old) (program_text (net_of net.now) form) (K.taken out.new) }
    ensures failed { result ≡ Err FormulationFault.Write → Rose (K.faults out.old) (K.faults out.new) }
    ensures faults_grow { Grows (K.faults out.old) (K.faults out.new) }
{
    let root = root_box(alloc, net)?;
    let mut row = LinRow::new(alloc)?;
    match write_program(net, &root.view(), form, &mut row, out) {
        Ok(()) => Ok(()),
        Err(WriteFault) => Err(FormulationFault::Write),
    }
}

/// The program in a box, handed on as one piece where it is short.
fn write_program<K: Sink>(
    net: &Network,
    v: &BoxView,
    form: Form,
    row: &mut LinRow,
    out: &mut K,
) -> Result<(), WriteFault>
    requires { IsView (net_of net.now) v.now }
    ensures wrote { Wrote result (K.taken out.old) (program_in (net_of net.now) (shown_box v.now) form) (K.taken out.new) }
    ensures failed { OnErr result (Rose (K.faults out.old) (K.faults out.new)) }
    ensures faults_grow { Grows (K.faults out.old) (K.faults out.new) }
{
    let mut text = TextBuffer::new();
    match put_program(net, v, form, row, &mut text) {
        Ok(()) => write_whole(out, text.text()),
        Err(_) => put_program(net, v, form, row, out),
    }
}

/// The program in a box, part by part.
fn put_program<K: Sink>(
    net: &Network,
    v: &BoxView,
    form: Form,
    row: &mut LinRow,
    out: &mut K,
) -> Result<(), WriteFault>
    requires { IsView (net_of net.now) v.now }
    ensures wrote { Wrote result (K.taken out.old) (program_in (net_of net.now) (shown_box v.now) form) (K.taken out.new) }
    ensures failed { OnErr result (Rose (K.faults out.old) (K.faults out.new)) }
    ensures faults_grow { Grows (K.faults out.old) (K.faults out.new) }
{
    write_first_lines(net, v, form, out)?;
    write_group(net, v, Group::Network, row, out)?;
    write_families(net, v, form, row, out)?;
    write_whole(out, b"end\n")
}

/// The lines before the families.
fn write_first_lines<K: Sink>(
    net: &Network,
    v: &BoxView,
    form: Form,
    out: &mut K,
) -> Result<(), WriteFault>
    requires { IsView (net_of net.now) v.now }
    ensures wrote { Wrote result (K.taken out.old) (first_lines (net_of net.now) (shown_box v.now) form) (K.taken out.new) }
    ensures failed { OnErr result (Rose (K.faults out.old) (K.faults out.new)) }
    ensures faults_grow { Grows (K.faults out.old) (K.faults out.new) }
{
    write_whole(out, head(form))?;
    write_cost_line(net, out)?;
    write_ends(net, v, form, out)
}

/// The name of the program.
fn head(form: Form) -> &'static [u8]
    ensures { result.now ≡ head_line form }
{
    match form {
        Form::P => b"program p\n",
        Form::Q => b"program q\n",
        Form::Pq => b"program pq\n",
    }
}

/// The families that a form has beside the rows of the network.
fn write_families<K: Sink>(
    net: &Network,
    v: &BoxView,
    form: Form,
    row: &mut LinRow,
    out: &mut K,
) -> Result<(), WriteFault>
    requires { IsView (net_of net.now) v.now }
    ensures wrote { Wrote result (K.taken out.old) (family_lines (net_of net.now) (shown_box v.now) form) (K.taken out.new) }
    ensures failed { OnErr result (Rose (K.faults out.old) (K.faults out.new)) }
    ensures faults_grow { Grows (K.faults out.old) (K.faults out.new) }
{
    match form {
        Form::P => write_p(net, v, row, out),
        Form::Q => write_q(net, v, row, out),
        Form::Pq => write_pq(net, v, row, out),
    }
}

/// The rows of P but its envelopes, and its products.
fn write_p<K: Sink>(
    net: &Network,
    v: &BoxView,
    row: &mut LinRow,
    out: &mut K,
) -> Result<(), WriteFault>
    requires { IsView (net_of net.now) v.now }
    ensures wrote { Wrote result (K.taken out.old) (p_lines (net_of net.now) (shown_box v.now)) (K.taken out.new) }
    ensures failed { OnErr result (Rose (K.faults out.old) (K.faults out.new)) }
    ensures faults_grow { Grows (K.faults out.old) (K.faults out.new) }
{
    write_group(net, v, Group::P, row, out)?;
    write_mixed(net, out)
}

/// The rows of Q but its envelopes, and its products.
fn write_q<K: Sink>(
    net: &Network,
    v: &BoxView,
    row: &mut LinRow,
    out: &mut K,
) -> Result<(), WriteFault>
    requires { IsView (net_of net.now) v.now }
    ensures wrote { Wrote result (K.taken out.old) (q_lines (net_of net.now) (shown_box v.now)) (K.taken out.new) }
    ensures failed { OnErr result (Rose (K.faults out.old) (K.faults out.new)) }
    ensures faults_grow { Grows (K.faults out.old) (K.faults out.new) }
{
    write_group(net, v, Group::Q, row, out)?;
    write_paths(net, out)
}

/// The same, and behind them the further rows of Pq.
fn write_pq<K: Sink>(
    net: &Network,
    v: &BoxView,
    row: &mut LinRow,
    out: &mut K,
) -> Result<(), WriteFault>
    requires { IsView (net_of net.now) v.now }
    ensures wrote { Wrote result (K.taken out.old) (q_lines (net_of net.now) (shown_box v.now) ++ pq_lines (net_of net.now) (shown_box v.now)) (K.taken out.new) }
    ensures failed { OnErr result (Rose (K.faults out.old) (K.faults out.new)) }
    ensures faults_grow { Grows (K.faults out.old) (K.faults out.new) }
{
    write_q(net, v, row, out)?;
    write_group(net, v, Group::Further, row, out)
}

/// The rows of a group that are the same in every box.
fn write_group<K: Sink>(
    net: &Network,
    v: &BoxView,
    group: Group,
    row: &mut LinRow,
    out: &mut K,
) -> Result<(), WriteFault>
    requires { IsView (net_of net.now) v.now }
    ensures wrote { Wrote result (K.taken out.old) (group_lines (net_of net.now) (shown_box v.now) group) (K.taken out.new) }
    ensures failed { OnErr result (Rose (K.faults out.old) (K.faults out.new)) }
    ensures faults_grow { Grows (K.faults out.old) (K.faults out.new) }
{
    let rows = exact_rows(net, group);
    write_rows(net, v, rows.first, rows.count, row, out)
}
