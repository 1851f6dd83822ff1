//! The lines of a trial.

ghost use Rattle.std.specs.Prelude.{◌≡◌, OnErr};
ghost use Rattle.edge_io.specs.Counts.{Grows, Rose};
ghost use Rattle.edge_io.specs.Writing.{Wrote};
ghost use Rattle.pool_model.specs.Network.{net_of};
ghost use Rattle.printed_lines.specs.Trial.{network_line, outcome_lines, trial_text};

use blend_network::Network;
use edge_io::{Sink, WriteFault, write_whole};
use row_book::rows;
use text_buffer::TextBuffer;
use text_pieces::{Piece, write_line};

/// How a trial of a network went: the status that `solve` ends with, and the numbers of its certificate, in picos, cost and gap over the base.
#[derive(Clone, Copy, Debug, PartialEq, Eq)]
pub struct Trial {
    pub status: u8,
    pub cost: i128,
    pub base: u64,
    pub bound: i128,
    pub gap: i128,
}

/// Writes the four lines of a trial of the network whose certificate was accepted. It takes no memory.
///
/// `WriteFault` comes only where the sink's count of faults rose; the sink has taken a front of the lines then.
pub fn write_trial<K: Sink>(net: &Network, trial: &Trial, out: &mut K) -> Result<(), WriteFault>
    // Promise: The four lines of a trial are those of the definition, with the network's own counts
    ensures wrote { Wrote result (K.taken out.old) (trial_text (net_of net.now) trial.now) (K.taken out.new) }
    ensures failed { OnErr result (Rose (K.faults out.old) (K.faults out.new)) }
    ensures faults_grow { Grows (K.faults out.old) (K.faults out.new) }
{
    let mut text = TextBuffer::new();
    match put_trial(net, trial, &mut text) {
        Ok(()) => write_whole(out, text.text()),
        Err(_) => put_trial(net, trial, out),
    }
}

/// The lines, one after another.
fn put_trial<K: Sink>(net: &Network, trial: &Trial, out: &mut K) -> Result<(), WriteFault>
    ensures wrote { Wrote result (K.taken out.old) (trial_text (net_of net.now) trial.now) (K.taken out.new) }
    ensures failed { OnErr result (Rose (K.faults out.old) (K.faults out.new)) }
    ensures faults_grow { Grows (K.faults out.old) (K.faults out.new) }
{
    write_network(net, out)?;
    write_outcome(trial, out)
}

/// How many nodes, arcs, paths and rows the network has.
fn write_network<K: Sink>(net: &Network, out: &mut K) -> Result<(), WriteFault>
    ensures wrote { Wrote result (K.taken out.old) (network_line (net_of net.now)) (K.taken out.new) }
    ensures failed { OnErr result (Rose (K.faults out.old) (K.faults out.new)) }
    ensures faults_grow { Grows (K.faults out.old) (K.faults out.new) }
{
    let counts = net.sizes();
    write_line(
        out,
        &[
            Piece::Words(b"network "),
            Piece::Whole(i128::from(counts.sources)),
            Piece::Words(b" "),
            Piece::Whole(i128::from(counts.pools)),
            Piece::Words(b" "),
            Piece::Whole(i128::from(counts.products)),
            Piece::Words(b" "),
            Piece::Whole(i128::from(counts.qualities)),
            Piece::Words(b" arcs "),
            Piece::Whole(i128::from(counts.feeds + counts.outs + counts.directs)),
            Piece::Words(b" paths "),
            Piece::Whole(i128::from(counts.paths)),
            Piece::Words(b" rows "),
            Piece::Whole(i128::from(rows(net))),
            Piece::Words(b"\n"),
        ],
    )
}

/// The status, the numbers of the certificate, and that it was accepted.
fn write_outcome<K: Sink>(trial: &Trial, out: &mut K) -> Result<(), WriteFault>
    ensures wrote { Wrote result (K.taken out.old) (outcome_lines trial.now) (K.taken out.new) }
    ensures failed { OnErr result (Rose (K.faults out.old) (K.faults out.new)) }
    ensures faults_grow { Grows (K.faults out.old) (K.faults out.new) }
{
    let Trial {
        status,
        cost,
        base,
        bound,
        gap,
    } = *trial;
    write_line(
        out,
        &[
            Piece::Words(b"status "),
            Piece::Whole(i128::from(status)),
            Piece::Words(b"\ncost "),
            Piece::Whole(cost),
            Piece::Words(b" "),
            Piece::Whole(i128::from(base)),
            Piece::Words(b" bound "),
            Piece::Whole(bound),
            Piece::Words(b" gap "),
            Piece::Whole(gap),
            Piece::Words(b"\ncheck accepted\n"),
        ],
    )
}
