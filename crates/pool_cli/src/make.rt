//! The command `make`.

ghost use Rattle.std.specs.Prelude.{◌≡◌, IfOk};
ghost use Rattle.edge_io.specs.Counts.{Rose};
ghost use Rattle.pool_cli.specs.MakeEnds.{MakeEnds, MakesAs, made_text, make_status};
ghost use Rattle.run_status.specs.Took.{Took};

use edge_io::{Memory, Sink, write_whole};
use network_maker::make_network;
use network_text::write_canonical;
use run_status::Status;
use std::alloc::Global;

/// How `make` ended.
#[derive(Debug, Drop)]
pub(crate) enum MakeOutcome {
    /// The network was written.
    Done,
    /// Memory ran out.
    Memory,
    /// The sink failed.
    WriteFault,
}

impl From<MakeOutcome> for Status {
    ghost from_gives = { λ outcome status. status ≡ make_status outcome };

    fn from(outcome: MakeOutcome) -> Status {
        match outcome {
            MakeOutcome::Done => Status::Done,
            MakeOutcome::Memory => Status::OutOfMemory,
            MakeOutcome::WriteFault => Status::WriteFault,
        }
    }
}

/// Writes the network of a number, and a line feed.
pub(crate) fn make<K: Sink>(alloc: Global, number: u64, out: &mut K) -> MakeOutcome
    ensures took { Took (MakesAs number) (make_status result) (K.taken out.old) (K.taken out.new) }
    ensures ends { MakeEnds (make_status result) }
    ensures write_fault { make_status result ≡ Status.WriteFault → Rose (K.faults out.old) (K.faults out.new) }
{
    match text_of(alloc, number) {
        Ok(text) => match write_whole(out, &text) {
            Ok(()) => MakeOutcome::Done,
            Err(_) => MakeOutcome::WriteFault,
        },
        Err(Memory) => MakeOutcome::Memory,
    }
}

/// The canonical text of the network of a number, and a line feed.
fn text_of(alloc: Global, number: u64) -> Result<Vec<u8>, Memory>
    ensures { IfOk result (λ text. text.items ≡ made_text number) }
{
    let network = make_network(alloc, number)?;
    let mut text = write_canonical(alloc, &network)?;
    text.push(b'\n')?;
    Ok(text)
}
