//! The command `formulate`.

ghost use Rattle.std.specs.Prelude.{◌≡◌, ◌≢◌, ◌⊎◌, ℕ, List, Option, IsTrue};
ghost use Rattle.edge_io.specs.Counts.{Rose};
ghost use Rattle.pool_cli.specs.FormulateEnds.{FormulateEnds, FormulatesAs, formulate_status};
ghost use Rattle.run_status.specs.Reads.{Files, ReadsUnder};
ghost use Rattle.run_status.specs.Took.{Took};

use blend_network::Network;
use box_space::Form;
use edge_io::Sink;
use printed_program::network_law;
use program_text::{FormulationFault, write_formulation};
use run_status::{Status, Unread, network_under};
use shelf_calls::Shelf;
use std::alloc::Global;

/// How `formulate` ended.
#[derive(Debug, Drop)]
pub(crate) enum FormulateOutcome {
    /// The program was written.
    Done,
    /// No network was read.
    Unread(Unread),
    /// Memory ran out.
    Memory,
    /// The sink failed.
    WriteFault,
}

impl From<FormulateOutcome> for Status {
    ghost from_gives = { λ outcome status. status ≡ formulate_status outcome };

    fn from(outcome: FormulateOutcome) -> Status {
        match outcome {
            FormulateOutcome::Done => Status::Done,
            FormulateOutcome::Unread(why) => Status::from(why),
            FormulateOutcome::Memory => Status::OutOfMemory,
            FormulateOutcome::WriteFault => Status::WriteFault,
        }
    }
}

/// Writes the exact program of the network in the file of this name, in a form.
pub(crate) fn formulate<S: Shelf, K: Sink>(
    alloc: Global,
    name: &str,
    form: Form,
    shelf: &mut S,
    out: &mut K,
) -> FormulateOutcome
    requires { IsTrue ((S.told shelf.old).admits name.now) }
    ensures took { Took (FormulatesAs (S.told shelf.old).files name.now form) (formulate_status result) (K.taken out.old) (K.taken out.new) }
    ensures ends { FormulateEnds (S.told shelf.old).files name.now (S.told shelf.old).taken (S.told shelf.new).taken (formulate_status result) }
    ensures read_fault { formulate_status result ≡ Status.ReadFault → Rose (S.told shelf.old).faults (S.told shelf.new).faults }
    ensures quiet { (formulate_status result ≡ Status.ReadFault) ⊎ ((S.told shelf.new).faults ≡ (S.told shelf.old).faults) }
    ensures write_fault { formulate_status result ≡ Status.WriteFault → Rose (K.faults out.old) (K.faults out.new) }
{
    match network_under(alloc, name, shelf) {
        Ok(net) => formulate_network(alloc, &net, form, out),
        Err(why) => FormulateOutcome::Unread(why),
    }
}

/// Writes the exact program of a network that was read.
fn formulate_network<K: Sink>(
    alloc: Global,
    net: &Network,
    form: Form,
    out: &mut K,
) -> FormulateOutcome
    ensures took { (files : Option Files) (name : List ℕ) → ReadsUnder files name net.now → Took (FormulatesAs files name form) (formulate_status result) (K.taken out.old) (K.taken out.new) }
    ensures ends { (files : Option Files) (name : List ℕ) (before after : ℕ) → ReadsUnder files name net.now → FormulateEnds files name before after (formulate_status result) }
    ensures read { formulate_status result ≢ Status.ReadFault }
    ensures write_fault { formulate_status result ≡ Status.WriteFault → Rose (K.faults out.old) (K.faults out.new) }
{
    network_law(net);
    match write_formulation(alloc, net, form, out) {
        Ok(()) => FormulateOutcome::Done,
        Err(FormulationFault::Memory) => FormulateOutcome::Memory,
        Err(FormulationFault::Write) => FormulateOutcome::WriteFault,
    }
}
