//! What is gathered from: a network, jobs on a tree of it, and files of answers.

ghost use Rattle.std.specs.Prelude.{◌≡◌, ◌⊎◌, Err, IsTrue, IfOk, IfErr, IsErrAnd, List, ℕ, map, string_bytes};
ghost use Rattle.std.specs.List.{Contains};
ghost use Rattle.pool_model.specs.Network.{Network as ANetwork};
ghost use Rattle.shelf_calls.specs.Told.{Keeps};
ghost use Rattle.run_status.specs.Reads.{ReadsUnder};
ghost use Rattle.job_commands.specs.WorkEnds.{HandsOutUnder};
ghost use Rattle.gather_command.specs.GatherEnds.{gather_status};
ghost use Rattle.gather_command.specs.Brought.{IsBrought, IsUnbrought};

use crate::answers::answers_under;
use crate::outcome::GatherOutcome;
use blend_network::Network;
use gathered_run::AnswersFile;
use job_commands::{HandedOut, handed_out_under};
use run_status::{Status, network_under};
use shelf_calls::Shelf;
use std::alloc::Global;

/// What is gathered from.
#[derive(Drop)]
pub(crate) struct Brought {
    pub(crate) network: Network,
    pub(crate) handed: HandedOut,
    pub(crate) files: Vec<AnswersFile>,
}

/// The network, the jobs and the answers in the files of these names. The shelf is asked for each only where those before it were read.
pub(crate) fn brought_under<S: Shelf>(
    alloc: Global,
    net: &str,
    jobs: &str,
    answers: &[String],
    shelf: &mut S,
) -> Result<Brought, GatherOutcome>
    requires network { IsTrue ((S.told shelf.old).admits net.now) }
    requires jobs { (network : ANetwork) → ReadsUnder (S.told shelf.old).files net.now network → IsTrue ((S.told shelf.old).admits jobs.now) }
    requires answers { HandsOutUnder (S.told shelf.old).files net.now jobs.now → (name : List ℕ) → Contains (map string_bytes answers.now) name
        → IsTrue ((S.told shelf.old).admits name) }
    ensures brought { IfOk result (IsBrought (S.told shelf.old).files net.now jobs.now (map string_bytes answers.now)) }
    ensures unbrought { IfErr result (IsUnbrought net.now jobs.now (map string_bytes answers.now) (S.told shelf.old) (S.told shelf.new)) }
    ensures quiet { IsErrAnd result (λ o. gather_status o ≡ Status.ReadFault) ⊎ ((S.told shelf.new).faults ≡ (S.told shelf.old).faults) }
{
    let network = network_under(alloc, net, shelf)?;
    let handed = handed_out_under(alloc, &network, jobs, shelf)?;
    let files = answers_under(alloc, answers, shelf)?;
    Ok(Brought {
        network,
        handed,
        files,
    })
}
