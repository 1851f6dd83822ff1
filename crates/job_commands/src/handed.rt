//! The jobs in a file, with the tree that they are on.

ghost use Rattle.std.specs.Prelude.{◌≡◌, ◌⊎◌, Err, IsTrue, IfOk, IfErr};
ghost use Rattle.shelf_calls.specs.Told.{Keeps};
ghost use Rattle.pool_model.specs.Network.{net_of};
ghost use Rattle.job_texts.specs.Texts.{Jobs};
ghost use Rattle.job_trees.specs.Fitting.{Fits};
ghost use Rattle.job_commands.specs.Handed.{HandsOut, IsHandedOut, IsRefusalOf, IsUnhanded, SpellsJobs, misfit_as, unhanded_by, unhanded_status, unread_as};
ghost use Rattle.job_commands.specs.declared.handed.Unhanded.TheVariants as unhanded;

use blend_network::Network;
use job_texts::{ReadFault, read_jobs};
use job_trees::{HandedOut, JobsFault, tree_of_jobs};
use run_status::Status;
use shelf_calls::{Shelf, ShelfFault};
use std::alloc::Global;

/// How many bytes a file of jobs may have, or of answers.
pub const MOST_JOBS: usize = 67_108_864;

/// Why no jobs were handed out from a file.
#[derive(Debug, Drop)]
pub enum Unhanded {
    /// It is longer than may be.
    TooLong,
    /// It is no text of jobs, and this is its first faulty line; or, with line 0, its jobs don't fit the network.
    Refused(u64),
    /// The shelf failed.
    Failed,
    /// Memory ran out.
    Memory,
}

impl From<Unhanded> for Status {
    ghost from_gives = { λ why status. status ≡ unhanded_status why };

    fn from(why: Unhanded) -> Status {
        match why {
            Unhanded::TooLong => Status::CertTooLong,
            Unhanded::Refused(line) => Status::JobsRefused(line),
            Unhanded::Failed => Status::ReadFault,
            Unhanded::Memory => Status::OutOfMemory,
        }
    }
}

impl From<ShelfFault> for Unhanded {
    ghost from_gives = { λ fault why. why ≡ unhanded_by fault };

    // Promise: Of what a shelf may say of the file of JOBS want of memory alone is made 23: a failure is made 20, and too many bytes 5
    fn from(fault: ShelfFault) -> Unhanded {
        match fault {
            ShelfFault::Failed => Unhanded::Failed,
            ShelfFault::TooLong => Unhanded::TooLong,
            ShelfFault::Memory => Unhanded::Memory,
        }
    }
}

impl From<ReadFault> for Unhanded {
    ghost from_gives = { λ fault why. why ≡ unread_as fault };

    // Promise: Of the causes for which JOBS are refused want of memory alone is made 23: every other is told as it is (6)
    fn from(fault: ReadFault) -> Unhanded {
        match fault {
            ReadFault::Line(line) => Unhanded::Refused(line),
            ReadFault::Memory => Unhanded::Memory,
        }
    }
}

impl From<JobsFault> for Unhanded {
    ghost from_gives = { λ fault why. why ≡ misfit_as fault };

    // Promise: Of the causes for which JOBS are refused want of memory alone is made 23: every other is told as it is (6)
    fn from(fault: JobsFault) -> Unhanded {
        match fault {
            JobsFault::Misfit => Unhanded::Refused(0),
            JobsFault::Memory => Unhanded::Memory,
        }
    }
}

/// The jobs in the file of this name, which fit the network, with the tree that they are on.
///
/// `TooLong` comes exactly where the file has more than 67,108,864 bytes; `Refused` exactly where it is no text of jobs, with its first
/// faulty line, or where its jobs don't fit the network, with line 0. `Failed` comes only where the shelf's count of faults rose.
pub fn handed_out_under<S: Shelf>(
    alloc: Global,
    net: &Network,
    name: &str,
    shelf: &mut S,
) -> Result<HandedOut, Unhanded>
    requires { IsTrue ((S.told shelf.old).admits name.now) }
    // Promise: What is handed out are jobs that a file of at most 67,108,864 bytes spells and that fit the network, on the tree of its splits
    ensures handed { IfOk result (HandsOut (S.told shelf.old).files name.now (net_of net.now)) }
    // Promise: A file of jobs is told as too long only where it has more than 67,108,864 bytes, and is refused only where it spells no jobs, at
    //   its first faulty line, or where its jobs don't fit the network, at line 0
    ensures unhanded { IfErr result (IsUnhanded (net_of net.now) name.now (S.told shelf.old) (S.told shelf.new)) }
    // Promise: Under every status but 20 the count of faults of the shelf is as it was: a call of the shelf that failed is never told as want of
    //   memory (23) or as anything else
    ensures quiet { (result ≡ Err unhanded.Failed) ⊎ ((S.told shelf.new).faults ≡ (S.told shelf.old).faults) }
    ensures kept { Keeps (S.told shelf.old) (S.told shelf.new) }
{
    match shelf.read_all(alloc, name, MOST_JOBS) {
        Ok(bytes) => handed_out(alloc, net, &bytes),
        Err(fault) => Err(Unhanded::from(fault)),
    }
}

/// The jobs that bytes spell, which fit the network, with the tree that they are on.
fn handed_out(alloc: Global, net: &Network, bytes: &[u8]) -> Result<HandedOut, Unhanded>
    ensures handed { IfOk result (λ h. (j : Jobs) × SpellsJobs bytes.now j × Fits (net_of net.now) j × IsHandedOut (net_of net.now) j h) }
    ensures refused { IfErr result (IsRefusalOf (net_of net.now) bytes.now) }
{
    let text = read_jobs(alloc, bytes)?;
    let handed = tree_of_jobs(alloc, net, text)?;
    Ok(handed)
}
