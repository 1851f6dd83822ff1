//! Why there is no tree of some jobs.

ghost use Rattle.std.specs.Prelude.{◌≡◌};
ghost use Rattle.job_trees.specs.Faults.{of_entry};
ghost use Rattle.job_trees.specs.declared.fault.JobsFault.TheVariants as jobs_faults;

use box_tree::EntryFault;
use edge_io::Memory as NoMemory;

/// Why there is no tree of some jobs.
#[derive(Clone, Copy, Debug, PartialEq, Eq)]
pub enum JobsFault {
    /// They don't fit the network: the shape isn't its counts, a split isn't in order, there are more than 200,000 splits, the jobs aren't
    /// numbered from 0 in order, a job is on no leaf, or two are on the same one.
    Misfit,
    /// There was no memory for the tree.
    Memory,
}

impl From<EntryFault> for JobsFault {
    ghost from_gives = { λ f e. e ≡ of_entry f };

    fn from(fault: EntryFault) -> JobsFault {
        match fault {
            EntryFault::Memory => JobsFault::Memory,
            _ => JobsFault::Misfit,
        }
    }
}

impl From<NoMemory> for JobsFault {
    ghost from_gives = { λ _ e. e ≡ jobs_faults.Memory };

    fn from(_e: NoMemory) -> JobsFault {
        JobsFault::Memory
    }
}
