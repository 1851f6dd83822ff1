//! How `gather` ended.

ghost use Rattle.std.specs.Prelude.{◌≡◌};
ghost use Rattle.gather_command.specs.GatherEnds.{gather_status, ungathered_status, unsaid_status};
ghost use Rattle.gather_command.specs.declared.outcome.GatherOutcome.TheVariants as outcomes;

use gathered_run::GatherFault;
use job_commands::Unhanded;
use journal_status::run_status_of;
use run_status::{Status, Unread};
use shelf_calls::ShelfFault;

/// How `gather` ended.
#[derive(Debug, Drop)]
pub enum GatherOutcome {
    /// What came of all answers was written.
    Done,
    /// No network was read.
    Unread(Unread),
    /// No jobs were handed out.
    Unhanded(Unhanded),
    /// A file of answers was not read.
    Unsaid(ShelfFault),
    /// Nothing is answered of the gathering.
    Ungathered(GatherFault),
    /// The sink failed.
    WriteFault,
}

impl From<GatherOutcome> for Status {
    ghost from_gives = { λ outcome status. status ≡ gather_status outcome };

    fn from(outcome: GatherOutcome) -> Status {
        match outcome {
            GatherOutcome::Done => Status::Done,
            GatherOutcome::Unread(why) => Status::from(why),
            GatherOutcome::Unhanded(why) => Status::from(why),
            GatherOutcome::Unsaid(fault) => unsaid(fault),
            GatherOutcome::Ungathered(fault) => ungathered(fault),
            GatherOutcome::WriteFault => Status::WriteFault,
        }
    }
}

impl From<Unread> for GatherOutcome {
    ghost from_gives = { λ why outcome. outcome ≡ outcomes.Unread why };

    fn from(why: Unread) -> GatherOutcome {
        GatherOutcome::Unread(why)
    }
}

impl From<Unhanded> for GatherOutcome {
    ghost from_gives = { λ why outcome. outcome ≡ outcomes.Unhanded why };

    fn from(why: Unhanded) -> GatherOutcome {
        GatherOutcome::Unhanded(why)
    }
}

impl From<ShelfFault> for GatherOutcome {
    ghost from_gives = { λ fault outcome. outcome ≡ outcomes.Unsaid fault };

    fn from(fault: ShelfFault) -> GatherOutcome {
        GatherOutcome::Unsaid(fault)
    }
}

/// The status where a file of answers is not read.
fn unsaid(fault: ShelfFault) -> Status
    // Promise: Of what a shelf may say of an ANSWERS file want of memory alone is made 23: a failure is made 20, and too many bytes 5
    ensures { result ≡ unsaid_status fault }
{
    match fault {
        ShelfFault::Failed => Status::ReadFault,
        ShelfFault::TooLong => Status::CertTooLong,
        ShelfFault::Memory => Status::OutOfMemory,
    }
}

/// The status where nothing is gathered.
fn ungathered(fault: GatherFault) -> Status
    ensures { result ≡ ungathered_status fault }
{
    match fault {
        GatherFault::Run(fault) => run_status_of(fault),
        GatherFault::OtherTree => Status::OtherTree,
    }
}
