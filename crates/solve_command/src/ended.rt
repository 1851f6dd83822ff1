//! The status of a search that ended.

ghost use Rattle.std.specs.Prelude.{◌≡◌};
ghost use Rattle.solve_command.specs.Solution.{status_of};

use run_status::Status;
use search_core::Ended;

/// The status of a search that ended so.
pub fn ended_status(ended: Ended) -> Status
    ensures { result ≡ status_of ended }
{
    match ended {
        Ended::Closed => Status::Closed,
        Ended::Stopped => Status::Stopped,
        Ended::Stuck => Status::Stuck,
        Ended::Infeasible => Status::Infeasible,
        Ended::Undecided => Status::Undecided,
    }
}
