//! The command `solve`.

ghost use Rattle.std.specs.Prelude.{◌≡◌, ◌≢◌, ◌⊎◌, ℕ, List, Option, None, Some, IsTrue, IfOk, IfErr, IsErrOf, option_map, string_bytes};
ghost use Rattle.edge_io.specs.Counts.{Rose};
ghost use Rattle.edge_io.specs.Writing.{behind};
ghost use Rattle.pool_model.specs.Network.{net_of};
ghost use Rattle.cert_format.specs.Cert.{IsCert};
ghost use Rattle.cert_format.specs.Views.{shown_cert};
ghost use Rattle.cert_format.specs.Text.{text_of};
ghost use Rattle.cli_words.specs.Requests.{Solving};
ghost use Rattle.cli_words.specs.Views.{shown_solving};
ghost use Rattle.network_text.specs.Canonical.{canonical_text};
ghost use Rattle.journal_format.specs.declared.fault.JournalFault.TheVariants as journal_faults;
ghost use Rattle.journal_status.specs.JournalEnds.{fault_status};
ghost use Rattle.search_core.specs.Searches.{IsAsked};
ghost use Rattle.search_run.specs.Orders.{options_of};
ghost use Rattle.solve_command.specs.Gaps.{IsGapAsked};
ghost use Rattle.solve_command.specs.Journaled.{Journaled};
ghost use Rattle.run_status.specs.Reads.{Files, ReadsUnder};
ghost use Rattle.solve_command.specs.Recorded.{IsBegun, IsOpened};
ghost use Rattle.solve_command.specs.Solution.{status_of};
ghost use Rattle.solve_command.specs.SolveEnds.{EndsWith, IsEnded, IsHeldUp, SolveEnds, SolvesAs, WantUnder, solve_status};
ghost use Rattle.run_status.specs.Took.{Took};

use crate::budget::orders_within;
use crate::ended::ended_status;
use crate::recorded::recorded_solution;
use crate::solution::{Solution, solution_of};
use blend_network::Network;
use cert_format::write_cert;
use cli_words::SolveWords;
use disk_calls::Disk;
use edge_io::Sink;
use journal_status::run_status_of;
use recorded_run::RunFault;
use run_status::{Status, Unread, network_under};
use search_core::Ended;
use search_run::Orders;
use shelf_calls::Shelf;
use std::alloc::Global;

/// How `solve` ended.
#[derive(Debug, Drop)]
pub enum SolveOutcome {
    /// A certificate was printed, and so the search ended.
    Ended(Ended),
    /// More splits are asked for than there may be for this network.
    OverBudget,
    /// No network was read.
    Unread(Unread),
    /// The search gives no answer.
    Unsolved(RunFault),
    /// The sink failed.
    WriteFault,
}

impl From<SolveOutcome> for Status {
    ghost from_gives = { λ outcome status. status ≡ solve_status outcome };

    fn from(outcome: SolveOutcome) -> Status {
        match outcome {
            SolveOutcome::Ended(ended) => ended_status(ended),
            SolveOutcome::OverBudget => Status::BudgetTooLarge,
            SolveOutcome::Unread(why) => Status::from(why),
            SolveOutcome::Unsolved(fault) => run_status_of(fault),
            SolveOutcome::WriteFault => Status::WriteFault,
        }
    }
}

/// Solves the network in the file that the words name, with the journal that they name, if any.
pub fn solve<S: Shelf, K: Sink, D: Disk>(
    alloc: Global,
    words: &SolveWords,
    shelf: &mut S,
    out: &mut K,
    disk: &mut D,
) -> SolveOutcome
    requires admits { IsTrue ((S.told shelf.old).admits (string_bytes words.now.net)) }
    requires journal { (file : List ℕ) → (shown_solving words.now).journal ≡ Some file → IsTrue ((D.told disk.old).admits file) }
    requires gap { IsGapAsked words.now.gap }
    ensures took { Took (SolvesAs (S.told shelf.old).files (shown_solving words.now)) (solve_status result) (K.taken out.old) (K.taken out.new) }
    ensures ends { SolveEnds (S.told shelf.old).files (shown_solving words.now) (S.told shelf.old).taken (S.told shelf.new).taken (solve_status result) }
    ensures journal { (file : List ℕ) → (shown_solving words.now).journal ≡ Some file → IsTrue (D.told disk.old).tells →
        Journaled (S.told shelf.old).files (shown_solving words.now) (D.told disk.old) (D.told disk.new)
        (solve_status result) (λ c. K.taken out.new ≡ behind (K.taken out.old) (text_of c)) }
    ensures apart { (shown_solving words.now).journal ≡ None → disk.new ≡ disk.old }
    ensures read_fault { solve_status result ≡ Status.ReadFault → Rose (S.told shelf.old).faults (S.told shelf.new).faults }
    // Promise: Under every status but 20 the count of faults of the shelf is as it was: a call of the shelf that failed is never told as want of
    //   memory (23) or as anything else
    ensures quiet { (solve_status result ≡ Status.ReadFault) ⊎ ((S.told shelf.new).faults ≡ (S.told shelf.old).faults) }
    ensures write_fault { solve_status result ≡ Status.WriteFault → Rose (K.faults out.old) (K.faults out.new) }
    ensures disk_fault { solve_status result ≡ Status.DiskFault → Rose (D.told disk.old).faults (D.told disk.new).faults }
    // Promise: 23 of `solve` comes where the network is to be read, or of the search of one that was read, with its journal, within the
    //   budget: a budget that is too large (4) is never told as want of memory
    ensures memory { solve_status result ≡ Status.OutOfMemory → (result ≡ SolveOutcome.Unread Unread.Memory) ⊎ WantUnder (S.told shelf.old).files (shown_solving words.now) result }
{
    match network_under(alloc, words.net.as_str(), shelf) {
        Ok(net) => solve_network(alloc, &net, words, out, disk),
        Err(why) => SolveOutcome::Unread(why),
    }
}

/// Solves a network that was read.
fn solve_network<K: Sink, D: Disk>(
    alloc: Global,
    net: &Network,
    words: &SolveWords,
    out: &mut K,
    disk: &mut D,
) -> SolveOutcome
    requires gap { IsGapAsked words.now.gap }
    requires journal { (file : List ℕ) → (shown_solving words.now).journal ≡ Some file → IsTrue ((D.told disk.old).admits file) }
    ensures took { (files : Option Files) → ReadsUnder files (string_bytes words.now.net) net.now
        → Took (SolvesAs files (shown_solving words.now)) (solve_status result) (K.taken out.old) (K.taken out.new) }
    ensures ends { (files : Option Files) (before after : ℕ) → ReadsUnder files (string_bytes words.now.net) net.now → SolveEnds files (shown_solving words.now) before after (solve_status result) }
    ensures journal { (files : Option Files) (file : List ℕ) → ReadsUnder files (string_bytes words.now.net) net.now → (shown_solving words.now).journal ≡ Some file → IsTrue (D.told disk.old).tells →
        Journaled files (shown_solving words.now) (D.told disk.old) (D.told disk.new)
        (solve_status result) (λ c. K.taken out.new ≡ behind (K.taken out.old) (text_of c)) }
    ensures apart { (shown_solving words.now).journal ≡ None → disk.new ≡ disk.old }
    ensures read { solve_status result ≢ Status.ReadFault }
    ensures write_fault { solve_status result ≡ Status.WriteFault → Rose (K.faults out.old) (K.faults out.new) }
    ensures disk_fault { solve_status result ≡ Status.DiskFault → Rose (D.told disk.old).faults (D.told disk.new).faults }
    ensures memory { (files : Option Files) → ReadsUnder files (string_bytes words.now.net) net.now → solve_status result ≡ Status.OutOfMemory
        → WantUnder files (shown_solving words.now) result }
{
    let Some(orders) = orders_within(net, words) else {
        return SolveOutcome::OverBudget;
    };
    match solution_for(alloc, net, orders, &words.journal, disk) {
        Ok(solution) => print(&solution, out),
        Err(fault) => SolveOutcome::Unsolved(fault),
    }
}

/// The certificate of what a search finds for these orders, with the journal of this name or without one.
fn solution_for<D: Disk>(
    alloc: Global,
    net: &Network,
    orders: Orders,
    journal: &Option<String>,
    disk: &mut D,
) -> Result<Solution, RunFault>
    requires journal { (file : List ℕ) → option_map string_bytes journal.now ≡ Some file → IsTrue ((D.told disk.old).admits file) }
    requires asked { IsAsked (options_of orders) }
    ensures solved { IfOk result (IsBegun (net_of net.now) orders (option_map string_bytes journal.now)) }
    ensures certificate { IfOk result (λ s. IsCert (shown_cert s.certificate)) }
    ensures unsolved { IfErr result (λ fault. IsHeldUp (option_map string_bytes journal.now) (fault_status fault)) }
    ensures journal { (file : List ℕ) → option_map string_bytes journal.now ≡ Some file → IsTrue (D.told disk.old).tells → IsOpened (net_of net.now) (canonical_text net.now) orders
        (D.told disk.old) (D.told disk.new) result }
    ensures apart { option_map string_bytes journal.now ≡ None → disk.new ≡ disk.old }
    ensures failed { IsErrOf result (RunFault.Journal journal_faults.Disk) → Rose (D.told disk.old).faults (D.told disk.new).faults }
{
    match journal {
        Some(name) => recorded_solution(alloc, net, orders, name.as_str(), disk),
        None => Ok(solution_of(alloc, net, orders)?),
    }
}

/// Writes the certificate of a solution.
fn print<K: Sink>(solution: &Solution, out: &mut K) -> SolveOutcome
    requires { IsCert (shown_cert solution.now.certificate) }
    ensures took { (files : Option Files) (s : Solving) → SolvesAs files s (status_of solution.now.ended) (text_of (shown_cert solution.now.certificate))
        → Took (SolvesAs files s) (solve_status result) (K.taken out.old) (K.taken out.new) }
    ensures ended { EndsWith (status_of solution.now.ended) (solve_status result) }
    ensures whole { IsEnded (solve_status result) → K.taken out.new ≡ behind (K.taken out.old) (text_of (shown_cert solution.now.certificate)) }
    ensures write_fault { solve_status result ≡ Status.WriteFault → Rose (K.faults out.old) (K.faults out.new) }
{
    match write_cert(&solution.certificate, out) {
        Err(_) => SolveOutcome::WriteFault,
        Ok(()) => SolveOutcome::Ended(solution.ended),
    }
}
