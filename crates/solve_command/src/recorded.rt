//! The certificate of a network, found by a search whose entries stand in a journal.

ghost use Rattle.std.specs.Prelude.{Some, IsTrue, IfOk, IsErrOf};
ghost use Rattle.edge_io.specs.Counts.{Rose};
ghost use Rattle.pool_model.specs.Network.{net_of};
ghost use Rattle.cert_format.specs.Cert.{IsCert};
ghost use Rattle.cert_format.specs.Views.{shown_cert};
ghost use Rattle.network_text.specs.Canonical.{canonical_text};
ghost use Rattle.journal_format.specs.declared.fault.JournalFault.TheVariants as journal_faults;
ghost use Rattle.search_core.specs.Searches.{IsAsked};
ghost use Rattle.search_run.specs.Orders.{options_of};
ghost use Rattle.solve_command.specs.Recorded.{IsBegun, IsOpened};

use crate::solution::Solution;
use blend_network::Network;
use disk_calls::Disk;
use network_text::write_canonical;
use recorded_run::{RunFault, run_recorded};
use search_run::Orders;
use std::alloc::Global;
use tree_certificate::certificate_of;

/// The certificate of what a search finds for these orders, which goes on from the entries in the journal of this name, and records
/// each entry there before it is taken.
pub(crate) fn recorded_solution<D: Disk>(
    alloc: Global,
    net: &Network,
    orders: Orders,
    journal: &str,
    disk: &mut D,
) -> Result<Solution, RunFault>
    requires admits { IsTrue ((D.told disk.old).admits journal.now) }
    requires asked { IsAsked (options_of orders) }
    ensures solved { IfOk result (IsBegun (net_of net.now) orders (Some journal.now)) }
    ensures certificate { IfOk result (λ s. IsCert (shown_cert s.certificate)) }
    ensures journal { IsTrue (D.told disk.old).tells → IsOpened (net_of net.now) (canonical_text net.now) orders (D.told disk.old) (D.told disk.new) result }
    ensures failed { IsErrOf result (RunFault.Journal journal_faults.Disk) → Rose (D.told disk.old).faults (D.told disk.new).faults }
{
    let text = write_canonical(alloc, net)?;
    disk.attach(journal)?;
    let outcome = run_recorded(alloc, net, &text, orders, disk)?;
    let ended = outcome.ended;
    let certificate = certificate_of(alloc, net, outcome.tree)?;
    Ok(Solution { certificate, ended })
}
