//! The certificate of a network: what a search finds that begins with the root alone.

ghost use Rattle.std.specs.Prelude.{IfOk};
ghost use Rattle.pool_model.specs.Network.{net_of};
ghost use Rattle.cert_format.specs.Cert.{IsCert};
ghost use Rattle.cert_format.specs.Views.{shown_cert};
ghost use Rattle.search_core.specs.Searches.{IsAsked};
ghost use Rattle.search_run.specs.Orders.{options_of};
ghost use Rattle.solve_command.specs.Solution.{IsSolution, status_of};

use blend_network::Network;
use box_tree::Tree;
use cert_format::Certificate;
use edge_io::Memory;
use recorded_run::run_search;
use search_core::Ended;
use search_run::Orders;
use std::alloc::Global;
use tree_certificate::certificate_of;

/// A certificate, and how the search ended that found it.
#[derive(Drop)]
pub struct Solution {
    pub certificate: Certificate,
    pub ended: Ended,
}

/// The certificate of what a search finds for these orders.
pub fn solution_of(alloc: Global, net: &Network, orders: Orders) -> Result<Solution, Memory>
    requires { IsAsked (options_of orders) }
    ensures solved { IfOk result (λ s. IsSolution (net_of net.now) orders (status_of s.ended) (shown_cert s.certificate)) }
    ensures certificate { IfOk result (λ s. IsCert (shown_cert s.certificate)) }
{
    let root = Tree::start(alloc, net)?;
    let outcome = run_search(alloc, net, orders, root)?;
    let ended = outcome.ended;
    let certificate = certificate_of(alloc, net, outcome.tree)?;
    Ok(Solution { certificate, ended })
}
