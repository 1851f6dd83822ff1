//! The network of the rows of a file.

ghost use Rattle.std.specs.Prelude.{◌≡◌, IfOk, OnOk, IfErr};
ghost use Rattle.pool_model.specs.Rows.{IsRectangular};
ghost use Rattle.pool_model.specs.Naming.{network_of};
ghost use Rattle.network_parts.specs.Parts.{rows_of};
ghost use Rattle.network_parts.specs.Faults.{IsFaultless};
ghost use Rattle.network_parts.specs.FirstFault.{IsFirstFault};

use crate::checks::checked_arcs;
use blend_network::Network;
use network_parts::{NetFault, Parts};
use std::alloc::Global;

/// The network of these rows, where absent maxima of sources and pools become the sum of the product maxima, or the
/// first fault of the rows. The rows are consumed, on a refusal too.
pub fn build_network(alloc: Global, parts: Parts) -> Result<Network, NetFault>
    requires { IsRectangular (rows_of parts) }
    // Promise: A network is the network of the rows that it was built from
    ensures network { IfOk result (λ n. n ≡ network_of (rows_of parts)) }
    // Promise: The rows that a network was built from have no fault
    ensures faultless { OnOk result (IsFaultless (rows_of parts)) }
    // Promise: Of rows that make no network the first fault is answered, with its values
    ensures fault { IfErr result (IsFirstFault (rows_of parts)) }
{
    let arcs = checked_arcs(alloc, &parts)?;
    Ok(Network::assemble(alloc, parts, arcs)?)
}
