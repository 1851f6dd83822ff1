//! Networks made from a number, for trials: the same number makes the same network on every machine.
//!
//! [`make_network`] draws the numbers of a network, one after another, from a seed: ten sources, three pools and six products
//! with two qualities. Each source feeds two of the three pools, each pool sends to each product, and six sources send to a product
//! each. Arcs cost nothing and have no maximum, and pools remove nothing, so a file of version 1 can say the network. `drawn_numbers`
//! says which numbers are drawn, and `specs/Generated.antt` which network they make.
//!
//! The layer above may use `make_network`. It has no reason to fail but want of memory: the rows of a made network have no fault,
//! whatever the seed. How a network is written as text is left to the crates above.
#![tactic(auto)]

mod laws;
mod rows;

ghost use Rattle.std.specs.Prelude.{◌≡◌, IfOk};
ghost use Rattle.network_maker.specs.Generated.{generated};

use crate::rows::rows;
use blend_network::{NetFault, Network};
use edge_io::Memory;
pub use laws::{generated_law, worked_draws};
use network_checks::build_network;
use std::alloc::Global;

/// The network that this number makes.
pub fn make_network(alloc: Global, seed: u64) -> Result<Network, Memory>
    // Promise: The network that a number makes is the generator's, whatever the number
    // Promise: The network of a number is the definition's: arithmetic on 64 bits
    ensures network { IfOk result (λ n. n ≡ generated seed) }
{
    match build_network(alloc, rows(alloc, seed)?) {
        Ok(network) => Ok(network),
        Err(fault) => match fault {
            NetFault::Memory => Err(Memory),
            _ => unreachable!(),
        },
    }
}
