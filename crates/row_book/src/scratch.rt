//! The memory that a proof's number is made in.

ghost use Rattle.std.specs.Prelude.{IfOk};
ghost use Rattle.pool_model.specs.Network.{net_of};
ghost use Rattle.row_book.specs.Fitting.{Fits};

use blend_network::Network;
use box_space::{LinRow, vars};
use edge_io::Memory;
use std::alloc::Global;

/// A row, and a number for each variable of a network. The numbers are 0 between calls.
#[derive(Drop)]
pub struct Scratch {
    pub(crate) rests: Vec<i128>,
    pub(crate) row: LinRow,
}

impl Scratch {
    /// A scratch that fits the network.
    pub fn new(alloc: Global, net: &Network) -> Result<Scratch, Memory>
        ensures { IfOk result (Fits (net_of net.now)) }
    {
        let rests = vec![in alloc; 0; vars(net) as usize]?;
        let row = LinRow::new(alloc)?;
        Ok(Scratch { rests, row })
    }
}
