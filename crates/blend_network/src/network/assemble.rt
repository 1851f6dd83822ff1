//! From the rows of a file that were checked to a network.

ghost use Rattle.std.specs.Prelude.{◌≡◌, IfOk};
ghost use Rattle.pool_model.specs.Rows.{IsRectangular};
ghost use Rattle.pool_model.specs.Naming.{network_of};
ghost use Rattle.network_parts.specs.Parts.{rows_of};
ghost use Rattle.network_parts.specs.Ready.{IsReady};

use super::Network;
use super::index::index_of;
use super::limits::{Limits, limits_from};
use super::narrow::{pools_from, products_from, sources_from, stand_in};
use super::treatment::scale_of;
use crate::limits::LimitSide;
use network_parts::{Arcs, Parts};
use std::alloc::{AllocError, Global};

impl Network {
    /// The network of rows that passed the checks, and of their arcs; absent maxima of sources and pools become the sum of the
    /// product maxima.
    pub fn assemble(alloc: Global, parts: Parts, arcs: Arcs) -> Result<Network, AllocError>
        requires rectangular { IsRectangular (rows_of parts) }
        requires checked { IsReady (rows_of parts) arcs }
        ensures { IfOk result (λ n. n ≡ network_of (rows_of parts)) }
    {
        let stand_in = stand_in(&parts.products);
        let index = index_of(alloc, &parts, &arcs)?;
        let Parts {
            qualities,
            sources,
            pools,
            products,
            arcs: _,
        } = parts;
        let products = products_from(alloc, products)?;
        let limits = Limits {
            most: limits_from(alloc, &products, LimitSide::Most)?,
            least: limits_from(alloc, &products, LimitSide::Least)?,
        };
        let pools = pools_from(alloc, pools, stand_in)?;
        Ok(Network {
            qualities,
            sources: sources_from(alloc, sources, stand_in)?,
            scale: scale_of(&pools),
            pools,
            products,
            feeds: arcs.feeds,
            outs: arcs.outs,
            directs: arcs.directs,
            paths: arcs.paths,
            index,
            limits,
        })
    }
}
