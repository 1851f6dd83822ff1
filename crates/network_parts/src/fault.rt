//! Why the rows of a file are no network.

ghost use Rattle.std.specs.Prelude.{◌≡◌};
ghost use Rattle.pool_model.specs.Rows.{Rows};
ghost use Rattle.network_parts.specs.FirstFault.{rank as fault_rank, Holds as IsThere};
ghost use Rattle.network_parts.specs.declared.fault.NetFault.TheVariants.{Memory};

use faults::Ranked;
use std::alloc::{AllocError, AllocFailed};

/// What a row, a name or a fault is about.
#[derive(Clone, Copy, Debug, PartialEq, Eq)]
pub enum Kind {
    Source,
    Pool,
    Product,
    Quality,
    Arc,
}

/// Why the rows of a file are no network. Of several reasons the one that stands first here is told; of several of one
/// kind that with the earlier kind of row (sources, pools, products, qualities, arcs), and then the one of the least
/// number. Numbers are those of the row in its list, from 0.
#[derive(Clone, Copy, Debug, PartialEq, Eq)]
pub enum NetFault {
    /// There are more rows of the kind than there may be: 64 sources, 16 pools, 64 products, 8 qualities, 256 arcs.
    TooMany(Kind),
    /// The name of the row isn't 1 to 40 bytes, each from a space to `~`.
    BadName(Kind, u32),
    /// The row has the name of an earlier one. Sources, pools and products share their names, in this order.
    DuplicateName(Kind, u32),
    /// An end of the arc is the name of no source, pool or product.
    UnknownName(u32),
    /// The arc starts at a product or ends at a source.
    ArcBackwards(u32),
    /// The arc goes from a pool to a pool.
    PoolToPool(u32),
    /// An earlier arc has the same two ends.
    DuplicateArc(u32),
    /// No arc goes from a source to the pool.
    PoolWithoutInput(u32),
    /// No arc goes from the pool to a product.
    PoolWithoutOutput(u32),
    /// There are more than 512 paths from a source through a pool to a product.
    TooManyPaths,
    /// A number of the row is outside its range.
    OutOfRange(Kind, u32),
    /// The product's minimum is above its maximum, or a least limit above the most limit of the same quality.
    LeastAboveMost(u32),
    /// There was not enough memory. This may come before any other.
    Memory,
}

impl Ranked for NetFault {
    ghost rank = { fault_rank };

    ghost Subject = { Rows };

    ghost Holds = { IsThere };
}

impl NetFault {
    ghost use Rattle.network_parts.specs.FirstFault.{number};

    /// The number of the cause, as messages tell it: 1 for the first.
    pub fn number(&self) -> u32
        ensures { result ≡ number self.now }
    {
        match self {
            NetFault::TooMany(_) => 1,
            NetFault::BadName(_, _) => 2,
            NetFault::DuplicateName(_, _) => 3,
            NetFault::UnknownName(_) => 4,
            NetFault::ArcBackwards(_) => 5,
            NetFault::PoolToPool(_) => 6,
            NetFault::DuplicateArc(_) => 7,
            NetFault::PoolWithoutInput(_) => 8,
            NetFault::PoolWithoutOutput(_) => 9,
            NetFault::TooManyPaths => 10,
            NetFault::OutOfRange(_, _) => 11,
            NetFault::LeastAboveMost(_) => 12,
            NetFault::Memory => 13,
        }
    }
}

impl From<AllocError> for NetFault {
    ghost from_gives = { λ _ fault. fault ≡ Memory };

    fn from(_error: AllocError) -> NetFault {
        NetFault::Memory
    }
}

impl<T: Drop> From<AllocFailed<T>> for NetFault {
    ghost from_gives = { λ _ fault. fault ≡ Memory };

    fn from(_error: AllocFailed<T>) -> NetFault {
        NetFault::Memory
    }
}
