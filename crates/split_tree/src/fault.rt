//! Why a split can't come next.

ghost use Rattle.std.specs.Prelude.{List};
ghost use Rattle.pool_model.specs.Network.{Net};
ghost use Rattle.row_model.specs.Trees.{Split};
ghost use Rattle.split_tree.specs.Faults.{rank as fault_rank, Holds as IsThere};

use faults::Ranked;

/// Why a split can't come next: the first cause in this order.
#[derive(Clone, Copy, Debug, PartialEq, Eq)]
pub enum SplitFault {
    /// Its node is none of the tree, or is cut already.
    NotALeaf,
    /// Its coordinate is not below the number of coordinates.
    BadCoord,
    /// The cut is not strictly inside the leaf's box.
    CutOutside,
    /// There are as many splits as there may be.
    TooManySplits,
}

impl Ranked for SplitFault {
    ghost rank = { fault_rank };

    ghost Subject = { Net × List Split × Split };

    ghost Holds = { λ s. IsThere s.0 s.1 s.2 };
}
