//! Whether a tree goes on from another one, by their splits.

ghost use Rattle.std.specs.Prelude.{◌↔◌, IsTrue, map};
ghost use Rattle.box_space.specs.Views.{shown_split};
ghost use Rattle.gathered_run.specs.Gatherings.{BeginWith};

use box_space::Split;

/// Whether the splits begin with these.
pub(crate) fn begin_with(splits: &[Split], front: &[Split]) -> bool
    ensures { IsTrue result ↔ BeginWith (map shown_split splits.now) (map shown_split front.now) }
{
    splits.starts_with(front)
}
