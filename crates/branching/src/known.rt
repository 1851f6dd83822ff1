//! The known rules.

ghost use Rattle.std.specs.Prelude.{◌≡◌, ◌↔◌, IsTrue, ◌*ℤ◌};
ghost use Rattle.branching.specs.Rows.{HasOpen, IsOpen, IsRow};
ghost use Rattle.branching.specs.Known.{IsFirstGreatest, IsFirstOpen, IsLessMissed, IsMoreCut, IsNarrower};

use crate::view::{CoordRow, LeafView};

/// The first open row.
pub fn first_open(view: &LeafView) -> usize
    requires { HasOpen view.now.rows }
    // Promise: The known rules pick the first open, the first of the widest, the first of the most missed row, and the first of those
    //   with the fewest splits on their coordinate
    ensures { IsFirstOpen view.now.rows result }
{
    let rows = view.rows();
    for (place, row) in rows.iter().enumerate() {
        if row.is_open() {
            return place;
        }
    }
    unreachable!()
}

/// The open row that is the widest, measured by its width in the root box: the first of the widest.
pub fn widest(view: &LeafView) -> usize
    requires { HasOpen view.now.rows }
    // Promise: The known rules pick the first open, the first of the widest, the first of the most missed row, and the first of those
    //   with the fewest splits on their coordinate
    ensures { IsFirstGreatest IsNarrower view.now.rows result }
{
    let rows = view.rows();
    let mut best = first_open(view);
    for (place, row) in rows.iter().enumerate() {
        if row.is_open() && is_narrower(&rows[best], row) {
            best = place;
        }
    }
    best
}

/// Whether a row is narrower than another, each measured by its width in the root box.
fn is_narrower(row: &CoordRow, other: &CoordRow) -> bool
    requires row { IsRow row.now }
    requires other { IsRow other.now }
    ensures { IsTrue result ↔ IsNarrower row.now other.now }
{
    product(row.width(), other.root_width) < product(other.width(), row.root_width)
}

/// The open row of the greatest `miss`: the first of the greatest.
pub fn most_violated(view: &LeafView) -> usize
    requires { HasOpen view.now.rows }
    // Promise: The known rules pick the first open, the first of the widest, the first of the most missed row, and the first of those
    //   with the fewest splits on their coordinate
    ensures { IsFirstGreatest IsLessMissed view.now.rows result }
{
    let rows = view.rows();
    let mut best = first_open(view);
    for (place, row) in rows.iter().enumerate() {
        if row.is_open() && rows[best].miss < row.miss {
            best = place;
        }
    }
    best
}

/// The open row with the fewest splits on its coordinate: the first of the fewest.
pub fn fewest(view: &LeafView) -> usize
    requires { HasOpen view.now.rows }
    // Promise: The known rules pick the first open, the first of the widest, the first of the most missed row, and the first of those
    //   with the fewest splits on their coordinate
    ensures { IsFirstGreatest IsMoreCut view.now.rows result }
{
    let rows = view.rows();
    let mut best = first_open(view);
    for (place, row) in rows.iter().enumerate() {
        if row.is_open() && row.cuts < rows[best].cuts {
            best = place;
        }
    }
    best
}

fn product(width: i64, root_width: i64) -> i128
    ensures { result ≡ width *ℤ root_width }
{
    i128::from(width) * i128::from(root_width)
}
