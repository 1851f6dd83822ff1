//! What the known rules pick, and where they cut once they are stored.

ghost use Rattle.std.specs.Prelude.{◌≡◌};
ghost use Rattle.branching.specs.Rows.{HasOpen, IsRow};
ghost use Rattle.branching.specs.Known.{IsFirstGreatest, IsFirstOpen, IsLessMissed, IsNarrower};

use box_space::Split;
use branching::{CoordRow, CutRule, LeafView, fewest, first_open, most_violated, widest};
use std::alloc::{AllocError, Global};
use std::test::Fail;

/// The row of a coordinate with so many splits on it, that has this width here and in the root box, and is missed by so much.
fn row(coord: u32, cuts: u32, width: u32, root: u32, miss: u64) -> CoordRow
    ensures row { IsRow result }
    ensures coord { result.coord ≡ coord }
{
    CoordRow {
        coord,
        cuts,
        low: 0,
        high: width.into(),
        root_width: i64::from(root.max(width)),
        miss,
    }
}

/// The width of four coordinates, that in the root box, and by how much each is missed.
type Table = [[u32; 3]; 4];

/// The view of a node whose coordinates, by number, are as the table says, with so many splits on each.
fn view(alloc: Global, table: &Table, cuts: &[u32; 4]) -> Result<LeafView, AllocError> {
    let mut rows = Vec::new(alloc);
    let mut coord = 0u32;
    for [width, root, miss] in table {
        let cuts = cuts[coord as usize];
        rows.push(row(coord, cuts, *width, *root, (*miss).into()))?;
        coord += 1;
    }
    Ok(LeafView::new(0, rows))
}

/// Where three rules cut once they are stored, each in a closure: at the first open row, the widest, and the most violated.
fn stored(alloc: Global, view: &LeafView) -> Result<[Split; 3], AllocError>
    requires { HasOpen view.now.rows }
{
    let first = CutRule::new(Box::new(
        alloc,
        |view: &LeafView| -> usize
            requires { HasOpen view.now.rows }
            ensures { IsFirstOpen view.now.rows result }
        { first_open(view) },
    )?);
    let broadest = CutRule::new(Box::new(
        alloc,
        |view: &LeafView| -> usize
            requires { HasOpen view.now.rows }
            ensures { IsFirstGreatest IsNarrower view.now.rows result }
        { widest(view) },
    )?);
    let missed = CutRule::new(Box::new(
        alloc,
        |view: &LeafView| -> usize
            requires { HasOpen view.now.rows }
            ensures { IsFirstGreatest IsLessMissed view.now.rows result }
        { most_violated(view) },
    )?);
    Ok([first.pick(view), broadest.pick(view), missed.pick(view)])
}

/// The coordinates at which they cut, with the cuts, and the row of the fewest of these splits. Nothing where no row is open.
fn picks(alloc: Global, table: &Table, cuts: &[u32; 4]) -> Result<String, AllocError> {
    let view = view(alloc, table, cuts)?;
    if !view.has_open() {
        return Ok(String::new(alloc));
    }
    let [first, broadest, missed] = stored(alloc, &view)?.map(|split| (split.coord, split.cut));
    format!(in alloc; "{first:?} {broadest:?} {missed:?} {}", fewest(&view))
}

/// The coordinates of some nodes.
fn table(name: &str) -> Table {
    let whole = 1_048_576;
    match name {
        // two proportions and a flow over their root box, of which the second and the third are missed most, and a closed row
        "root" => [
            [whole, whole, 0],
            [whole, whole, 7],
            [100_000_000, 100_000_000, 7],
            [0, 1, 9],
        ],
        // 1/1 closed, 2/5 open, 4/10 open, 3/4 open
        "leaf" => [[1, 1, 9], [2, 5, 1], [4, 10, 2], [3, 4, 2]],
        // two proportions, a quality that the form does not cut, and a flow
        "uncut" => [
            [whole, whole, 0],
            [whole, whole, 0],
            [0, 2_000_000, 0],
            [100_000_000, 100_000_000, 0],
        ],
        _ => [[1, 1, 9], [1, 5, 1], [0, 10, 2], [1, 4, 2]],
    }
}

#[test]
fn the_rules_pick_their_rows(rt: HostRuntime) -> Result<(), Fail> {
    let cases: [(&str, [u32; 4], &str); 6] = [
        ("root", [0; 4], "(0, 524288) (0, 524288) (1, 524288) 0"),
        ("leaf", [0; 4], "(1, 1) (3, 1) (2, 2) 1"),
        ("closed", [0; 4], ""),
        (
            "uncut",
            [1, 0, 0, 0],
            "(0, 524288) (0, 524288) (0, 524288) 1",
        ),
        (
            "uncut",
            [1, 1, 0, 0],
            "(0, 524288) (0, 524288) (0, 524288) 3",
        ),
        (
            "uncut",
            [2, 1, 0, 1],
            "(0, 524288) (0, 524288) (0, 524288) 1",
        ),
    ];
    for (name, cuts, expected) in cases {
        let picked = picks(rt.alloc(), &table(name), &cuts)?;
        assert_eq!(rt; picked.as_str(), expected, "{name}");
    }
    Ok(())
}
