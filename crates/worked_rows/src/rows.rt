//! Every row of two networks against rows that are written out by hand, and how many rows there are.
//!
//! Of Haverly's network the variables are x 0 and 1, y 2 and 3, z 4 and 5, w 6 to 9, proportions 10 and 11, the pool's quality
//! 12, and quality times flow 13 and 14. Of the network of two pools they are x 0 to 2, y 3 to 5, z 6 and 7, w 8 to 12,
//! proportions 13 to 15, qualities 16 to 19, and quality times flow 20 to 25.

ghost use Rattle.std.specs.Prelude.{◌≡◌, IfOk};
ghost use Rattle.pool_model.specs.Network.{Net, net_of};
ghost use Rattle.box_space.specs.Views.{AreEnds, IsView};

use crate::expected_rows::{
    FLOWS, FURTHER, HAVERLY, PATHS, PROPORTION_SIDES, QUALITY_SIDES, SMALLER_PROPORTION_SIDES,
    SMALLER_QUALITY_SIDES,
};
use blend_network::Network;
use box_space::{BoxEnds, BoxView, Form, LinRow, RowKind, root_box};
use edge_io::Memory;
use row_book::{in_form, row_at, rows};
use std::alloc::{AllocError, Global};
use std::test::Fail;
use worked_networks::{AS_TRIALS, HAVERLY_1, TWO_POOLS, network};

/// The rows of a box, a line each.
fn rows_text(alloc: Global, net: &Network, v: &BoxView) -> Result<String, Memory>
    requires { IsView (net_of net.now) v.now }
{
    let mut row = LinRow::new(alloc)?;
    let mut text = String::new(alloc);
    for id in 0..rows(net) {
        let kind = row_at(net, v, id, &mut row);
        add_row(alloc, &mut text, kind, &row)?;
    }
    Ok(text)
}

/// Adds the line of a row.
fn add_row(
    alloc: Global,
    text: &mut String,
    kind: RowKind,
    row: &LinRow,
) -> Result<(), AllocError> {
    text.push_str(match kind {
        RowKind::AtLeast => "ge",
        RowKind::Equal => "eq",
    })?;
    add_number(alloc, text, row.constant())?;
    for term in row.terms() {
        add_number(alloc, text, term.var.into())?;
        add_number(alloc, text, term.coef)?;
    }
    text.push_str("\n")
}

/// Adds a space and a number.
fn add_number(alloc: Global, text: &mut String, number: i128) -> Result<(), AllocError> {
    text.push_str(format!(in alloc; " {number}")?.as_str())
}

/// Whether a text is these parts, one after another.
fn is_made_of(text: &str, parts: &[&str]) -> bool {
    let mut rest = text;
    for part in parts {
        match rest.strip_prefix(*part) {
            Some(behind) => rest = behind,
            None => return false,
        }
    }
    rest.is_empty()
}

/// The ends of a smaller box of the network of two pools: proportions, qualities and flows.
const SMALLER: [(i64, i64); 10] = [
    (262_144, 786_432),
    (524_288, 1_048_576),
    (100, 524_288),
    (1_200_000, 2_500_000),
    (600_000, 800_000),
    (1_000_000, 1_000_000),
    (500_000, 500_000),
    (10_000_000, 90_000_000),
    (1, 69_999_999),
    (20_000_000, 150_000_000),
];

/// The root box with these ends, coordinate by coordinate.
fn box_between(alloc: Global, net: &Network, ends: &[(i64, i64)]) -> Result<BoxEnds, Memory>
    ensures { IfOk result (λ b. AreEnds (net_of net.now) b) }
{
    let mut b = root_box(alloc, net)?;
    let mut coord: usize = 0;
    for (low, high) in ends {
        narrow(&mut b, coord, *low, *high);
        coord = coord.saturating_add(1);
    }
    Ok(b)
}

/// Moves the ends of a coordinate inwards, where there is such a coordinate and they lie within its ends.
fn narrow(b: &mut BoxEnds, coord: usize, low: i64, high: i64)
    ensures { (n : Net) → AreEnds n b.old → AreEnds n b.new }
{
    let (lows, highs) = (b.low.as_slice(), b.high.as_slice());
    if coord >= lows.len() || coord >= highs.len() {
        return;
    }
    if low < lows[coord] || high < low || highs[coord] < high {
        return;
    }
    b.low[coord] = low;
    b.high[coord] = high;
}

/// The rows in the root box, a line each.
pub(crate) fn root_rows(alloc: Global, net: &Network) -> Result<String, Memory> {
    let ends = root_box(alloc, net)?;
    rows_text(alloc, net, &ends.view())
}

/// The rows in the smaller box.
fn smaller_rows(alloc: Global, net: &Network) -> Result<String, Memory> {
    let ends = box_between(alloc, net, &SMALLER)?;
    rows_text(alloc, net, &ends.view())
}

#[test]
fn rows_of_haverly(rt: HostRuntime) -> Result<(), Fail> {
    let net = network(rt.alloc(), HAVERLY_1)?;
    let text = root_rows(rt.alloc(), &net)?;
    assert_eq!(rt; text.as_str(), HAVERLY);
    Ok(())
}

#[test]
fn rows_of_two_pools(rt: HostRuntime) -> Result<(), Fail> {
    let net = network(rt.alloc(), TWO_POOLS)?;
    let text = root_rows(rt.alloc(), &net)?;
    let parts = [FLOWS, QUALITY_SIDES, PATHS, PROPORTION_SIDES, FURTHER];
    assert!(rt; is_made_of(text.as_str(), &parts), "{text}");
    Ok(())
}

#[test]
fn rows_of_two_pools_in_a_smaller_box(rt: HostRuntime) -> Result<(), Fail> {
    let net = network(rt.alloc(), TWO_POOLS)?;
    let text = smaller_rows(rt.alloc(), &net)?;
    let parts = [
        FLOWS,
        SMALLER_QUALITY_SIDES,
        PATHS,
        SMALLER_PROPORTION_SIDES,
        FURTHER,
    ];
    assert!(rt; is_made_of(text.as_str(), &parts), "{text}");
    Ok(())
}

/// How many rows there are, and how many the forms P, Q and PQ have: none of them has a row past the last.
fn counts_of(net: &Network) -> [u32; 4] {
    let mut counts = [rows(net), 0, 0, 0];
    for id in 0..1000 {
        for (n, form) in [(1, Form::P), (2, Form::Q), (3, Form::Pq)] {
            if in_form(net, form, id) {
                counts[n] = counts[n].saturating_add(1);
            }
        }
    }
    counts
}

#[test]
fn rows_are_counted(rt: HostRuntime) -> Result<(), Fail> {
    for (text, counts) in [
        (HAVERLY_1, [45, 20, 30, 34]),
        (TWO_POOLS, [77, 42, 39, 45]),
        (AS_TRIALS, [743, 190, 543, 581]),
    ] {
        let net = network(rt.alloc(), text)?;
        assert_eq!(rt; counts_of(&net), counts);
    }
    Ok(())
}
