//! Texts of quantities, numbers drawn from a seed, and numbers in groups.

use drawn_numbers::Draws;
use number_groups::Groups;
use quantity::{quantity_of, text_of};
use std::test::Fail;

/// Texts, and the numbers that they stand for.
const TEXTS: &str = "\
2.5 = Some(2500000)
-0 = Some(0)
-12.000001 = Some(-12000001)
000000000000001 = Some(1000000)
0000000000000001 = None
2.5000001 = None
1. = None
. = None
 = None
";

#[test]
fn texts_and_their_numbers(rt: HostRuntime) -> Result<(), Fail> {
    for line in TEXTS.lines() {
        let (text, number) = line.split_once(" = ").ok_or("a number")?;
        let told = format!(in rt.alloc(); "{:?}", quantity_of(text))?;
        assert_eq!(rt; told.as_str(), number, "of {text}");
    }
    Ok(())
}

#[test]
fn shortest_texts(rt: HostRuntime) -> Result<(), Fail> {
    assert_eq!(rt; text_of(rt.alloc(), -2_500_000)?.as_str(), "-2.5");
    assert_eq!(rt; text_of(rt.alloc(), 100_000_000)?.as_str(), "100");
    Ok(())
}

/// The first numbers of a seed, by a script that computes them from the definition.
#[test]
fn a_seed_gives_these_numbers(rt: HostRuntime) {
    let mut draws = Draws { state: 7 };
    let first = draws.below(20);
    let mut bytes = [0; 6];
    Draws { state: 7 }.fill(&mut bytes);
    assert_eq!(rt; (first, draws.state), (18, 9_098_160_460_397_411_210));
    assert_eq!(rt; bytes, [94, 63, 49, 145, 233, 3]);
}

#[test]
fn six_numbers_by_four_keys(rt: HostRuntime) -> Result<(), Fail> {
    let groups = Groups::by(rt.alloc(), &[2, 0, 2, 3, 0, 2], 4)?;
    let told = [groups.of(0), groups.of(1), groups.of(2), groups.of(3)];
    let none: &[u32] = &[];
    assert!(rt; told == [[1, 4].as_slice(), none, &[0, 2, 5], &[3]]);
    Ok(())
}
