//! Fractions, the order of ratios, and weights, at the ends of their ranges.

use exact_num::{Frac, FracFault, Weight, Wide, compare_ratio};
use std::cmp::Ordering;
use std::test::Fail;

const MOST: i128 = i128::MAX;

const LEAST: i128 = i128::MIN;

const HALF: i128 = 0x4000_0000_0000_0000_0000_0000_0000_0000;

/// The numbers of an answer.
fn shown(answer: Result<Frac, FracFault>) -> Result<(i128, i128), FracFault> {
    let f = answer?;
    Ok((f.num(), f.den()))
}

#[test]
fn lowest_terms_and_their_range(rt: HostRuntime) {
    let made = [
        shown(Frac::new(6, -4)),
        shown(Frac::new(1, 0)),
        shown(Frac::new(0, -5)),
        shown(Frac::new(MOST, 1)),
        shown(Frac::new(LEAST, 1)),
        shown(Frac::new(LEAST, 2)),
        shown(Frac::new(1, LEAST)),
        shown(Frac::new(LEAST, LEAST)),
        shown(Frac::new(LEAST, 0)),
    ];
    let expected = [
        Ok((-3, 2)),
        Err(FracFault::ZeroDivisor),
        Ok((0, 1)),
        Ok((MOST, 1)),
        Err(FracFault::Wide),
        Ok((-HALF, 1)),
        Err(FracFault::Wide),
        Ok((1, 1)),
        Err(FracFault::ZeroDivisor),
    ];
    assert_eq!(rt; made, expected);
}

#[test]
fn floors(rt: HostRuntime) -> Result<(), Fail> {
    let (below, above) = (Frac::new(-3, 2)?, Frac::new(3, 2)?);
    let whole = Frac::new(-4, 2)?;
    assert_eq!(rt; [below.floor(), above.floor(), whole.floor()], [-2, 1, -2]);
    Ok(())
}

#[test]
fn sums_and_differences(rt: HostRuntime) -> Result<(), Fail> {
    let (sixth, third) = (Frac::new(1, 6)?, Frac::new(-1, 3)?);
    let large = Frac::new(HALF, 1)?;
    let made = [
        shown(sixth.add(third)),
        shown(sixth.sub(third)),
        shown(third.sub(third)),
        shown(large.add(large)),
        shown(large.sub(large)),
    ];
    let zero = Ok((0, 1));
    let expected = [Ok((-1, 6)), Ok((1, 2)), zero, Err(FracFault::Wide), zero];
    assert_eq!(rt; made, expected);
    Ok(())
}

#[test]
fn products_and_quotients(rt: HostRuntime) -> Result<(), Fail> {
    let (left, right) = (Frac::new(MOST, 2)?, Frac::new(-2, MOST)?);
    let zero = Frac::new(0, 7)?;
    let made = [
        shown(left.mul(right)),
        shown(left.mul(left)),
        shown(left.div(left)),
        shown(left.div(right)),
        shown(left.div(zero)),
    ];
    let wide = Err(FracFault::Wide);
    let by_zero = Err(FracFault::ZeroDivisor);
    assert_eq!(rt; made, [Ok((-1, 1)), wide, Ok((1, 1)), wide, by_zero]);
    assert_eq!(rt; left.compare(right), Ordering::Greater);
    Ok(())
}

#[test]
fn orders_in_256_bits(rt: HostRuntime) {
    let orders = [
        compare_ratio(MOST, MOST - 1, MOST - 1, MOST - 2),
        compare_ratio(LEAST, MOST, LEAST, MOST - 1),
        compare_ratio(LEAST, MOST, MOST, 1),
        compare_ratio(HALF, MOST, HALF, MOST),
        compare_ratio(-1, 2, -2, 4),
    ];
    let (less, equal) = (Ordering::Less, Ordering::Equal);
    assert_eq!(rt; orders, [less, Ordering::Greater, less, equal, equal]);
}

#[test]
fn weights(rt: HostRuntime) {
    let mut weight = Weight::new();
    let added = [
        weight.add_product(u128::MAX, 0),
        weight.add_product(u128::MAX, u128::MAX),
        weight.add_product(1 << 63, (1 << 63) - 1),
        weight.add_product(1, (1 << 63) + 1),
        weight.add_product(1, 1 << 63),
        weight.add_product(1, 1),
    ];
    let wide = Err(Wide);
    assert_eq!(rt; added, [Ok(()), wide, Ok(()), wide, Ok(()), wide]);
}
