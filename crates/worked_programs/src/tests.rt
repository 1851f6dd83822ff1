use linear_program::{Advice, Lp, LpRow, Part, Proof, Term};
use lp_simplex::{advise, advise_from, start_of_proof};
use std::alloc::{AllocError, Global};
use std::test::Fail;

/// 1 in the units of an advice.
const ONE: i128 = 4_294_967_296;

/// A program of two variables from 0 to 10, whose rows have to be at least 0: each row its constant and its coefficients.
fn program(alloc: Global, costs: [i128; 2], rows: &[(i128, i128, i128)]) -> Result<Lp, AllocError> {
    let mut lp = Lp {
        low: Vec::from_slice(alloc, &[0, 0])?,
        high: Vec::from_slice(alloc, &[10, 10])?,
        cost: Vec::from_slice(alloc, &costs)?,
        rows: Vec::new(alloc),
    };
    for (id, (constant, x, y)) in (40..1000u32).zip(rows) {
        let terms = [Term { var: 0, coef: *x }, Term { var: 1, coef: *y }];
        lp.rows.push(LpRow {
            id,
            equal: false,
            constant: *constant,
            terms: Vec::from_slice(alloc, &terms)?,
        })?;
    }
    Ok(lp)
}

/// Most of x and twice y, where both together are at most 12: y is 10 and x is 2. Each more that both may be is worth 1.
fn shared_room(alloc: Global) -> Result<Lp, AllocError> {
    program(alloc, [-1, -2], &[(12, -1, -1)])
}

/// Whether an advice is the optimum of `shared_room`.
fn is_optimum(advice: &Advice) -> bool {
    let is_point = advice.point.as_slice() == [2 * ONE, 10 * ONE].as_slice();
    !advice.ray && is_point && advice.duals.as_slice() == [ONE].as_slice()
}

#[test]
fn no_rows(rt: HostRuntime) -> Result<(), Fail> {
    let lp = Lp {
        low: Vec::from_slice(rt.alloc(), &[0])?,
        high: Vec::from_slice(rt.alloc(), &[5])?,
        cost: Vec::from_slice(rt.alloc(), &[-1])?,
        rows: Vec::new(rt.alloc()),
    };
    let advice = advise(rt.alloc(), &lp, 10)?;
    assert!(rt; !advice.ray && advice.duals.is_empty() && advice.basis.is_empty());
    assert_eq!(rt; advice.point.as_slice(), [5 * ONE].as_slice());
    Ok(())
}

#[test]
fn optimum_cold_and_warm(rt: HostRuntime) -> Result<(), Fail> {
    let lp = shared_room(rt.alloc())?;
    let cold = advise(rt.alloc(), &lp, 10)?;
    assert!(rt; is_optimum(&cold));
    assert_eq!(rt; cold.basis.as_slice(), [0u32, 2].as_slice());
    let starts: [&[u32]; 3] = [&[0, 2], &[], &[7, 7, u32::MAX, 1, 2, 0, 1]];
    for start in starts {
        assert!(rt; is_optimum(&advise_from(rt.alloc(), &lp, start, 10)?));
    }
    Ok(())
}

/// Least of x and three times y, where both together are 12: x is 10 and y is 2, and one more together costs 3.
#[test]
fn row_that_has_to_be_0(rt: HostRuntime) -> Result<(), Fail> {
    let mut lp = program(rt.alloc(), [1, 3], &[(-12, 1, 1)])?;
    for row in lp.rows.iter_mut() {
        row.equal = true;
    }
    let advice = advise(rt.alloc(), &lp, 10)?;
    assert!(rt; !advice.ray);
    assert_eq!(rt; advice.duals.as_slice(), [3 * ONE].as_slice());
    assert_eq!(rt; advice.point.as_slice(), [10 * ONE, 2 * ONE].as_slice());
    Ok(())
}

#[test]
fn start_of_a_proof(rt: HostRuntime) -> Result<(), Fail> {
    let lp = shared_room(rt.alloc())?;
    let part = Part {
        row: 40,
        mult: 1000,
    };
    let parts = Vec::from_slice(rt.alloc(), &[part])?;
    let start = start_of_proof(rt.alloc(), &lp, &Proof { scale: 1000, parts })?;
    assert_eq!(rt; start.as_slice(), [2u32, 0].as_slice());
    assert!(rt; is_optimum(&advise_from(rt.alloc(), &lp, &start, 1)?));
    Ok(())
}

/// The greatest that `a` times the row x - y - 6 and `b` times the row y - 5 can be on the box.
fn greatest(a: i128, b: i128) -> i128 {
    let x = a.wrapping_mul(10).max(0);
    let y = b.wrapping_sub(a).wrapping_mul(10).max(0);
    let constants = a.wrapping_mul(6).wrapping_add(b.wrapping_mul(5));
    x.wrapping_add(y).wrapping_sub(constants)
}

#[test]
fn ray_shows_that_no_point_is_there(rt: HostRuntime) -> Result<(), Fail> {
    let lp = program(rt.alloc(), [1, 1], &[(-6, 1, -1), (-5, 0, 1)])?;
    let advice = advise(rt.alloc(), &lp, 10)?;
    let (a, b) = match advice.duals.as_slice() {
        [a, b] => (*a, *b),
        _ => (0, 0),
    };
    assert!(rt; advice.ray && a > 0 && b > 0 && greatest(a, b) < 0);
    Ok(())
}

#[test]
fn lists_of_any_lengths_and_numbers(rt: HostRuntime) -> Result<(), Fail> {
    let terms = [
        Term {
            var: 7,
            coef: i128::MIN,
        },
        Term {
            var: 1,
            coef: i128::MAX,
        },
    ];
    let mut lp = Lp {
        low: Vec::from_slice(rt.alloc(), &[i128::MIN, 0, i128::MAX])?,
        high: Vec::from_slice(rt.alloc(), &[i128::MAX, 3])?,
        cost: Vec::from_slice(rt.alloc(), &[i128::MIN, -1, 2, 3, 4])?,
        rows: Vec::new(rt.alloc()),
    };
    for equal in [true, false] {
        let (id, constant) = (9, i128::MIN);
        let terms = Vec::from_slice(rt.alloc(), &terms)?;
        lp.rows.push(LpRow {
            id,
            equal,
            constant,
            terms,
        })?;
    }
    let advice = advise_from(rt.alloc(), &lp, &[4, 3, 2, 1, 0, 9], u32::MAX)?;
    assert_eq!(rt; (advice.duals.len(), advice.point.len()), (2, 3));
    Ok(())
}
