//! The program of a box, for the exact run.

ghost use Rattle.std.specs.Prelude.{◌≡◌, All, IfOk, length, map};
ghost use Rattle.pool_model.specs.Network.{net_of};
ghost use Rattle.box_space.specs.Views.{IsView, shown_box};
ghost use Rattle.exact_num.specs.Fraction.{IsShort};
ghost use Rattle.exact_pivots.specs.Fits.{IsReady};
ghost use Rattle.exact_pivots.specs.Views.{program_of};
ghost use Rattle.dual_rounding.specs.Programs.{form_rows};
ghost use Rattle.tight_leaf.specs.Programs.{IsBoxProgram};
ghost use Rattle.tight_leaf.specs.Rewritten.{IsNarrow, AreVariablesOf, AreRowsOf, IsRowOf, shown_term};

use blend_network::Network;
use box_space::{BoxView, Form, vars};
use dual_rounding::lp_of;
use edge_io::Memory;
use exact_pivots::{BoundedProgram, BoundedRow, Coefficient, Variable};
use linear_program::{Lp, LpRow, Term};
use std::alloc::{AllocError, Global};

/// The program of a box, and the numbers by which a proof names its rows.
#[derive(Debug, Drop)]
pub(crate) struct LeafProgram {
    pub program: BoundedProgram,
    pub rows: Vec<u32>,
}

/// The program of a form over a box: the form's rows by rising number, and the ends and costs of all variables.
pub(crate) fn leaf_program(
    alloc: Global,
    net: &Network,
    form: Form,
    v: &BoxView,
) -> Result<LeafProgram, Memory>
    requires { IsView (net_of net.now) v.now }
    ensures program { IfOk result (λ l. IsBoxProgram (net_of net.now) form (shown_box v.now) (program_of l.program)) }
    ensures ready { IfOk result (λ l. IsReady l.program) }
    ensures rows { IfOk result (λ l. l.rows.items ≡ form_rows (net_of net.now) form) }
{
    let count = vars(net) as usize;
    let lp = lp_of(alloc, net, form, v)?;
    let program = bounded(alloc, count, &lp)?;
    let rows = numbers_of(alloc, lp.rows.as_slice())?;
    Ok(LeafProgram { program, rows })
}

/// The same program, for the run.
fn bounded(alloc: Global, count: usize, lp: &Lp) -> Result<BoundedProgram, AllocError>
    requires narrow { IsNarrow lp.now }
    requires count { length lp.now.low.items ≡ count }
    ensures variables { IfOk result (λ p. AreVariablesOf lp.now p.variables.items) }
    ensures rows { IfOk result (λ p. AreRowsOf lp.now.rows.items p.rows.items) }
{
    let variables = variables_of(alloc, count, lp)?;
    let rows = rows_of(alloc, lp.rows.as_slice())?;
    Ok(BoundedProgram { variables, rows })
}

/// The variables, with their ends and costs.
fn variables_of(alloc: Global, count: usize, lp: &Lp) -> Result<Vec<Variable>, AllocError>
    requires narrow { IsNarrow lp.now }
    requires count { length lp.now.low.items ≡ count }
    ensures { IfOk result (λ v. AreVariablesOf lp.now v.items) }
{
    let (low, high) = (lp.low.as_slice(), lp.high.as_slice());
    let cost = lp.cost.as_slice();
    let mut variables = Vec::new(alloc);
    for number in 0..count {
        variables.push(Variable {
            low: low[number],
            high: high[number],
            cost: cost[number],
        })?;
    }
    Ok(variables)
}

/// The rows.
fn rows_of(alloc: Global, rows: &[LpRow]) -> Result<Vec<BoundedRow>, AllocError>
    requires { All (λ r. All (λ t. IsShort t.coef) r.terms.items) rows.now }
    ensures { IfOk result (λ v. AreRowsOf rows.now v.items) }
{
    let mut bounded = Vec::new(alloc);
    for row in rows {
        bounded.push(row_of(alloc, row)?)?;
    }
    Ok(bounded)
}

/// One row.
fn row_of(alloc: Global, row: &LpRow) -> Result<BoundedRow, AllocError>
    requires { All (λ t. IsShort t.coef) row.now.terms.items }
    ensures { IfOk result (IsRowOf row.now) }
{
    let terms = coefficients_of(alloc, row.terms.as_slice())?;
    Ok(BoundedRow {
        equal: row.equal,
        constant: row.constant,
        terms,
    })
}

/// The terms of a row.
fn coefficients_of(alloc: Global, terms: &[Term]) -> Result<Vec<Coefficient>, AllocError>
    requires { All (λ t. IsShort t.coef) terms.now }
    ensures { IfOk result (λ v. map shown_term v.items ≡ terms.now) }
{
    let mut coefficients = Vec::new(alloc);
    for term in terms {
        coefficients.push(Coefficient {
            variable: term.var as usize,
            value: term.coef,
        })?;
    }
    Ok(coefficients)
}

/// The numbers of rows.
fn numbers_of(alloc: Global, rows: &[LpRow]) -> Result<Vec<u32>, AllocError>
    ensures { IfOk result (λ v. v.items ≡ map (λ r. r.id) rows.now) }
{
    let mut numbers = Vec::new(alloc);
    for row in rows {
        numbers.push(row.id)?;
    }
    Ok(numbers)
}
