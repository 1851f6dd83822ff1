//! The linear program of a form over a box.

ghost use Rattle.std.specs.Prelude.{◌≡◌, ◌<◌, All, length, map, IfOk, OnOk};
ghost use Rattle.integers.specs.Numbers.{tabulate};
ghost use Rattle.pool_model.specs.Network.{net_of};
ghost use Rattle.row_model.specs.Variables.{variables, by_number, costs, lows, highs};
ghost use Rattle.row_model.specs.Catalogue as catalogue;
ghost use Rattle.box_space.specs.Views.{IsView, shown_box};
ghost use Rattle.dual_rounding.specs.Programs.{IsProgramOf, IsOfNetwork, IsOver, IsRowIn, form_rows, numbers};

use blend_network::Network;
use box_space::{BoxView, Form, LinRow, RowKind, var_cost, var_ends, vars};
use edge_io::Memory;
use linear_program::{Lp, LpRow};
use row_book::{in_form, row_at, rows};
use std::alloc::{AllocError, Global};

/// The linear program of a form over a box: the form's rows by rising number, each as the catalogue writes it, and the ends and
/// the costs of all variables, in the units of the catalogue.
pub fn lp_of(alloc: Global, net: &Network, form: Form, v: &BoxView) -> Result<Lp, Memory>
    requires { IsView (net_of net.now) v.now }
    // Promise: The program of a box has exactly the form's rows, as the catalogue has them, and the ends and costs of all variables
    ensures { IfOk result (IsProgramOf (net_of net.now) form (shown_box v.now)) }
{
    let mut lp = blank(alloc, net, form)?;
    let mut row = LinRow::new(alloc)?;
    write(net, v, &mut lp, &mut row)?;
    Ok(lp)
}

/// A program with the form's rows by number alone, and with costs. Its rows have no terms, and all ends are 0.
pub(crate) fn blank(alloc: Global, net: &Network, form: Form) -> Result<Lp, AllocError>
    ensures network { IfOk result (IsOfNetwork (net_of net.now)) }
    ensures numbers { IfOk result (λ lp. numbers lp ≡ form_rows (net_of net.now) form) }
{
    let count = vars(net) as usize;
    Ok(Lp {
        low: vec![in alloc; 0; count]?,
        high: vec![in alloc; 0; count]?,
        cost: costs_of(alloc, net)?,
        rows: blank_rows(alloc, net, form)?,
    })
}

/// The cost of each variable.
fn costs_of(alloc: Global, net: &Network) -> Result<Vec<i128>, AllocError>
    ensures { IfOk result (λ c. c.items ≡ tabulate (by_number (net_of net.now) (costs (net_of net.now))) (variables (net_of net.now))) }
{
    let mut costs = Vec::new(alloc);
    for var in 0..vars(net) {
        costs.push(i128::from(var_cost(net, var)))?;
    }
    Ok(costs)
}

/// A row without terms for each of the form's rows.
fn blank_rows(alloc: Global, net: &Network, form: Form) -> Result<Vec<LpRow>, AllocError>
    ensures { IfOk result (λ r. map (λ row. row.id) r.items ≡ form_rows (net_of net.now) form) }
{
    let mut blanks = Vec::new(alloc);
    for id in 0..rows(net) {
        if in_form(net, form, id) {
            blanks.push(LpRow {
                id,
                equal: false,
                constant: 0,
                terms: Vec::new(alloc),
            })?;
        }
    }
    Ok(blanks)
}

/// Writes the program of a box over one of the network. Where memory fails some of it is written, and it can be written over
/// again.
pub(crate) fn write(
    net: &Network,
    v: &BoxView,
    lp: &mut Lp,
    row: &mut LinRow,
) -> Result<(), AllocError>
    requires view { IsView (net_of net.now) v.now }
    requires network { IsOfNetwork (net_of net.now) lp.old }
    ensures network { IsOfNetwork (net_of net.now) lp.new }
    ensures numbers { numbers lp.new ≡ numbers lp.old }
    ensures over { OnOk result (IsOver (net_of net.now) (shown_box v.now) lp.new) }
{
    write_ends(net, v, lp.low.as_mut_slice(), lp.high.as_mut_slice());
    write_rows(net, v, lp.rows.as_mut_slice(), row)
}

/// Writes the ends of each variable in a box.
fn write_ends(net: &Network, v: &BoxView, least: &mut [i128], greatest: &mut [i128])
    requires view { IsView (net_of net.now) v.now }
    requires low { length least.old ≡ variables (net_of net.now) }
    requires high { length greatest.old ≡ variables (net_of net.now) }
    ensures low { least.new ≡ tabulate (by_number (net_of net.now) (lows (net_of net.now) (shown_box v.now))) (variables (net_of net.now)) }
    ensures high { greatest.new ≡ tabulate (by_number (net_of net.now) (highs (net_of net.now) (shown_box v.now))) (variables (net_of net.now)) }
{
    for var in 0..vars(net) {
        let (low, high) = var_ends(net, v, var);
        least[var as usize] = low;
        greatest[var as usize] = high;
    }
}

/// Writes each row of its number in a box.
fn write_rows(
    net: &Network,
    v: &BoxView,
    into: &mut [LpRow],
    row: &mut LinRow,
) -> Result<(), AllocError>
    requires view { IsView (net_of net.now) v.now }
    requires known { All (λ r. r.id < catalogue.rows (net_of net.now)) into.old }
    ensures numbers { map (λ r. r.id) into.new ≡ map (λ r. r.id) into.old }
    ensures written { OnOk result (All (IsRowIn (net_of net.now) (shown_box v.now)) into.new) }
{
    for n in 0..into.len() {
        write_row(net, v, &mut into[n], row)?;
    }
    Ok(())
}

/// Writes the row of its number in a box over a row of a program.
fn write_row(
    net: &Network,
    v: &BoxView,
    into: &mut LpRow,
    row: &mut LinRow,
) -> Result<(), AllocError>
    requires view { IsView (net_of net.now) v.now }
    requires known { into.old.id < catalogue.rows (net_of net.now) }
    ensures id { into.new.id ≡ into.old.id }
    ensures written { OnOk result (IsRowIn (net_of net.now) (shown_box v.now) into.new) }
{
    into.equal = row_at(net, v, into.id, row) == RowKind::Equal;
    into.constant = row.constant();
    into.terms.clear();
    into.terms.extend_from_slice(row.terms())
}
