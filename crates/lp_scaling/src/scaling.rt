//! The widths of the box, and what a row does on it.
//!
//! Scaling is by powers of two, so that it loses no bit but those that it shifts out. A row that holds at every point of the
//! box, or at none, is found here and comes to no pivot.

use linear_program::{Lp, LpRow, Term};
use lp_sparse::fixed::bit_length;
use lp_sparse::lookup::{at, put};
use std::alloc::{AllocError, Global};

/// How wide the box is along each variable, and the least power of two above that.
#[derive(Drop)]
pub struct Widths {
    widths: Vec<i128>,
    exponents: Vec<i32>,
}

impl Widths {
    /// The widths of a program's box.
    pub fn new(alloc: Global, lp: &Lp) -> Result<Widths, AllocError> {
        let mut widths = Vec::new(alloc);
        let mut exponents = Vec::new(alloc);
        for (variable, low) in lp.low.iter().enumerate() {
            let width = at(&lp.high, variable, 0).saturating_sub(*low).max(0);
            widths.push(width)?;
            exponents.push(bit_length(width))?;
        }
        Ok(Widths { widths, exponents })
    }

    /// The width along a variable, and 0 past the last.
    pub fn width(&self, variable: usize) -> i128 {
        at(&self.widths, variable, 0)
    }

    /// The least `e` such that the width is below `2^e`.
    pub fn exponent(&self, variable: usize) -> i32 {
        at(&self.exponents, variable, 0)
    }

    /// The exponent that brings each coefficient to at most 1.
    pub fn row_exponent(&self, terms: &[Term]) -> i32 {
        let mut most = -1000;
        for term in terms {
            let exponent = self.exponent(term.var as usize);
            most = most.max(bit_length(term.coef).saturating_add(exponent));
        }
        most
    }
}

/// The terms of a row over the variables that can move, one for each.
#[derive(Drop)]
pub struct Merged {
    terms: Vec<Term>,
    /// For each variable where its term was, in this row or an earlier one.
    turns: Vec<usize>,
}

impl Merged {
    pub fn new(alloc: Global, variables: usize) -> Result<Merged, AllocError> {
        Ok(Merged {
            terms: Vec::new(alloc),
            turns: vec![in alloc; usize::MAX; variables]?,
        })
    }

    pub fn terms(&self) -> &[Term] {
        &self.terms
    }

    /// Takes the terms of a row, and adds up those of one variable.
    pub fn read(&mut self, row: &LpRow, widths: &Widths) -> Result<(), AllocError> {
        self.terms.clear();
        for term in row.terms.iter() {
            let variable = term.var as usize;
            if widths.width(variable) > 0 {
                let turn = at(&self.turns, variable, usize::MAX);
                if turn < self.terms.len() && self.terms[turn].var == term.var {
                    let coef = self.terms[turn].coef.wrapping_add(term.coef);
                    let var = term.var;
                    self.terms[turn] = Term { var, coef };
                } else {
                    put(&mut self.turns, variable, self.terms.len());
                    self.terms.push(*term)?;
                }
            }
        }
        Ok(())
    }
}

/// What a row does on the box.
#[derive(Clone, Copy)]
pub enum RowOnBox {
    /// Its activity is below 0 at every point.
    Below,
    /// It has to be 0, and is above 0 at every point.
    Above,
    /// Every point meets it.
    Idle,
    /// None of these. `at_low` is its activity where each variable is at its low end.
    Open { at_low: i128 },
}

/// What a row does on the box, given its terms as `Merged` has them.
pub fn range_of(lp: &Lp, row: &LpRow, terms: &[Term], widths: &Widths) -> RowOnBox {
    let mut at_low = row.constant;
    for term in row.terms.iter() {
        let low = at(&lp.low, term.var as usize, 0);
        at_low = at_low.wrapping_add(term.coef.wrapping_mul(low));
    }
    let mut least = at_low;
    let mut greatest = at_low;
    for term in terms {
        let change = term.coef.wrapping_mul(widths.width(term.var as usize));
        if term.coef > 0 {
            greatest = greatest.wrapping_add(change);
        } else {
            least = least.wrapping_add(change);
        }
    }
    if greatest < 0 {
        RowOnBox::Below
    } else if row.equal && least > 0 {
        RowOnBox::Above
    } else if (!row.equal && least >= 0) || (least == 0 && greatest == 0) {
        RowOnBox::Idle
    } else {
        RowOnBox::Open { at_low }
    }
}
