//! Operations on fractions of 128 bits, by name.

ghost use Rattle.std.specs.Prelude.{◌≡◌, ◌↔◌, IsTrue, IfOk, IfErr, OnOk, IsErrOf};
ghost use Rattle.exact_num.specs.Views.{shown_frac};
ghost use Rattle.exact_run.specs.Operations as operations;

use exact_num::{Frac, FracFault};

/// What is done with two fractions.
#[derive(Clone, Copy, Debug, PartialEq, Eq)]
pub enum Operation {
    Add,
    Sub,
    Mul,
    Div,
}

/// An operation that is too wide for 128 bits, and its two fractions.
#[derive(Clone, Copy, Debug, PartialEq, Eq)]
pub struct TooWide {
    pub operation: Operation,
    pub left: Frac,
    pub right: Frac,
}

/// What an operation gives of two fractions, in lowest terms; or that it is too wide, exactly where `exact_num` refuses it. Nothing is
/// divided by 0.
pub fn worked(operation: Operation, left: Frac, right: Frac) -> Result<Frac, TooWide>
    requires { operations.IsMeant operation (shown_frac right) }
    // Promise: An operation on two fractions gives what it is, in lowest terms
    ensures answer { IfOk result (λ f. operations.IsReduced (operations.answer_of operation (shown_frac left) (shown_frac right)) (shown_frac f)) }
    ensures narrow { OnOk result (¬ operations.IsWide operation (shown_frac left) (shown_frac right)) }
    // Promise: An operation is told to be too wide only where it is, with the fractions that it was tried on
    ensures wide { IfErr result (λ w. operations.IsWide operation (shown_frac left) (shown_frac right)) }
    ensures told { IfErr result (λ w. (w.operation ≡ operation) × (w.left ≡ left) × (w.right ≡ right)) }
{
    match answer(operation, left, right) {
        Ok(fraction) => Ok(fraction),
        Err(_) => Err(TooWide {
            operation,
            left,
            right,
        }),
    }
}

/// Whether an operation on two fractions is too wide for 128 bits. A division by 0 is not.
pub fn is_wide(operation: Operation, left: Frac, right: Frac) -> bool
    // Promise: Whether an operation on two fractions is too wide is told exactly
    ensures { IsTrue result ↔ operations.IsWide operation (shown_frac left) (shown_frac right) }
{
    match answer(operation, left, right) {
        Err(FracFault::Wide) => true,
        _ => false,
    }
}

/// What the operation's own call answers.
fn answer(operation: Operation, left: Frac, right: Frac) -> Result<Frac, FracFault>
    ensures answer { IfOk result (λ f. operations.IsReduced (operations.answer_of operation (shown_frac left) (shown_frac right)) (shown_frac f)) }
    ensures narrow { OnOk result (¬ operations.IsWide operation (shown_frac left) (shown_frac right)) }
    ensures wide { IsErrOf result FracFault.Wide → operations.IsWide operation (shown_frac left) (shown_frac right) }
    ensures meant { IsErrOf result FracFault.ZeroDivisor → ¬ operations.IsMeant operation (shown_frac right) }
    ensures fault { IsErrOf result FracFault.ZeroDivisor → ¬ operations.IsWide operation (shown_frac left) (shown_frac right) }
{
    match operation {
        Operation::Add => left.add(right),
        Operation::Sub => left.sub(right),
        Operation::Mul => left.mul(right),
        Operation::Div => left.div(right),
    }
}
