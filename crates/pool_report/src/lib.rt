//! The report of a certificate: what a person reads.
//!
//! [`report`] writes the kind of a certificate and what it claims. Where it has a plan, that is the plan's cost, the bound and the gap in money, what flows
//! along each arc, each product's means, and how much room each node has left, by the names of the network. Numbers are the exact fractions, rounded
//! in their sixth decimal: the cost and the gap up, all others down. The text is defined in `specs/Report.antt`, line by line in
//! `specs/Lines.antt`. No memory is taken.
//!
//! The layer above may use the clauses of `report`. It leaves to others whether a certificate is valid: it asks of a plan that it obeys, since
//! the means of another plan have no meaning.
#![tactic(auto)]

mod claims;
mod flows;
mod means;
mod slacks;
mod writing;

pub use writing::report;
