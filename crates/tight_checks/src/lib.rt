//! Whether what is said of the leaves of a certificate's tree holds.
//!
//! [`mark_holds`] says of a mark, whoever gave it, whether it keeps what it says of a form's rows in a box, for a bound in picos. It takes no
//! memory: the scratch and the row that are written over and over are lent. `specs/Marks.antt` of `leaf_marks` has the definition.
//! [`bound_left`] says what a mark that holds leaves of that bound.
//!
//! [`check_tight`] reads a text of marks ([`tight_texts::TightText`]) and says whether it holds of an accepted certificate: it names the leaves
//! that may hold a plan, each mark holds in its leaf's box, and the bound is the least that the marks leave. It answers a [`TightVerdict`], or
//! the first cause to refuse the text ([`TightRefusal`]). `specs/Holding.antt` says when marks hold, `specs/Refusals.antt` which cause comes
//! first, and [`holding_law`] what follows of marks that hold, by `specs/Showing.antt`.
//!
//! Proofs above may cite, of `proofs/`: `MarksSame` (a mark rests on the ends of its box alone), `Ends` (boxes that agree have the same ends
//! of variables) and `Least` (the least of bounds).
//!
//! Whether the certificate is valid is left to `cert_checker`, and how marks are found to `tight_leaf`.
#![tactic(auto)]

mod checking;
mod coarse;
mod counting;
mod holding;
mod judging;
mod laws;
mod left;
mod nodes;
mod refusal;
mod showing;
mod verdict;

pub use checking::check_tight;
pub use holding::mark_holds;
pub use laws::holding_law;
pub use left::bound_left;
pub use refusal::TightRefusal;
pub use verdict::TightVerdict;
