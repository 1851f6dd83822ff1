//! Where a leaf is cut: cut rules, and the split that each picks.
//!
//! A [`LeafView`] shows a leaf as a rule sees it: its node, and a [`CoordRow`] for each coordinate that may be cut. A rule is a
//! closure that answers the place of a row. [`CutRule`] keeps such a closure beside the fact that on every view with an open row it
//! answers the place of an open one; [`CutRule::new`] asks for that fact, so [`CutRule::pick`] rests on it and tests nothing.
//!
//! [`first_open`], [`widest`], [`most_violated`] and [`fewest`] are the known rules, for closures to call, and a [`RuleName`] names one of
//! them and picks by it. A closure that is boxed has its clauses written:
//!
//! ```text
//! let closure = Box::new(alloc, |view: &LeafView| -> usize
//!     requires { HasOpen view.now.rows }
//!     ensures { IsFirstOpen view.now.rows result }
//! {
//!     first_open(view)
//! })?;
//! let rule = CutRule::new(closure);
//! ```
//!
//! `specs/Rows.antt` says what a view is, `specs/Rules.antt` what is kept of a rule and what a pick is, `specs/Known.antt` which row
//! the known rules answer. Which leaf is cut, and how the rows of its view come about, is left to the crates above.
//!
//! Proofs above may cite `proofs/Pushed.antt`: the rows of a view, with one more behind them.
#![tactic(auto)]

mod known;
mod name;
mod pick;
mod rule;
mod view;

pub use known::{fewest, first_open, most_violated, widest};
pub use name::RuleName;
pub use rule::{CutRule, RuleClosure};
pub use view::{CoordRow, LeafView};
