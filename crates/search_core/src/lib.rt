//! A search for the cheapest plan: what to do next, and the tree that it makes.
//!
//! A [`Search`] holds a tree of boxes and what is asked for. [`Search::next`] says what comes next: an entry for the tree, or that
//! the search ended and how; and beside it the point from which a repaired plan was looked for. [`Search::take`] takes an entry.
//! Whoever drives the search calls the two in turn, and may record each entry before it is taken. Beside the tree the search keeps one
//! fact that changes an answer: whether a plan was repaired since the last proof or split. One that begins with the tree of another asks
//! for that repair again, and else goes on from there.
//!
//! The first case that applies decides:
//!
//! 1. a starting plan that obeys is cheaper than the best plan, or there is no plan: the cheapest one;
//! 2. every leaf holds no plan: infeasible;
//! 3. the best plan costs at most the asked gap more than the bound: closed;
//! 4. the root is not cut and has no proof, and rounding gives one: that proof;
//! 5. no plan was repaired since the last proof or split, and repair gives one from the least leaf's point: that plan;
//! 6. there are as many splits as are asked for: stopped, or undecided where there is no plan;
//! 7. the least leaf can't be cut: stuck, or undecided where there is no plan;
//! 8. a split of the least leaf where the cut rule says, with the proofs of both halves.
//!
//! `specs/Next.antt` has these cases, and `specs/Cases.antt` what each of them asks. Case 5 and those below it speak of the point that is
//! answered. That it is the one of the least leaf's program is not said: it is advice.
//!
//! Trees and their entries are those of `box_tree`, cut rules those of `branching`. What a proof is that rounding gives, and how a leaf
//! is solved, seen by the rule and cut, is left to `leaf_cuts`.
//!
//! Proofs above may cite, of `proofs/`: `Starting` (whether the cheapest starting plan is better than what a tree has), `Opening` (the open rows
//! of a leaf's view are the coordinates at which it can be cut) and `LeafSplits` (a pick on the view, with what is proved there).
#![tactic(auto)]

mod cases;
mod ended;
mod next;
mod options;
mod repairing;
mod search;
mod splitting;

pub use ended::Ended;
pub use next::{Answer, Next};
pub use options::Options;
pub use search::Search;
