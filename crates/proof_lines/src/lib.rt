//! The proofs on the tree of a certificate, each judged as its line is read, and why a certificate is refused.
//!
//! [`tree_bound`] takes the proof lines of a tree from a reader of the certificate and answers the bound that they show together;
//! or the first line that names no node or one out of order, and where there is none the first node whose proof is not in order in
//! the node's box. It keeps a bound for each node and the parts of one proof, however many lines there are. [`steps`] has the items
//! of a certificate, for the layer above too: a function for each kind, called where the text goes on with an item of this kind.
//! [`Refusal`] has the causes to refuse a certificate, in the order in which they are looked for; [`StreamRefusal`] adds what may
//! come of reading a file.
//!
//! The plan, the splits and the claim are left to the checker, and so is how its parts follow on one another.
//!
//! `specs/Refusals.antt` says when a certificate gives each cause, `specs/Runs.antt` what was read of a file and why reading ended,
//! `specs/Grammar.antt` which items a text may go on with, and `specs/Parts.antt` what is known of proofs that were taken. It rests
//! on the text, the splits and the rows of the relaxations, and on nothing of the search that made the certificate.
//!
//! Proofs above may cite, of `proofs/`: `Running` (what was read, put together, and faults behind it), `Coming` (a kind that was read
//! is one of the three), `States` (what a text goes on with), `Lines` (lines in their places), `Outcomes` (what was found of a
//! tree's parts, said of the whole tree) and `Raising` (bounds of nodes, one after another, and the least of them).
#![tactic(auto)]

mod judge;
mod line_judge;
mod refusal;
pub mod steps;
mod stream_refusal;
mod tree;

pub use refusal::Refusal;
pub use stream_refusal::StreamRefusal;
pub use tree::tree_bound;
