//! How long the text of a certificate is. There is no code here.
//!
//! - `specs/Lengths.antt`: how many bytes a number, a part of a proof, the line of a split and that of a proof have at the most, and
//!   what a whole text comes to; how long a text may be, and how many rows its tree may speak of.
//!
//! [`field_law`] says how long a number in its range is, [`lines_law`] how long lines and texts are, by how many splits, proofs and parts
//! there are: that holds of every certificate that has a text. [`parts_law`] says how many proofs and parts a valid one has: a proof for
//! each node and a part for each row, and no more. From both [`length_law`] says that the text of a valid certificate is short enough for a
//! file that is checked, where the nodes of its tree times the rows of the network stay within the limit.
//!
//! With 32,000,000 such rows the parts take at most 1,024,000,000 bytes, and 200,000 splits with all else fewer than 30,000,000, of
//! 1,073,741,824 that there may be.
//!
//! [`few_rows_law`] is for whoever grows a tree: where as many splits as are asked for stay within the limit, and as many as there
//! are, then the tree does that they are added to. That no more are added than are asked for is left to the search.
//!
//! Proofs above may cite the lemmas behind the laws, in `proofs/`: `Lines`, `Texts` and `ValidTexts`.
#![tactic(auto)]

mod laws;

pub use laws::{few_rows_law, field_law, length_law, lines_law, parts_law};
