//! Laws of whole numbers, of their sums and of their divisors, for proofs alone: there is no code here.
//!
//! - `specs/Sums.antt`: sums over a list, over the indices below a number, and over those of one key.
//! - `proofs/Ring.antt`: the ring laws of ℤ, and the rule sets by which `simp` and `omega` prove identities.
//! - `proofs/Order.antt`: products under ≤, least products over an interval, sizes.
//! - `proofs/ByIndex.antt`, `proofs/ByList.antt`, `proofs/AtKey.antt`: the laws of each kind of sum.
//! - `proofs/ByNode.antt`, `proofs/Pairs.antt`, `proofs/Means.antt`: sums over the arcs of each node, over pairs, and means.
//! - `proofs/Grids.antt`, `proofs/Elements.antt`, `proofs/Pairwise.antt`: places in a grid, what holds of each element of a list,
//!   and of each element and each later one.
//! - `specs/Numbers.antt`, `proofs/Tabulate.antt`, `proofs/Numbers.antt`: tables of the first numbers, and the numbers that have a key.
//! - `proofs/WideSums.antt`: sums that code adds up in 128 bits, one term at a time, and how large they are.
//! - `specs/Divisors.antt`, `proofs/Divides.antt`, `proofs/Twos.antt`: numbers with no common divisor, what a quotient by the
//!   greatest common divisor leaves, and halving.
#![tactic(auto)]
