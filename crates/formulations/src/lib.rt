//! The rows of the formulations P (Haverly 1978), Q (Ben-Tal, Eiger and Gershovitz 1994) and PQ (Tawarmalani and Sahinidis 2002).
//!
//! In each of [`p`], [`q`] and [`pq`], `count` says how many rows there are and `row` writes one, in a box, in place of what stood
//! in the row. `exact_rows` of `p` and of `q` says how many of the rows come before the envelopes. [`pq`] has the rows that PQ has
//! beside those of Q.
#![tactic(auto)]

mod limits;
pub mod p;
pub mod pq;
pub mod q;
