//! The exact programs of the pooling problem: what a point of form P (Haverly 1978), of form Q (Ben-Tal, Eiger and
//! Gershovitz 1994) and of form Pq (Tawarmalani and Sahinidis 2002) is, that each is the pooling problem, and
//! which written plan a point stands for. There is no code here.
//!
//! - `specs/Points.antt`: points, with their denominators; the plan of a point's flows; when two plans have the same flows and
//!   the same cost.
//! - `specs/Programs.antt`: when a point meets each program: its rows without the envelopes, and its products as they are.
//! - `specs/Lifted.antt`: the points of a plan.
//! - `specs/Rows.antt`: the programs by their rows: those of the catalogue that are the same in every box.
//! - `specs/LeastBases.antt`: the least bases over which a plan's flows, and each feed's part of what its pool sends, are whole.
//! - `specs/Plans.antt`: which written plan is that of a point of Q or Pq, and of P.
//! - `specs/Bounds.antt`: how large the numbers of points are.
//!
//! `lifted_law` says that the points of every plan that obeys are points of the programs, and that they cost what the plan
//! costs. `flows_law` says that the flows of every point are a plan that obeys. So each program has the plans that obey, no more
//! and no fewer. `further_rows_law` says that what Pq adds to Q follows from it: the two differ in what their relaxations show.
//!
//! `same_flows_law` says that obeying and costs rest on the flows as fractions, and on no denominator. `rows_law` says that
//! the points of a program are what meets the rows and the products of its text.
//!
//! `plan_law` says that the plan of a point, where its bases are within the limits, is well written, has the point's flows and its
//! cost, and obeys. `least_law` says that every written plan with the point's flows has multiples of the plan's bases: where one of
//! them passes its limit, no written plan has the point's flows. `bounds_law` says how large the numbers of points are.
//!
//! Proofs above may cite the lemmas behind them, in `proofs/`: `Means` (a plan's blending law by the qualities of its pools
//! over one base), `Scaled` (flows times a number), `SameFlows`, `FormP` and `FormQ`, `Bounds` (how large the numbers of points
//! are) and `PlanFlows` (the plan of a point has the point's flows, and obeys).
#![tactic(auto)]

mod laws;
mod plan_laws;

pub use laws::{flows_law, further_rows_law, lifted_law, rows_law, same_flows_law};
pub use plan_laws::{bounds_law, least_law, plan_law};
