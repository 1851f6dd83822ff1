//! Work units: leaves of a search's tree are handed out as jobs, worked elsewhere, and their answers come back in any order.
//!
//! [`jobs_of`] makes a [`Job`] for each of the first open leaves of a tree. A [`Desk`] holds the tree and the jobs. An [`Answer`] brings a
//! split of a job's leaf, with proofs of the halves. [`Desk::judge`] says what [`Desk::deliver`] would do with it: an answer that
//! [`Judged::Fits`] is applied to the tree, and its job is answered; any other changes nothing. So answers that are lost, repeated or
//! forged do no harm, and the tree is always that of the start with the entries that were taken, in order.
//!
//! `specs/Units.antt` says what jobs are, `specs/Desks.antt` what a desk stands for and what it began with, and `specs/Judging.antt` how an answer is
//! judged. `specs/Deliveries.antt` is about lists of deliveries, and `specs/Leaves.antt` about the leaves that answers leave in
//! any order; [`deliveries_law`] and [`order_law`] are the laws of these.
//!
//! How jobs and answers are written, and who works on them, is left to the layers above.
#![tactic(auto)]

mod answer;
mod desk;
mod job;
mod judging;
mod laws;

pub use answer::{Answer, Judged};
pub use desk::Desk;
pub use job::{Job, jobs_of};
pub use laws::{deliveries_law, judgement_law, order_law};
