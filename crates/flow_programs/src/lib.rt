//! The flows of least cost at given proportions, their mending, and steps to other proportions.
//!
//! Where the proportions of a network's pools are fixed, its plans are the points of a small linear program in the outflows
//! and the directs. [`flow_program`] puts it together from an [`Outline`], the network's numbers as plain lists, and a
//! [`Blend`], what the pools mix; [`SmallProgram::lp`] is what advice is asked on. [`flows_of`] reads the flows off the point
//! of an advice, [`rounded`] brings proportions to the grain and [`small_parts`] to a small base, and [`ArcFlows::mend`] lowers flows that were rounded until they
//! keep each maximum and each limit again. [`step_program`] moves proportions and flows together, and [`step_end`] reads off where its point
//! leads; [`vertex_of`] has the flows of an advice exactly.
//!
//! Nobody has to trust any of it: whoever makes a plan of these flows has it checked. So every call is safe and returns for
//! every value of its arguments, and that is all that is promised. Sums and products wrap, what is kept is brought into its
//! range, and what is not there counts as nothing.
//!
//! How a network is read, how a program is solved and which proportions to try is left to the crate above.
#![tactic(auto)]

mod blend;
mod flows;
mod groups;
mod mending;
mod outline;
mod program;
mod rounding;
mod small;
mod steps;
mod vertex;

pub use blend::{Blend, Proportions};
pub use flows::{Layout, flow_program, flows_of};
pub use groups::ArcsByEnd;
pub use mending::ArcFlows;
pub use outline::{Arc, Arcs, GRAIN, Limit, Meetings, Nodes, Outline, Product, Qualities};
pub use program::SmallProgram;
pub use rounding::rounded;
pub use small::{SmallParts, small_parts};
pub use steps::{Outlook, Place, Reach, Stepped, step_end, step_program};
pub use vertex::{Vertex, vertex_of};
