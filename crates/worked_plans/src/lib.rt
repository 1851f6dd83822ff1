//! Worked networks and plans: a network that is built of rows, faults of network files with their places, canonical texts of both versions,
//! a network without a starting plan, what flows along one way alone, what readers say of arcs and pools, points of the exact programs
//! and the plans of points, against figures and texts from outside.
//!
//! Costs of plans, starting plans and reports are tried in `tests/worked_cases.py`.
#![tactic(auto)]

#[cfg(test)]
mod built;
#[cfg(test)]
mod files;
#[cfg(test)]
mod points;
#[cfg(test)]
mod readers;
#[cfg(test)]
mod ways_back;
