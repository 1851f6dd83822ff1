//! What a search is asked for.

use box_space::Form;

/// What a search is asked for.
#[derive(Clone, Copy, Debug, PartialEq, Eq)]
pub struct Options {
    /// The form of the linear programs, whose coordinates are cut.
    pub form: Form,
    /// The number of splits at which the search stops.
    pub nodes: u32,
    /// The gap at which it closes, in picos.
    pub gap: i128,
    /// How often a program's basis may change at the most.
    pub pivots: u32,
    /// Of how many coordinates both halves are solved before one is cut, at the most. With 0 no coordinate is looked at, and the rows of a view
    /// say nothing of what a cut may gain.
    pub looks: u32,
}
