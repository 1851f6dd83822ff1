//! What a run is asked for.

ghost use Rattle.std.specs.Prelude.{◌≡◌};
ghost use Rattle.search_run.specs.Orders as given;

use box_space::Form;
use branching::RuleName;
use search_core::Options;

/// How often the simplex method may change its basis, for one program.
pub const PIVOTS: u32 = 10_000;

/// Of how many coordinates both halves are solved before one is cut, at the most, where the rule goes by what they leave to be done.
const LOOKS: u32 = 12;

/// What a run is asked for.
#[derive(Clone, Copy, Debug, PartialEq, Eq)]
pub struct Orders {
    /// The form of the linear programs, whose coordinates are cut.
    pub form: Form,
    /// The number of splits at which the run stops.
    pub nodes: u32,
    /// The gap at which it closes, in picos.
    pub gap: i128,
    /// The rule that says where a leaf is cut.
    pub rule: RuleName,
    /// Whether pieces are cut off leaves where that pays.
    pub squeeze: bool,
    /// How many pivots may be made to raise the bound of a new half; 0 is that none is raised.
    pub raise: u32,
}

impl Orders {
    /// The options of the search.
    pub fn options(&self) -> Options
        ensures { result ≡ given.options_of self.now }
    {
        Options {
            form: self.form,
            nodes: self.nodes,
            gap: self.gap,
            pivots: PIVOTS,
            looks: looks_of(self.rule),
        }
    }
}

/// How many coordinates are looked at, at the most: the other rules ask for no numbers of what a cut leaves to be done.
fn looks_of(rule: RuleName) -> u32
    ensures { result ≡ given.looks_of rule }
{
    match rule {
        RuleName::Violated => LOOKS,
        _ => 0,
    }
}
