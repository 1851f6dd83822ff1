//! How a search ends.

/// How a search ended.
#[derive(Clone, Copy, Debug, PartialEq, Eq)]
pub enum Ended {
    /// The best plan costs at most the asked gap more than the bound.
    Closed,
    /// There is a plan, and there are as many splits as are asked for.
    Stopped,
    /// There is a plan, and the least leaf can't be cut at any coordinate of the form.
    Stuck,
    /// Every leaf holds no plan.
    Infeasible,
    /// There is no plan, a leaf may hold one, and the search could not go on.
    Undecided,
}
