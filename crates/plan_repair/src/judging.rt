//! Plans judged by their check, and the cheapest of them.

ghost use Rattle.std.specs.Prelude.{◌≡◌, ℕ, ◌<◌, IfSome, IfNone, IsSomeAnd};
ghost use Rattle.std.specs.Option.{ForSome, option_copied};
ghost use Rattle.pool_model.specs.Network.{net_of};
ghost use Rattle.plan_core.specs.Faults.{IsCostOf};
ghost use Rattle.plan_core.specs.Views.{shown_plan};
ghost use Rattle.plan_repair.specs.Repairs.{IsAccepted};
ghost use Rattle.plan_repair.specs.Choices.{cheapest as cheapest_of, gained as gained_of, is_below as is_below_limit, is_less as is_less_than, HasBase, IsLimit, shown_best};

use blend_network::Network;
use plan_core::{Cost, WrittenPlan, check_plan, compare_cost};
use std::cmp::Ordering;

/// A plan that obeys, and what it costs.
#[derive(Debug, Drop)]
pub(crate) struct Judged {
    pub(crate) plan: WrittenPlan,
    pub(crate) cost: Cost,
}

/// The plan with its cost, where it obeys.
pub(crate) fn judge(net: &Network, plan: WrittenPlan) -> Option<Judged>
    ensures cost { IfSome result (λ j. IsCostOf (net_of net.now) (shown_plan j.plan) j.cost) }
    ensures plan { IfSome result (λ j. j.plan ≡ plan) }
    ensures refused { IfNone result (¬ IsAccepted (net_of net.now) (shown_plan plan)) }
{
    match check_plan(net, &plan) {
        Ok(cost) => Some(Judged { plan, cost }),
        Err(_) => None,
    }
}

/// What the best plan costs, if there is one.
pub(crate) fn limit_of(net: &Network, best: Option<&WrittenPlan>) -> Option<Cost>
    requires { ForSome (option_copied best) (λ b. IsAccepted (net_of net.now) (shown_plan b)) }
    ensures { IsLimit (net_of net.now) (shown_best (option_copied best.entry)) result }
{
    match best {
        None => None,
        Some(best) => cost_of(net, best),
    }
}

/// What a plan costs that obeys.
fn cost_of(net: &Network, plan: &WrittenPlan) -> Option<Cost>
    requires { IsAccepted (net_of net.now) (shown_plan plan.now) }
    ensures { IsSomeAnd result (IsCostOf (net_of net.now) (shown_plan plan.now)) }
{
    match check_plan(net, plan) {
        Ok(cost) => Some(cost),
        Err(_) => None,
    }
}

/// The cheaper of two plans, the first at a tie, or the one that is there.
pub(crate) fn cheapest(first: Option<Judged>, second: Option<Judged>) -> Option<Judged>
    requires first { ForSome first (λ j. HasBase j.cost) }
    requires second { ForSome second (λ j. HasBase j.cost) }
    ensures { result ≡ cheapest_of first second }
{
    match (first, second) {
        (None, second) => second,
        (Some(first), None) => Some(first),
        (Some(first), Some(second)) => {
            if is_less(&second.cost, &first.cost) {
                Some(second)
            } else {
                Some(first)
            }
        }
    }
}

/// The plan, where it costs less than the limit, if there is one.
pub(crate) fn gained(found: Option<Judged>, limit: Option<Cost>) -> Option<WrittenPlan>
    requires found { ForSome found (λ j. HasBase j.cost) }
    requires limit { ForSome limit HasBase }
    ensures { result ≡ gained_of found limit }
{
    match found {
        Some(found) if is_below(&found.cost, limit) => Some(found.plan),
        _ => None,
    }
}

/// Whether a cost is less than the limit, if there is one.
fn is_below(cost: &Cost, limit: Option<Cost>) -> bool
    requires cost { HasBase cost.now }
    requires limit { ForSome limit HasBase }
    ensures { result ≡ is_below_limit cost.now limit }
{
    match limit {
        None => true,
        Some(limit) => is_less(cost, &limit),
    }
}

/// Whether a cost is less than another one.
fn is_less(a: &Cost, b: &Cost) -> bool
    requires a { HasBase a.now }
    requires b { HasBase b.now }
    ensures { result ≡ is_less_than a.now b.now }
{
    compare_cost(a, b) == Ordering::Less
}
