//! What a search may be asked for.

ghost use Rattle.std.specs.Prelude.{◌≡◌, ◌↔◌, ◌<◌, ◌≤◌, ◌+◌, ◌*◌, IsTrue, IfSome, IfNone};
ghost use Rattle.pool_model.specs.Network.{net_of};
ghost use Rattle.row_model.specs.Catalogue.{rows};
ghost use Rattle.row_model.specs.Trees.{most_splits};
ghost use Rattle.row_model.specs.Variables.{variables};
ghost use Rattle.cert_lengths.specs.Lengths.{most_rows};
ghost use Rattle.cli_words.specs.Views.{shown_solving};
ghost use Rattle.search_core.specs.Searches.{IsAsked};
ghost use Rattle.search_run.specs.Orders.{options_of};
ghost use Rattle.solve_command.specs.Gaps.{IsGapAsked};
ghost use Rattle.solve_command.specs.SolveEnds.{orders_of, IsWithinBudget};

use blend_network::Network;
use box_space::vars;
use cli_words::SolveWords;
use row_book::rows;
use search_run::Orders;
use split_tree::MAX_SPLITS;

/// How many rows a certificate may speak of, node by node.
const MOST_ROWS: u64 = 32_000_000;

/// In how many pivots a half may be raised.
const MOST_PIVOTS: u64 = 1_000_000;

/// How many variables and rows together a network may have whose halves are raised.
const MOST_NUMBERS: u64 = 2_000;

/// What the search is asked for; None where that is over the budget.
pub(crate) fn orders_within(net: &Network, words: &SolveWords) -> Option<Orders>
    requires { IsGapAsked words.now.gap }
    ensures orders { IfSome result (λ o. o ≡ orders_of (shown_solving words.now)) }
    ensures asked { IfSome result (λ o. IsAsked (options_of o)) }
    ensures within { IfSome result (λ _. IsWithinBudget (net_of net.now) words.now.nodes words.now.raise) }
    ensures over { IfNone result (¬ IsWithinBudget (net_of net.now) words.now.nodes words.now.raise) }
{
    if !is_within_budget(net, words.nodes, words.raise) {
        return None;
    }
    Some(Orders {
        form: words.form,
        nodes: words.nodes as u32,
        gap: words.gap,
        rule: words.rule,
        squeeze: words.squeeze,
        raise: words.raise as u32,
    })
}

/// Whether so many splits, and so many pivots for each half, are within the budget.
fn is_within_budget(net: &Network, nodes: u64, raise: u64) -> bool
    ensures { IsTrue result ↔ IsWithinBudget (net_of net.now) nodes raise }
{
    may_split(net, nodes) && may_raise(net, raise)
}

/// Whether there may be so many splits.
fn may_split(net: &Network, nodes: u64) -> bool
    ensures { IsTrue result ↔ ((nodes ≤ most_splits) × (((2 * nodes + 1) * rows (net_of net.now)) ≤ most_rows)) }
{
    let rows = rows(net);
    nodes <= MAX_SPLITS as u64 && (2 * nodes + 1) * u64::from(rows) <= MOST_ROWS
}

/// Whether halves may be raised in so many pivots.
fn may_raise(net: &Network, raise: u64) -> bool
    ensures { IsTrue result ↔ ((raise ≤ 1000000) × (0 < raise → (variables (net_of net.now) + rows (net_of net.now)) ≤ 2000)) }
{
    raise <= MOST_PIVOTS && (raise == 0 || is_small(net))
}

/// Whether a network is small enough for halves to be raised.
fn is_small(net: &Network) -> bool
    ensures { IsTrue result ↔ ((variables (net_of net.now) + rows (net_of net.now)) ≤ 2000) }
{
    u64::from(vars(net)) + u64::from(rows(net)) <= MOST_NUMBERS
}
