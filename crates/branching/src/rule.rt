//! A closure, and what is known of it.

ghost use Rattle.branching.specs.Rules.{PicksOpen};

use crate::view::LeafView;

/// A closure that answers the place of a row. It owns what it captures.
pub type RuleClosure = Box<dyn Fn(&LeafView) -> usize>;

/// A rule that says where a leaf is cut: a closure that on every view with an open row may be called, and answers the place of an
/// open one.
#[derive(Drop)]
pub struct CutRule {
    pub closure: RuleClosure,
    pub ghost picks_open: { PicksOpen (RuleClosure.pre closure) (RuleClosure.post closure) },
}
