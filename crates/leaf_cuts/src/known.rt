//! Advice on the program of a node that one call leaves for the next.

ghost use Rattle.std.specs.Prelude.{◌≡◌, IfSome, vec_len};

use crate::bench::Bench;
use crate::leaf::Leaf;
use box_tree::Tree;
use lp_simplex::Advice;

/// Advice on the program of a node, as long as the tree has as many splits. Whoever calls again for the same node hands it on; so a leaf is
/// not solved anew where a better plan came of it. It is advice: no clause speaks of it.
#[derive(Debug, Drop)]
pub struct KnownAdvice {
    node: u32,
    splits: usize,
    advice: Advice,
}

impl KnownAdvice {
    /// The advice on the program of the root, where nothing is cut.
    pub(crate) fn of_root(advice: Advice) -> KnownAdvice {
        KnownAdvice {
            node: 0,
            splits: 0,
            advice,
        }
    }

    /// The advice on a leaf of this tree.
    pub fn of_leaf(leaf: Leaf, tree: &Tree) -> KnownAdvice {
        KnownAdvice {
            node: leaf.node,
            splits: tree.splits().len(),
            advice: leaf.advice,
        }
    }

    /// The advice, where it is that of this node of the tree, and its point has a number for each variable of the program that stands.
    pub(crate) fn at(self, tree: &Tree, node: u32, bench: &Bench) -> Option<Advice>
        ensures { IfSome result (λ a. vec_len a.point ≡ vec_len bench.now.relaxation.low) }
    {
        let variables = bench.program().low.len();
        if self.node == node
            && self.splits == tree.splits().len()
            && self.advice.point.len() == variables
        {
            Some(self.advice)
        } else {
            None
        }
    }
}
