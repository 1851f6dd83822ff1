//! Whether lines name leaves.

ghost use Rattle.std.specs.Prelude.{◌≡◌, ◌↔◌, IsTrue};
ghost use Rattle.tight_checks.specs.Holding.{leaf_nodes, nodes_of};

use leaf_order::OpenLeaf;
use tight_texts::LeafMark;

/// Whether lines name these leaves, one by one.
pub(crate) fn name_leaves(lines: &[LeafMark], leaves: &[OpenLeaf]) -> bool
    ensures { IsTrue result ↔ (nodes_of lines.now ≡ leaf_nodes leaves.now) }
{
    if lines.len() != leaves.len() {
        return false;
    }
    for i in 0..lines.len() {
        if lines[i].node != leaves[i].node {
            return false;
        }
    }
    true
}
