//! The nodes that no split cuts and that have a bound.

ghost use Rattle.std.specs.Prelude.{◌≡◌, ◌<◌, ◌^◌, ◌++◌, length, get_or, if◌then◌else◌, None, IfOk, OnOk};
ghost use Rattle.row_model.specs.Trees.{is_cut};
ghost use Rattle.certificate_leaves.specs.Leaves.{AreListed, listed};

use leaf_order::OpenLeaf;
use split_tree::SplitTree;
use std::alloc::{AllocError, Global};

/// The nodes that no split cuts and that have a bound, each with its bound.
pub(crate) fn open_leaves(
    alloc: Global,
    tree: &SplitTree,
    bounds: &[Option<i128>],
) -> Result<Vec<OpenLeaf>, AllocError>
    requires { length bounds.now < 2 ^ 32 }
    ensures { IfOk result (λ v. AreListed (λ node. if is_cut tree.now.list node then None else get_or bounds.now node None) (length bounds.now) v.items) }
{
    let mut leaves = Vec::new(alloc);
    for node in 0..bounds.len() {
        let node = node as u32;
        list(&mut leaves, node, leaf_bound(tree, bounds, node))?;
    }
    Ok(leaves)
}

/// The bound of a node that no split cuts, where it has one.
fn leaf_bound(tree: &SplitTree, bounds: &[Option<i128>], node: u32) -> Option<i128>
    requires { node < length bounds.now }
    ensures { result ≡ (if is_cut tree.now.list node then None else get_or bounds.now node None) }
{
    if tree.is_cut(node) {
        None
    } else {
        bounds[node as usize]
    }
}

/// Lists a node with its bound, where it has one.
fn list(leaves: &mut Vec<OpenLeaf>, node: u32, bound: Option<i128>) -> Result<(), AllocError>
    ensures { OnOk result (leaves.new.items ≡ leaves.old.items ++ listed node bound) }
{
    if let Some(bound) = bound {
        leaves.push(OpenLeaf { bound, node })?;
    }
    Ok(())
}
