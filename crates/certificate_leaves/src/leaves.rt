//! The leaves of a certificate.

ghost use Rattle.std.specs.Prelude.{◌≡◌, ◌<◌, length, IfOk};
ghost use Rattle.pool_model.specs.Network.{net_of};
ghost use Rattle.row_model.specs.Boxes.{coords};
ghost use Rattle.row_model.specs.Trees as trees;
ghost use Rattle.box_space.specs.Views.{AreEndsOf};
ghost use Rattle.cert_format.specs.Valid as certificates;
ghost use Rattle.cert_format.specs.Views.{shown_cert};
ghost use Rattle.certificate_leaves.specs.Found.{IsOf};
ghost use Rattle.certificate_leaves.specs.Leaves.{AreLeaves};

use crate::boxes::write_ends;
use crate::cutting::tree_of;
use crate::listing::open_leaves;
use crate::valuing::node_bounds;
use blend_network::Network;
use box_space::{BoxEnds, root_box};
use cert_format::Certificate;
use edge_io::Memory;
use leaf_order::OpenLeaf;
use split_tree::SplitTree;
use std::alloc::Global;
use std::marker::Model;

/// The leaves of a certificate's tree that may hold a plan, with what tells their boxes.
#[derive(Drop)]
pub struct CertificateLeaves {
    tree: SplitTree,
    root: BoxEnds,
    leaves: Vec<OpenLeaf>,
}

impl Model for CertificateLeaves {
    ghost use Rattle.certificate_leaves.specs.Found.{Found};

    ghost Value = { Found };

    ghost view = { λ f. record { splits = f.tree; root = f.root; leaves = f.leaves.items } };
}

impl CertificateLeaves {
    /// The leaves, by the numbers of their nodes.
    pub fn leaves(&self) -> &[OpenLeaf]
        ensures { result.now ≡ self.now.leaves }
    {
        self.leaves.as_slice()
    }

    /// Writes the ends of the box of a node, with one for each coordinate. It takes no memory, and steps as `split_tree` says.
    pub fn write_box(&self, net: &Network, node: u32, ends: &mut BoxEnds)
        requires of { IsOf (net_of net.now) self.now }
        requires there { node < trees.nodes self.now.splits.list }
        requires lows { length ends.old.low.items ≡ coords (net_of net.now) }
        requires highs { length ends.old.high.items ≡ coords (net_of net.now) }
        // Promise: The box of a leaf is that which the cuts above it leave of the root box
        ensures { AreEndsOf (net_of net.now) (trees.box_of (net_of net.now) self.now.splits.list node) ends.new }
    {
        write_ends(net, &self.tree, &self.root, node, ends);
    }
}

/// The leaves that may hold a plan, of a certificate whose splits and proofs are in order and whose proofs rise by their nodes. It goes once
/// over the splits, the nodes and the proofs, and takes memory for the splits, a bound for each node, and the leaves.
pub fn leaves_of(
    alloc: Global,
    net: &Network,
    cert: &Certificate,
) -> Result<CertificateLeaves, Memory>
    requires tree { trees.IsTree (net_of net.now) (certificates.tree_of (shown_cert cert.now)) }
    requires rising { certificates.IsRising (shown_cert cert.now).proofs }
    ensures of { IfOk result (IsOf (net_of net.now)) }
    ensures splits { IfOk result (λ f. f.splits.list ≡ (shown_cert cert.now).splits) }
    // Promise: The leaves of a certificate are those that may hold a plan, each with its bound, by the numbers of their nodes
    ensures leaves { IfOk result (λ f. AreLeaves (net_of net.now) (certificates.tree_of (shown_cert cert.now)) f.leaves) }
{
    let root = root_box(alloc, net)?;
    let tree = tree_of(alloc, net, cert.splits.as_slice())?;
    let bounds = node_bounds(alloc, net, &tree, &root, cert.proofs.as_slice())?;
    let leaves = open_leaves(alloc, &tree, bounds.as_slice())?;
    Ok(CertificateLeaves { tree, root, leaves })
}
