//! The list of splits, with the ends and the marks that make its answers quick.

ghost use Rattle.std.specs.Prelude.{◌≡◌, ◌<◌, ◌+◌, ◌-◌, ◌/◌, ◌↔◌, [], length, map, IfOk, IfErr, IsTrue};
ghost use Rattle.map_versions.specs.Versions.{IsChanged, count};
ghost use Rattle.pool_model.specs.Network.{Net};
ghost use Rattle.row_model.specs.Trees as trees;
ghost use Rattle.box_space.specs.Views.{shown_split};
ghost use Rattle.split_tree.specs.Spans.{CutsBetween};
ghost use Rattle.split_tree.specs.Splits.{IsOf, MayCome, with_split};

use crate::span::Span;
use box_space::Split;
use edge_io::Memory;
use map_versions::MapVersions;
use std::alloc::{AllocError, Global};
use std::marker::Model;

/// The greatest number of splits.
pub const MAX_SPLITS: usize = 200_000;

/// Splits, each of a leaf of the tree of those before it. It keeps the ends that each split cuts between, for each node whether
/// it is cut, and for each leaf that was cut the innermost cut above it of every coordinate.
#[derive(Drop)]
pub struct SplitTree {
    pub(crate) splits: Vec<Split>,
    /// Of each split: the ends of its leaf at its coordinate.
    pub(crate) spans: Vec<Span>,
    pub(crate) cuts: Vec<bool>,
    /// Version 0 is the map of the root, and version t + 1 that of the leaf of split t: from a coordinate to the innermost node at or
    /// above it that a split on the coordinate made, which is 0 where there is none.
    pub(crate) maps: Box<MapVersions>,
    pub(crate) alloc: Global,
}

impl Model for SplitTree {
    ghost use Rattle.std.specs.Prelude.{map};
    ghost use Rattle.box_space.specs.Views.{shown_split};
    ghost use Rattle.split_tree.specs.Splits.{Splits, AreKept};
    ghost use Rattle.split_tree.specs.Cuts.{AreMapped};

    ghost Value = { Splits };

    ghost view = { λ t. record { list = map shown_split t.splits.items; spans = t.spans.items } };

    ghost invariant = { λ t. AreKept (map shown_split t.splits.items) t.spans.items t.cuts.items × AreMapped (map shown_split t.splits.items) t.maps.value };
}

impl SplitTree {
    /// No split yet.
    pub fn new(alloc: Global) -> Result<SplitTree, Memory>
        ensures none { IfOk result (λ t. t.list ≡ []) }
        ensures tree { (n : Net) → IfOk result (IsOf n) }
    {
        Ok(SplitTree {
            splits: Vec::new(alloc),
            spans: Vec::new(alloc),
            cuts: vec![in alloc; false]?,
            maps: Box::new(alloc, MapVersions::new(alloc)?)?,
            alloc,
        })
    }

    /// How many splits there are.
    pub fn len(&self) -> usize
        ensures { result ≡ length self.now.list }
    {
        self.splits.len()
    }

    /// Whether there is no split.
    pub fn is_empty(&self) -> bool
        ensures { IsTrue result ↔ (self.now.list ≡ []) }
    {
        self.splits.is_empty()
    }

    /// The splits, by number.
    pub fn splits(&self) -> &[Split]
        ensures { map shown_split result.now ≡ self.now.list }
    {
        self.splits.as_slice()
    }

    /// The splits, by number, without what is kept beside them.
    pub fn into_splits(self) -> Vec<Split>
        ensures { map shown_split result.items ≡ self.list }
    {
        self.splits
    }

    /// Whether a split cuts the node.
    pub fn is_cut(&self, node: u32) -> bool
        ensures { result ≡ trees.is_cut self.now.list node }
    {
        match self.cuts.get(node as usize) {
            Some(cut) => *cut,
            None => false,
        }
    }

    /// Whether a node is one of the tree, and is not cut.
    pub fn is_leaf(&self, node: u32) -> bool
        ensures { IsTrue result ↔ trees.IsLeaf self.now.list node }
    {
        (node as usize) < self.cuts.len() && !self.is_cut(node)
    }

    /// Adds a split of a leaf, with the ends that it cuts between, or leaves the splits as they were where there is no memory.
    pub fn push(&mut self, split: Split, span: Span) -> Result<(), AllocError>
        requires leaf { split.leaf < trees.nodes self.old.list }
        requires few { length self.old.list < trees.most_splits }
        ensures pushed { IfOk result (λ _. self.new ≡ with_split self.old (shown_split split) span) }
        ensures tree { (n : Net) → IsOf n self.old → MayCome n self.old.list (shown_split split)
            → CutsBetween n self.old.list (shown_split split) span → IfOk result (λ _. IsOf n self.new) }
        ensures unchanged { IfErr result (λ _. self.new ≡ self.old) }
    {
        self.splits.reserve(1)?;
        self.spans.reserve(1)?;
        self.cuts.reserve(2)?;
        add_map(&mut self.maps, self.splits.as_slice(), split.leaf)?;
        self.splits.push_reserved(split);
        self.spans.push_reserved(span);
        self.cuts[split.leaf as usize] = true;
        self.cuts.push_reserved(false);
        self.cuts.push_reserved(false);
        Ok(())
    }
}

/// Adds the map of a leaf: that of the leaf above, whose split made it, with this leaf at the coordinate of that split.
fn add_map(maps: &mut MapVersions, splits: &[Split], leaf: u32) -> Result<(), AllocError>
    requires there { leaf < trees.nodes (map shown_split splits.now) }
    requires few { length splits.now < trees.most_splits }
    requires counted { count maps.old ≡ length splits.now + 1 }
    ensures root { leaf ≡ 0 → IfOk result (λ _. IsChanged maps.old maps.new 0 0 0) }
    ensures half { 0 < leaf → IfOk result (λ _. IsChanged maps.old maps.new ((leaf - 1) / 2 + 1)
        (trees.split_at (map shown_split splits.now) ((leaf - 1) / 2)).coord leaf) }
    ensures unchanged { IfErr result (λ _. maps.new ≡ maps.old) }
{
    if leaf == 0 {
        return maps.change(0, 0, 0);
    }
    let above = (leaf as usize - 1) / 2;
    maps.change(above as u32 + 1, splits[above].coord, leaf)
}
