//! The set of leaves.

ghost use Rattle.std.specs.Prelude.{◌≡◌, [], map, take, IfOk, IfErr, IfSome, IfNone, MatchOption, Some};
ghost use Rattle.leaf_order.specs.Order.{AreOrdered, ArePut, IsFirst, IsNew, IsPut, IsReplaced, IsTakenOut};

use crate::leaf::OpenLeaf;
use std::alloc::{AllocError, Global};
use std::collections::BTreeSet;
use std::marker::Model;

/// A set of leaves, kept in order.
#[derive(Drop)]
pub struct LeafOrder {
    leaves: BTreeSet<OpenLeaf>,
    alloc: Global,
}

impl Model for LeafOrder {
    ghost use Rattle.std.specs.Prelude.{List};
    ghost use Rattle.leaf_order.specs.declared.leaf.OpenLeaf.{OpenLeaf};
    ghost use Rattle.leaf_order.specs.Order.{AreOrdered};

    ghost Value = { List OpenLeaf };

    ghost view = { λ o. o.leaves.keys };

    ghost invariant = { λ o. AreOrdered o.leaves.keys };
}

impl LeafOrder {
    /// No leaf yet. It takes no memory.
    pub fn new(alloc: Global) -> LeafOrder
        ensures { result ≡ [] }
    {
        LeafOrder {
            leaves: BTreeSet::new(alloc),
            alloc,
        }
    }

    /// The leaf that no other comes before; None where there is no leaf. It takes no memory.
    pub fn first(&self) -> Option<OpenLeaf>
        ensures { MatchOption result (self.now ≡ []) (IsFirst self.now) }
    {
        self.leaves.first().copied()
    }

    /// The nodes of the first so many leaves, or of all where there are fewer.
    pub fn nodes(&self, most: usize) -> Result<Vec<u32>, AllocError>
        ensures nodes { IfOk result (λ v. v.items ≡ map (λ leaf. leaf.node) (take most self.now)) }
        ensures ordered { AreOrdered self.now }
    {
        self.leaves
            .iter()
            .take(most)
            .map(|leaf| leaf.node)
            .collect(self.alloc)
    }

    /// Puts up to two leaves in, or leaves the set as it was where there is no memory for them. A leaf that is there already stays
    /// there once.
    pub fn put(&mut self, left: Option<OpenLeaf>, right: Option<OpenLeaf>) -> Result<(), AllocError>
        ensures put { IfOk result (λ _. ArePut left right self.old self.new) }
        // Promise: Where there is no memory for leaves that are put in, the set is as it was
        ensures unchanged { IfErr result (λ _. self.new ≡ self.old) }
    {
        let added = self.put_one(left)?;
        if self.put_one(right).is_err() {
            if let Some(leaf) = added {
                self.remove(leaf);
            }
            return Err(AllocError);
        }
        Ok(())
    }

    /// Puts a leaf in the place of another one, or leaves the set as it was where there is no memory.
    pub fn replace(
        &mut self,
        old: Option<OpenLeaf>,
        new: Option<OpenLeaf>,
    ) -> Result<(), AllocError>
        ensures replaced { IfOk result (λ _. IsReplaced old new self.old self.new) }
        // Promise: Where there is no memory for leaves that are put in, the set is as it was
        ensures unchanged { IfErr result (λ _. self.new ≡ self.old) }
    {
        self.put(new, None)?;
        if old == new {
            return Ok(());
        }
        self.take_out(old);
        Ok(())
    }

    /// Takes a leaf out, where there is one. It takes no memory.
    pub fn take_out(&mut self, leaf: Option<OpenLeaf>)
        ensures { IsTakenOut leaf self.old self.new }
    {
        if let Some(leaf) = leaf {
            self.remove(leaf);
        }
    }

    /// Puts a leaf in, where there is one, and answers it where it is new.
    fn put_one(&mut self, leaf: Option<OpenLeaf>) -> Result<Option<OpenLeaf>, AllocError>
        ensures put { IfOk result (λ _. IsPut leaf self.old self.new) }
        ensures added { IfOk result (λ added. IfSome added (IsNew leaf self.old)) }
        ensures none_added { IfOk result (λ added. IfNone added (self.new ≡ self.old)) }
        ensures unchanged { IfErr result (λ _. self.new ≡ self.old) }
        ensures was_ordered { AreOrdered self.old }
    {
        match leaf {
            None => Ok(None),
            Some(leaf) => {
                let is_new = self.leaves.insert(leaf)?;
                Ok(if is_new { Some(leaf) } else { None })
            }
        }
    }

    /// Takes a leaf out.
    fn remove(&mut self, leaf: OpenLeaf)
        ensures taken { IsTakenOut (Some leaf) self.old self.new }
        ensures ordered { AreOrdered self.new }
    {
        self.leaves.remove(&leaf);
    }
}
