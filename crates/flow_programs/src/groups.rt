//! Arcs by the node at which they end.

use crate::outline::Arc;
use lp_sparse::lookup::at;
use std::alloc::{AllocError, Global};

/// The numbers of arcs, those of one node after another.
#[derive(Drop)]
pub struct ArcsByEnd {
    arcs: Vec<usize>,
    /// For each node the end of its arcs in the list.
    ends: Vec<usize>,
}

impl ArcsByEnd {
    /// The arcs by the node at which they end.
    pub fn by_end(alloc: Global, arcs: &[Arc], nodes: usize) -> Result<ArcsByEnd, AllocError> {
        let mut groups = ArcsByEnd {
            arcs: Vec::new(alloc),
            ends: Vec::new(alloc),
        };
        for node in 0..nodes {
            groups.add(arcs, node)?;
        }
        Ok(groups)
    }

    fn add(&mut self, arcs: &[Arc], node: usize) -> Result<(), AllocError> {
        for (number, arc) in arcs.iter().enumerate() {
            if arc.to == node {
                self.arcs.push(number)?;
            }
        }
        self.ends.push(self.arcs.len())?;
        Ok(())
    }

    /// The arcs that end at a node.
    pub fn of(&self, node: usize) -> &[usize] {
        let start = match node.checked_sub(1) {
            None => 0,
            Some(before) => at(&self.ends, before, 0),
        };
        let end = at(&self.ends, node, 0);
        self.arcs.as_slice().get(start..end).unwrap_or(&[])
    }
}
