//! Answers to jobs, and how they are judged.

ghost use Rattle.std.specs.Prelude.{◌≡◌, ◌≢◌, ◌↔◌, IfOk, IsTrue, option_map};
ghost use Rattle.box_tree.specs.Views.{shown_entry};
ghost use Rattle.box_space.specs.Views.{shown_proof};
ghost use Rattle.work_units.specs.Units.{Splits, IsSplit};
ghost use Rattle.work_units.specs.Views.{shown_answer};

use box_space::Proof;
use box_tree::{Entry, EntryFault};
use edge_io::Memory;
use std::alloc::{AllocError, Global};

/// An answer to a job.
#[derive(Debug, Drop)]
pub struct Answer {
    /// The number of the job.
    pub number: u32,
    /// What it brings: a split of the job's node, with proofs of its halves where there are some.
    pub entry: Entry,
}

/// How a desk judges an answer: the first that holds, in this order.
#[derive(Clone, Copy, Debug, PartialEq, Eq)]
pub enum Judged {
    /// There is no job of its number.
    Stranger,
    /// Its job is answered.
    Repeated,
    /// Its entry is no split of the job's node.
    Wrong,
    /// The tree doesn't take its entry, and this is the first cause.
    Refused(EntryFault),
    /// The tree takes its entry.
    Fits,
}

/// What an answer is whose entry the tree doesn't take for this cause.
pub(crate) fn refused(fault: EntryFault) -> Result<Judged, Memory>
    ensures { IfOk result (λ j. (j ≡ Judged.Refused fault) × (fault ≢ EntryFault.Memory)) }
{
    match fault {
        EntryFault::Memory => Err(Memory),
        _ => Ok(Judged::Refused(fault)),
    }
}

/// Whether an entry splits the node.
pub(crate) fn splits_node(entry: &Entry, node: u32) -> bool
    ensures { IsTrue result ↔ Splits node (shown_entry entry.now) }
{
    match entry {
        Entry::SplitOf(split, _, _) => split.leaf == node,
        Entry::Root(_) | Entry::Improve(_) => false,
    }
}

/// An answer that brings a split, once more.
pub(crate) fn copied(alloc: Global, answer: &Answer) -> Result<Answer, AllocError>
    requires { IsSplit (shown_entry answer.now.entry) }
    ensures { IfOk result (λ a. shown_answer a ≡ shown_answer answer.now) }
{
    match &answer.entry {
        Entry::SplitOf(split, left, right) => {
            let left = copied_half(alloc, left)?;
            let right = copied_half(alloc, right)?;
            Ok(Answer {
                number: answer.number,
                entry: Entry::SplitOf(*split, left, right),
            })
        }
        Entry::Root(_) | Entry::Improve(_) => unreachable!(),
    }
}

/// The proof of a half once more, where there is one.
fn copied_half(alloc: Global, proof: &Option<Proof>) -> Result<Option<Proof>, AllocError>
    ensures { IfOk result (λ p. option_map shown_proof p ≡ option_map shown_proof proof.now) }
{
    match proof {
        None => Ok(None),
        Some(proof) => Ok(Some(Proof {
            scale: proof.scale,
            parts: Vec::from_slice(alloc, proof.parts.as_slice())?,
        })),
    }
}
