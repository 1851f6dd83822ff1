//! The items of a certificate, each where the text goes on with one of its kind.

ghost use Rattle.std.specs.Prelude.{◌≡◌, ◌≢◌, ◌⊎◌, ℕ, IsTrue};
ghost use Rattle.shelf_calls.specs.Opened.{IsUsedUp};
ghost use Rattle.cert_format.specs.declared.reading.Kind.{Kind as AKind};
ghost use Rattle.cert_items.specs.declared.items.State.TheVariants as states;
ghost use Rattle.cert_stream.specs.Items as items;
ghost use Rattle.proof_lines.specs.Grammar.{bases_item, cut_item, head_item, part_item, cost_item, gap_item, behind_item, Came, Reads, ReadsEnd};
ghost use Rattle.proof_lines.specs.Runs.{moment};

use box_space::{Part, Split};
use cert_format::reading::Kind;
use cert_stream::{CertReader, Item, ItemFault};
use shelf_calls::Shelf;

/// The head of a proof's line.
#[derive(Clone, Copy)]
pub(crate) struct LineHead {
    pub(crate) node: u32,
    pub(crate) scale: u64,
    /// How many parts come.
    pub(crate) count: u32,
}

/// The next item, which the text may go on with.
pub fn next<S: Shelf>(reader: &mut CertReader, shelf: &mut S) -> Result<Item, ItemFault>
    requires going { reader.old.state ≢ states.Ended }
    requires used_up { IsTrue reader.old.ended → IsUsedUp (S.told shelf.old).rest }
    ensures { Came (moment reader.old (S.told shelf.old)) (moment reader.new (S.told shelf.new)) result }
{
    reader.next_item(shelf)
}

/// The kind of what is claimed.
pub fn kind<S: Shelf>(reader: &mut CertReader, shelf: &mut S) -> Result<Kind, ItemFault>
    requires asks { reader.old.state ≡ states.Begin }
    requires used_up { IsTrue reader.old.ended → IsUsedUp (S.told shelf.old).rest }
    ensures { Reads items.kind (λ x. behind_item reader.old.state (items.kind x)) (moment reader.old (S.told shelf.old)) (moment reader.new (S.told shelf.new)) result }
{
    match next(reader, shelf)? {
        Item::Kind(kind) => Ok(kind),
        _ => unreachable!(),
    }
}

/// The shape.
pub fn shape<S: Shelf>(reader: &mut CertReader, shelf: &mut S) -> Result<[u32; 7], ItemFault>
    requires asks { (k : AKind) × (reader.old.state ≡ states.Shape k) }
    requires used_up { IsTrue reader.old.ended → IsUsedUp (S.told shelf.old).rest }
    ensures { Reads items.shape (λ x. behind_item reader.old.state (items.shape x)) (moment reader.old (S.told shelf.old)) (moment reader.new (S.told shelf.new)) result }
{
    match next(reader, shelf)? {
        Item::Shape(shape) => Ok(shape),
        _ => unreachable!(),
    }
}

/// The bases of the plan.
pub fn base_pair<S: Shelf>(reader: &mut CertReader, shelf: &mut S) -> Result<(u32, u32), ItemFault>
    requires asks { (feeds outs directs : ℕ) × (reader.old.state ≡ states.Bases feeds outs directs) }
    requires used_up { IsTrue reader.old.ended → IsUsedUp (S.told shelf.old).rest }
    ensures { Reads bases_item (λ x. behind_item reader.old.state (bases_item x)) (moment reader.old (S.told shelf.old)) (moment reader.new (S.told shelf.new)) result }
{
    match next(reader, shelf)? {
        Item::Bases(base, flow_base) => Ok((base, flow_base)),
        _ => unreachable!(),
    }
}

/// How many splits come.
pub fn splits<S: Shelf>(reader: &mut CertReader, shelf: &mut S) -> Result<u32, ItemFault>
    requires asks { (k : AKind) × (reader.old.state ≡ states.Splits k) }
    requires used_up { IsTrue reader.old.ended → IsUsedUp (S.told shelf.old).rest }
    ensures { Reads items.splits (λ x. behind_item reader.old.state (items.splits x)) (moment reader.old (S.told shelf.old)) (moment reader.new (S.told shelf.new)) result }
{
    match next(reader, shelf)? {
        Item::Splits(count) => Ok(count),
        _ => unreachable!(),
    }
}

/// A split.
pub fn cut<S: Shelf>(reader: &mut CertReader, shelf: &mut S) -> Result<Split, ItemFault>
    requires asks { (k : AKind) × (behind : ℕ) × (reader.old.state ≡ states.Cut k behind) }
    requires used_up { IsTrue reader.old.ended → IsUsedUp (S.told shelf.old).rest }
    ensures { Reads cut_item (λ x. behind_item reader.old.state (cut_item x)) (moment reader.old (S.told shelf.old)) (moment reader.new (S.told shelf.new)) result }
{
    match next(reader, shelf)? {
        Item::Cut(split) => Ok(split),
        _ => unreachable!(),
    }
}

/// How many proofs come.
pub(crate) fn proofs<S: Shelf>(reader: &mut CertReader, shelf: &mut S) -> Result<u32, ItemFault>
    requires asks { (k : AKind) × (reader.old.state ≡ states.Proofs k) }
    requires used_up { IsTrue reader.old.ended → IsUsedUp (S.told shelf.old).rest }
    ensures { Reads items.proofs (λ x. behind_item reader.old.state (items.proofs x)) (moment reader.old (S.told shelf.old)) (moment reader.new (S.told shelf.new)) result }
{
    match next(reader, shelf)? {
        Item::Proofs(count) => Ok(count),
        _ => unreachable!(),
    }
}

/// The head of a proof.
pub(crate) fn head<S: Shelf>(reader: &mut CertReader, shelf: &mut S) -> Result<LineHead, ItemFault>
    requires asks { (k : AKind) × (behind : ℕ) × (reader.old.state ≡ states.Head k behind) }
    requires used_up { IsTrue reader.old.ended → IsUsedUp (S.told shelf.old).rest }
    ensures { Reads head_item (λ x. behind_item reader.old.state (head_item x)) (moment reader.old (S.told shelf.old)) (moment reader.new (S.told shelf.new)) result }
{
    match next(reader, shelf)? {
        Item::ProofHead(node, scale, count) => Ok(LineHead { node, scale, count }),
        _ => unreachable!(),
    }
}

/// A part of a proof.
pub(crate) fn part<S: Shelf>(reader: &mut CertReader, shelf: &mut S) -> Result<Part, ItemFault>
    requires asks { (k : AKind) × (behind proofs : ℕ) × (reader.old.state ≡ states.Part k behind proofs) }
    requires used_up { IsTrue reader.old.ended → IsUsedUp (S.told shelf.old).rest }
    ensures { Reads part_item (λ x. behind_item reader.old.state (part_item x)) (moment reader.old (S.told shelf.old)) (moment reader.new (S.told shelf.new)) result }
{
    match next(reader, shelf)? {
        Item::OnePart(part) => Ok(part),
        _ => unreachable!(),
    }
}

/// The cost that is claimed, and its base.
pub fn cost_pair<S: Shelf>(reader: &mut CertReader, shelf: &mut S) -> Result<(i128, u64), ItemFault>
    requires asks { reader.old.state ≡ states.Cost }
    requires used_up { IsTrue reader.old.ended → IsUsedUp (S.told shelf.old).rest }
    ensures { Reads cost_item (λ x. behind_item reader.old.state (cost_item x)) (moment reader.old (S.told shelf.old)) (moment reader.new (S.told shelf.new)) result }
{
    match next(reader, shelf)? {
        Item::CostIs(cost, base) => Ok((cost, base)),
        _ => unreachable!(),
    }
}

/// The bound that is claimed.
pub fn bound_number<S: Shelf>(reader: &mut CertReader, shelf: &mut S) -> Result<i128, ItemFault>
    requires asks { (reader.old.state ≡ states.Bound) ⊎ ((base : ℕ) × (reader.old.state ≡ states.GapBound base)) }
    requires used_up { IsTrue reader.old.ended → IsUsedUp (S.told shelf.old).rest }
    ensures { Reads items.bound_is (λ x. behind_item reader.old.state (items.bound_is x)) (moment reader.old (S.told shelf.old)) (moment reader.new (S.told shelf.new)) result }
{
    match next(reader, shelf)? {
        Item::BoundIs(bound) => Ok(bound),
        _ => unreachable!(),
    }
}

/// The gap that is claimed, over the base of the cost before it.
pub fn gap_number<S: Shelf>(reader: &mut CertReader, shelf: &mut S) -> Result<i128, ItemFault>
    requires asks { (base : ℕ) × (reader.old.state ≡ states.Gap base) }
    requires used_up { IsTrue reader.old.ended → IsUsedUp (S.told shelf.old).rest }
    ensures { Reads (gap_item reader.old.state) (λ x. behind_item reader.old.state (gap_item reader.old.state x))
        (moment reader.old (S.told shelf.old)) (moment reader.new (S.told shelf.new)) result }
{
    match next(reader, shelf)? {
        Item::GapIs(gap, _) => Ok(gap),
        _ => unreachable!(),
    }
}

/// The last line, and nothing behind it.
pub fn end<S: Shelf>(reader: &mut CertReader, shelf: &mut S) -> Result<(), ItemFault>
    requires asks { reader.old.state ≡ states.End }
    requires used_up { IsTrue reader.old.ended → IsUsedUp (S.told shelf.old).rest }
    ensures { ReadsEnd (moment reader.old (S.told shelf.old)) (moment reader.new (S.told shelf.new)) result }
{
    match next(reader, shelf)? {
        Item::End => Ok(()),
        _ => unreachable!(),
    }
}
