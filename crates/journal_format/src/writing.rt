//! Entries, written as their bytes in version 2; and the Turn.

ghost use Rattle.std.specs.Prelude.{◌≡◌, ◌+◌, ◌*◌, ◌^◌, ◌<◌, ◌≤◌, ◌-◌, map, option_map, min, length};
ghost use Rattle.std.specs.List.{flat_map, AllByRecursion};
ghost use Rattle.box_space.specs.Views.{shown_part, shown_proof, shown_split};
ghost use Rattle.plan_core.specs.Views.{shown_plan};
ghost use Rattle.box_tree.specs.Views.{shown_entry};
ghost use Rattle.journal_format.specs.Fields.{field};
ghost use Rattle.journal_format.specs.Payload.{part_bytes, proof_bytes, half_bytes, split_bytes, list_bytes, plan_bytes, payload, turn_payload, PartFits, ProofFits, HalfFits};
ghost use Rattle.journal_format.specs.Payload.{SplitFits, ListFits, PlanFits, EntryFits, IsNarrow, IsNarrowPlan};
ghost use Rattle.journal_format.specs.Files.{behind_gate};
ghost use Rattle.journal_format.specs.Pages.{with_bytes};
ghost use Rattle.journal_format.specs.declared.version.Version.TheVariants.{Two};

use crate::fields::{i64_field, u16_field, u32_field, u64_field};
use crate::page::Page;
use box_space::{Part, Proof, Split};
use box_tree::Entry;
use plan_core::WrittenPlan;

// ---- lengths

/// How many bytes an entry's payload has in version 2; `u64::MAX` where there are more.
#[tactic(auto, using(crate::proofs::Lengths::sizes))]
pub fn payload_len(entry: &Entry) -> u64
    // Promise: How long the payload of an entry is
    ensures { result ≡ min (length (payload Two (shown_entry entry.now))) (2 ^ 64 - 1) }
{
    match entry {
        Entry::Root(proof) => proof_len(proof).saturating_add(1),
        Entry::SplitOf(_, left, right) => half_len(left)
            .saturating_add(half_len(right))
            .saturating_add(17),
        Entry::Improve(plan) => plan_len(plan).saturating_add(1),
    }
}

#[tactic(auto, using(crate::proofs::Lengths::sizes))]
fn proof_len(proof: &Proof) -> u64
    ensures { result ≡ min (length (proof_bytes (shown_proof proof.now))) (2 ^ 64 - 1) }
{
    let parts = proof.parts.len() as u64;
    parts.saturating_mul(12).saturating_add(12)
}

#[tactic(auto, using(crate::proofs::Lengths::sizes))]
fn half_len(half: &Option<Proof>) -> u64
    ensures { result ≡ min (length (half_bytes (option_map shown_proof half.now))) (2 ^ 64 - 1) }
{
    match half {
        None => 1,
        Some(proof) => proof_len(proof).saturating_add(1),
    }
}

#[tactic(auto, using(crate::proofs::Lengths::sizes))]
fn plan_len(plan: &WrittenPlan) -> u64
    ensures { result ≡ min (length (plan_bytes (shown_plan plan.now))) (2 ^ 64 - 1) }
{
    let weights = (plan.weights.len() as u64).saturating_mul(4);
    let outflows = (plan.outflows.len() as u64).saturating_mul(8);
    let direct = (plan.direct.len() as u64).saturating_mul(8);
    weights
        .saturating_add(outflows)
        .saturating_add(direct)
        .saturating_add(14)
}

// ---- bytes

fn put_part(page: &mut Page, part: &Part)
    requires { length page.old.bytes + 12 ≤ page.old.room }
    ensures bytes { page.new ≡ with_bytes page.old (part_bytes (shown_part part.now)) }
    ensures fits { PartFits (shown_part part.now) }
{
    page.put(&u32_field(part.row));
    page.put(&i64_field(part.mult));
}

#[tactic(auto, using(crate::proofs::Lengths::sizes))]
fn put_parts(page: &mut Page, parts: &[Part])
    requires { length page.old.bytes + 12 * length parts.now ≤ page.old.room }
    ensures bytes { page.new ≡ with_bytes page.old (flat_map part_bytes (map shown_part parts.now)) }
    ensures fits { AllByRecursion PartFits (map shown_part parts.now) }
{
    for part in parts {
        put_part(page, part);
    }
}

#[tactic(auto, using(crate::proofs::Lengths::sizes))]
fn put_proof(page: &mut Page, proof: &Proof)
    requires count { length proof.now.parts.items < 2 ^ 32 }
    requires room { length page.old.bytes + 12 + 12 * length proof.now.parts.items ≤ page.old.room }
    ensures bytes { page.new ≡ with_bytes page.old (proof_bytes (shown_proof proof.now)) }
    ensures fits { ProofFits (shown_proof proof.now) }
{
    page.put(&u64_field(proof.scale));
    page.put(&u32_field(proof.parts.len() as u32));
    put_parts(page, proof.parts.as_slice());
}

#[tactic(auto, using(crate::proofs::Lengths::sizes))]
fn put_half(page: &mut Page, half: &Option<Proof>)
    requires short { length (half_bytes (option_map shown_proof half.now)) < 2 ^ 32 }
    requires room { length page.old.bytes + length (half_bytes (option_map shown_proof half.now)) ≤ page.old.room }
    ensures bytes { page.new ≡ with_bytes page.old (half_bytes (option_map shown_proof half.now)) }
    ensures fits { HalfFits (option_map shown_proof half.now) }
{
    match half {
        None => page.put(&[0]),
        Some(proof) => {
            page.put(&[1]);
            put_proof(page, proof);
        }
    }
}

fn put_split(page: &mut Page, split: &Split)
    requires { length page.old.bytes + 16 ≤ page.old.room }
    ensures bytes { page.new ≡ with_bytes page.old (split_bytes Two (shown_split split.now)) }
    ensures fits { SplitFits Two (shown_split split.now) }
{
    page.put(&u32_field(split.leaf));
    page.put(&u32_field(split.coord));
    page.put(&i64_field(split.cut));
}

#[tactic(auto, using(crate::proofs::Lengths::sizes))]
fn put_u32s(page: &mut Page, numbers: &[u32])
    requires { length page.old.bytes + 4 * length numbers.now ≤ page.old.room }
    ensures bytes { page.new ≡ with_bytes page.old (flat_map (field 4) numbers.now) }
    ensures fits { AllByRecursion (λ x. x < 256 ^ 4) numbers.now }
{
    for number in numbers {
        page.put(&u32_field(*number));
    }
}

#[tactic(auto, using(crate::proofs::Lengths::sizes))]
fn put_u64s(page: &mut Page, numbers: &[u64])
    requires { length page.old.bytes + 8 * length numbers.now ≤ page.old.room }
    ensures bytes { page.new ≡ with_bytes page.old (flat_map (field 8) numbers.now) }
    ensures fits { AllByRecursion (λ x. x < 256 ^ 8) numbers.now }
{
    for number in numbers {
        page.put(&u64_field(*number));
    }
}

fn put_weights(page: &mut Page, weights: &[u32])
    requires narrow { length weights.now < 2 ^ 16 }
    requires room { length page.old.bytes + 2 + 4 * length weights.now ≤ page.old.room }
    ensures bytes { page.new ≡ with_bytes page.old (list_bytes 4 weights.now) }
    ensures fits { ListFits 4 weights.now }
{
    page.put(&u16_field(weights.len() as u16));
    put_u32s(page, weights);
}

fn put_flows(page: &mut Page, flows: &[u64])
    requires narrow { length flows.now < 2 ^ 16 }
    requires room { length page.old.bytes + 2 + 8 * length flows.now ≤ page.old.room }
    ensures bytes { page.new ≡ with_bytes page.old (list_bytes 8 flows.now) }
    ensures fits { ListFits 8 flows.now }
{
    page.put(&u16_field(flows.len() as u16));
    put_u64s(page, flows);
}

#[tactic(auto, using(crate::proofs::Lengths::sizes))]
fn put_plan(page: &mut Page, plan: &WrittenPlan)
    requires narrow { IsNarrowPlan (shown_plan plan.now) }
    requires room { length page.old.bytes + length (plan_bytes (shown_plan plan.now)) ≤ page.old.room }
    ensures bytes { page.new ≡ with_bytes page.old (plan_bytes (shown_plan plan.now)) }
    ensures fits { PlanFits (shown_plan plan.now) }
{
    page.put(&u32_field(plan.base));
    page.put(&u32_field(plan.flow_base));
    put_weights(page, plan.weights.as_slice());
    put_flows(page, plan.outflows.as_slice());
    put_flows(page, plan.direct.as_slice());
}

/// Puts the bytes of an entry behind what the page holds.
#[tactic(auto, using(crate::proofs::Lengths::sizes))]
fn put_payload(page: &mut Page, entry: &Entry)
    requires narrow { IsNarrow (shown_entry entry.now) }
    requires short { length (payload Two (shown_entry entry.now)) < 2 ^ 32 }
    requires room { length page.old.bytes + length (payload Two (shown_entry entry.now)) ≤ page.old.room }
    ensures bytes { page.new ≡ with_bytes page.old (payload Two (shown_entry entry.now)) }
    ensures fits { EntryFits Two (shown_entry entry.now) }
{
    match entry {
        Entry::Root(proof) => {
            page.put(&[0]);
            put_proof(page, proof);
        }
        Entry::SplitOf(split, left, right) => {
            page.put(&[3]);
            put_split(page, split);
            put_half(page, left);
            put_half(page, right);
        }
        Entry::Improve(plan) => {
            page.put(&[2]);
            put_plan(page, plan);
        }
    }
}

/// Puts together what is written behind a gate: the length of the payload in version 2, the payload, and a closed gate. What the page
/// held is taken out first.
#[tactic(auto, using(crate::proofs::Lengths::sizes))]
pub fn put_behind_gate(page: &mut Page, size: u32, entry: &Entry)
    requires size { size ≡ length (payload Two (shown_entry entry.now)) }
    requires narrow { IsNarrow (shown_entry entry.now) }
    requires room { size + 5 ≤ page.old.room }
    ensures bytes { page.new ≡ record { bytes = behind_gate (payload Two (shown_entry entry.now)); room = page.old.room } }
    ensures fits { EntryFits Two (shown_entry entry.now) }
{
    page.clear();
    page.put(&u32_field(size));
    put_payload(page, entry);
    page.put(&[0]);
}

/// What is written behind a gate where the Turn is recorded.
#[tactic(auto, unfolding(crate::specs::Fields::field))]
pub fn turn_behind_gate() -> [u8; 6]
    ensures { result ≡ behind_gate turn_payload }
{
    [0, 0, 0, 1, 4, 0]
}
