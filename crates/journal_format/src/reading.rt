//! Entries, read from their bytes, in either version.

ghost use Rattle.std.specs.Prelude.{◌≡◌, ◌↔◌, map, option_map, IsTrue, IfOk};
ghost use Rattle.box_space.specs.Views.{shown_part, shown_proof, shown_split};
ghost use Rattle.plan_core.specs.Views.{shown_plan};
ghost use Rattle.box_tree.specs.Views.{shown_entry};
ghost use Rattle.journal_format.specs.Versions.{leaf_width};
ghost use Rattle.journal_format.specs.Payload.{payload, turn_payload, EntryFits};
ghost use Rattle.journal_format.specs.Fields.{number_at};
ghost use Rattle.journal_format.specs.Gives.{Gives};
ghost use Rattle.journal_format.specs.Reading.{part_at, parts_at, proof_at, half_at, split_at, numbers_at, list_at, plan_at, root_entry_at, split_entry_at, plan_entry_at, entry_at, payload_at};

use crate::fault::EntryUnread;
use crate::fields::{i64_at, u16_at, u32_at, u64_at};
use crate::version::Version;
use box_space::{Part, Proof, Split};
use box_tree::Entry;
use plan_core::WrittenPlan;
use std::alloc::Global;

/// The payload of the Turn.
const TURN: [u8; 1] = [4];

// Each of these answers what stands at the front, and the bytes behind it.

#[tactic(auto, unfolding(crate::specs::Reading::part_at))]
fn part(bytes: &[u8]) -> Result<(Part, &[u8]), EntryUnread>
    ensures { Gives (λ x. (shown_part x.0, x.1.now)) result (part_at bytes.now) }
{
    let (row, rest) = u32_at(bytes)?;
    let (mult, rest) = i64_at(rest)?;
    Ok((Part { row, mult }, rest))
}

fn parts(alloc: Global, count: u32, bytes: &[u8]) -> Result<(Vec<Part>, &[u8]), EntryUnread>
    ensures { Gives (λ x. (map shown_part x.0.items, x.1.now)) result (parts_at count bytes.now) }
{
    let mut parts = Vec::new(alloc);
    let mut rest = bytes;
    for _ in 0..count {
        let (next, behind) = part(rest)?;
        parts.push(next)?;
        rest = behind;
    }
    Ok((parts, rest))
}

#[tactic(auto, unfolding(crate::specs::Reading::proof_at))]
fn proof(alloc: Global, bytes: &[u8]) -> Result<(Proof, &[u8]), EntryUnread>
    ensures { Gives (λ x. (shown_proof x.0, x.1.now)) result (proof_at bytes.now) }
{
    let (scale, rest) = u64_at(bytes)?;
    let (count, rest) = u32_at(rest)?;
    let (parts, rest) = parts(alloc, count, rest)?;
    Ok((Proof { scale, parts }, rest))
}

#[tactic(auto, unfolding(crate::specs::Reading::half_at))]
fn half(alloc: Global, bytes: &[u8]) -> Result<(Option<Proof>, &[u8]), EntryUnread>
    ensures { Gives (λ x. (option_map shown_proof x.0, x.1.now)) result (half_at bytes.now) }
{
    match bytes {
        [0, rest @ ..] => Ok((None, rest)),
        [1, rest @ ..] => {
            let (proof, rest) = proof(alloc, rest)?;
            Ok((Some(proof), rest))
        }
        _ => Err(EntryUnread::Malformed),
    }
}

fn leaf(version: Version, bytes: &[u8]) -> Result<(u32, &[u8]), EntryUnread>
    ensures { Gives (λ x. (x.0, x.1.now)) result (number_at (leaf_width version) bytes.now) }
{
    match version {
        Version::One => {
            let (leaf, rest) = u16_at(bytes)?;
            Ok((u32::from(leaf), rest))
        }
        Version::Two => u32_at(bytes),
    }
}

#[tactic(auto, unfolding(crate::specs::Reading::split_at))]
fn split(version: Version, bytes: &[u8]) -> Result<(Split, &[u8]), EntryUnread>
    ensures { Gives (λ x. (shown_split x.0, x.1.now)) result (split_at version bytes.now) }
{
    let (leaf, rest) = leaf(version, bytes)?;
    let (coord, rest) = u32_at(rest)?;
    let (cut, rest) = i64_at(rest)?;
    Ok((Split { leaf, coord, cut }, rest))
}

fn u32s(alloc: Global, count: u16, bytes: &[u8]) -> Result<(Vec<u32>, &[u8]), EntryUnread>
    ensures { Gives (λ x. (x.0.items, x.1.now)) result (numbers_at 4 count bytes.now) }
{
    let mut numbers = Vec::new(alloc);
    let mut rest = bytes;
    for _ in 0..count {
        let (next, behind) = u32_at(rest)?;
        numbers.push(next)?;
        rest = behind;
    }
    Ok((numbers, rest))
}

fn u64s(alloc: Global, count: u16, bytes: &[u8]) -> Result<(Vec<u64>, &[u8]), EntryUnread>
    ensures { Gives (λ x. (x.0.items, x.1.now)) result (numbers_at 8 count bytes.now) }
{
    let mut numbers = Vec::new(alloc);
    let mut rest = bytes;
    for _ in 0..count {
        let (next, behind) = u64_at(rest)?;
        numbers.push(next)?;
        rest = behind;
    }
    Ok((numbers, rest))
}

#[tactic(auto, unfolding(crate::specs::Reading::list_at))]
fn weights(alloc: Global, bytes: &[u8]) -> Result<(Vec<u32>, &[u8]), EntryUnread>
    ensures { Gives (λ x. (x.0.items, x.1.now)) result (list_at 4 bytes.now) }
{
    let (count, rest) = u16_at(bytes)?;
    u32s(alloc, count, rest)
}

#[tactic(auto, unfolding(crate::specs::Reading::list_at))]
fn flows(alloc: Global, bytes: &[u8]) -> Result<(Vec<u64>, &[u8]), EntryUnread>
    ensures { Gives (λ x. (x.0.items, x.1.now)) result (list_at 8 bytes.now) }
{
    let (count, rest) = u16_at(bytes)?;
    u64s(alloc, count, rest)
}

#[tactic(auto, unfolding(crate::specs::Reading::plan_at))]
fn plan(alloc: Global, bytes: &[u8]) -> Result<(WrittenPlan, &[u8]), EntryUnread>
    ensures { Gives (λ x. (shown_plan x.0, x.1.now)) result (plan_at bytes.now) }
{
    let (base, rest) = u32_at(bytes)?;
    let (flow_base, rest) = u32_at(rest)?;
    let (weights, rest) = weights(alloc, rest)?;
    let (outflows, rest) = flows(alloc, rest)?;
    let (direct, rest) = flows(alloc, rest)?;
    let plan = WrittenPlan {
        base,
        flow_base,
        weights,
        outflows,
        direct,
    };
    Ok((plan, rest))
}

#[tactic(auto, unfolding(crate::specs::Reading::split_entry_at))]
fn split_entry(alloc: Global, version: Version, bytes: &[u8]) -> Result<(Entry, &[u8]), EntryUnread>
    ensures { Gives (λ x. (shown_entry x.0, x.1.now)) result (split_entry_at version bytes.now) }
{
    let (split, rest) = split(version, bytes)?;
    let (left, rest) = half(alloc, rest)?;
    let (right, rest) = half(alloc, rest)?;
    Ok((Entry::SplitOf(split, left, right), rest))
}

#[tactic(auto, unfolding(crate::specs::Reading::entry_at, crate::specs::Reading::root_entry_at, crate::specs::Reading::plan_entry_at))]
fn entry(alloc: Global, version: Version, bytes: &[u8]) -> Result<(Entry, &[u8]), EntryUnread>
    ensures { Gives (λ x. (shown_entry x.0, x.1.now)) result (entry_at version bytes.now) }
{
    match (version, bytes) {
        (_, [0, rest @ ..]) => {
            let (proof, rest) = proof(alloc, rest)?;
            Ok((Entry::Root(proof), rest))
        }
        (Version::One, [1, rest @ ..]) => split_entry(alloc, version, rest),
        (Version::Two, [3, rest @ ..]) => split_entry(alloc, version, rest),
        (_, [2, rest @ ..]) => {
            let (plan, rest) = plan(alloc, rest)?;
            Ok((Entry::Improve(plan), rest))
        }
        _ => Err(EntryUnread::Malformed),
    }
}

/// The entry whose bytes these are in that version, all of them. `Malformed` where they are no entry's.
pub fn read_payload(alloc: Global, version: Version, bytes: &[u8]) -> Result<Entry, EntryUnread>
    ensures exact { Gives shown_entry result (payload_at version bytes.now) }
    ensures spelled { IfOk result (λ e. (bytes.now ≡ payload version (shown_entry e)) × EntryFits version (shown_entry e)) }
{
    whole(alloc, version, bytes)
}

#[tactic(auto, unfolding(crate::specs::Reading::payload_at))]
fn whole(alloc: Global, version: Version, bytes: &[u8]) -> Result<Entry, EntryUnread>
    ensures { Gives shown_entry result (payload_at version bytes.now) }
{
    let (entry, rest) = entry(alloc, version, bytes)?;
    if rest.is_empty() {
        Ok(entry)
    } else {
        Err(EntryUnread::Malformed)
    }
}

/// Whether these bytes are the payload of the Turn, all of them.
pub fn is_turn(bytes: &[u8]) -> bool
    ensures { IsTrue result ↔ bytes.now ≡ turn_payload }
{
    bytes == TURN.as_slice()
}
