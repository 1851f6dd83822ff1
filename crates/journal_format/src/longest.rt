//! How long the payloads of a network's entries may be.

ghost use Rattle.std.specs.Prelude.{◌≡◌, ◌^◌, ◌≤◌, length};
ghost use Rattle.pool_model.specs.Network.{net_of};
ghost use Rattle.row_model.specs.Entries.{Searched, Entry, IsEntryInOrder};
ghost use Rattle.journal_format.specs.Payload.{payload, IsNarrow};
ghost use Rattle.journal_format.specs.Longest.{longest};
ghost use Rattle.journal_format.specs.declared.version.Version.{Version};

use blend_network::Network;
use row_book::rows;

/// What the payload of a split has beside the parts of its two proofs, in bytes: in version 2, and so no less than in version 1.
const SPLIT: u32 = 43;

/// What a row takes in the proofs of both halves of a split, in bytes.
const ROW: u32 = 24;

/// What the payload of a plan has beside its numbers, in bytes.
const PLAN: u32 = 15;

/// How many bytes the longest payload of an entry has that is in order on the network, in either version.
pub fn largest_payload(net: &Network) -> u32
    // Promise: No entry that is in order on a network has a longer payload than this
    ensures value { result ≡ longest (net_of net.now) }
    ensures small { result ≤ 2 ^ 20 }
    // Each entry in order has a payload that is no longer, and its counts fit their fields.
    // Promise: No entry that is in order on a network has a longer payload than this
    ensures enough { (v : Version) (s : Searched) (e : Entry) → IsEntryInOrder (net_of net.now) s e → length (payload v e) ≤ result }
    ensures narrow { (s : Searched) (e : Entry) → IsEntryInOrder (net_of net.now) s e → IsNarrow e }
{
    let sizes = net.sizes();
    let split = SPLIT + ROW * rows(net);
    let plan = PLAN + 4 * sizes.feeds + 8 * sizes.outs + 8 * sizes.directs;
    split.max(plan)
}
