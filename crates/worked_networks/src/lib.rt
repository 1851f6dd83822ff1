//! Worked networks, for the tests of the crates above.
//!
//! Each network is the text of a network file; [`network`] reads it. The layer above may use all of it in tests, and nothing of it
//! elsewhere. What is read, written and made of networks is tried in `tests/worked_cases.py`.
#![tactic(auto)]

ghost use Rattle.std.specs.Prelude.{IfOk, IfErr};
ghost use Rattle.network_json.specs.Reading.{ReadAs, IsRefusal};

use blend_network::Network;
use network_json::{ReadNet, read_network};
use std::alloc::Global;

mod literature;
mod small;

pub use literature::{BEN_TAL_4, HAVERLY_1, HAVERLY_2, HAVERLY_3};
pub use small::{
    AS_TRIALS, CANONICAL_DESULFURED, CANONICAL_ONE_DIRECT, DESULFURED, FAR_APART, ONE_DIRECT,
    TWO_FEEDS, TWO_POOLS,
};

/// The network that the text is a file of.
pub fn network(alloc: Global, text: &str) -> Result<Network, ReadNet>
    ensures read { IfOk result (ReadAs text.now) }
    ensures refused { IfErr result (IsRefusal text.now) }
{
    read_network(alloc, text.as_bytes())
}
