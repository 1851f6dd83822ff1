//! From the bytes of a file to what it says.

ghost use Rattle.std.specs.Prelude.{IfOk, IfErr};
ghost use Rattle.std.specs.Option.{ok_or};
ghost use Rattle.serde_json.specs.View.{view};
ghost use Rattle.pool_model.specs.Rows.{IsRectangular};
ghost use Rattle.network_parts.specs.Parts.{rows_of};
ghost use Rattle.json_walk.specs.Walk.{Gives};
ghost use Rattle.network_json.specs.Reading.{ReadAs, IsRefusal};
ghost use Rattle.network_json.specs.Format.{rows_in, value_of as spelled_value};
ghost use Rattle.json_walk.specs.declared.fault.ReadNet.TheVariants.{NotJson};

use crate::tables::network;
use blend_network::{Network, Parts};
use json_walk::ReadNet;
use network_checks::build_network;
use serde_json::Value;
use std::alloc::Global;

/// The longest text that is read, in bytes.
pub const MAX_TEXT: usize = 4_194_304;

/// The network that the bytes are a file of, or the first reason why they are none.
///
/// A text longer than `MAX_TEXT` and one that is no JSON are refused first, then the first fault in the order of the walk,
/// and then what `build_network` refuses.
pub fn read_network(alloc: Global, bytes: &[u8]) -> Result<Network, ReadNet>
    // Promise: A file is read as the network of its rows, or memory ran out
    ensures read { IfOk result (ReadAs bytes.now) }
    // Promise: A file that is no network is refused for its first fault: of the walk, with its place, or else of its rows
    ensures refused { IfErr result (IsRefusal bytes.now) }
{
    let parts = read_rows(alloc, bytes)?;
    Ok(build_network(alloc, parts)?)
}

/// What the file says, or its first fault.
#[tactic(auto, unfolding(crate::specs::Format::rows_in, crate::specs::Format::value_of))]
pub fn read_rows(alloc: Global, bytes: &[u8]) -> Result<Parts, ReadNet>
    ensures rows { Gives rows_of result (rows_in bytes.now) }
    ensures rectangular { IfOk result (λ parts. IsRectangular (rows_of parts)) }
{
    if bytes.len() > MAX_TEXT {
        return Err(ReadNet::TooLong);
    }
    let value = value_of(alloc, bytes)?;
    network(alloc, &value)
}

/// The value that `serde_json` reads.
fn value_of(alloc: Global, bytes: &[u8]) -> Result<Value, ReadNet>
    ensures { Gives view result (ok_or (spelled_value bytes.now) NotJson) }
{
    match Value::from_slice(alloc, bytes) {
        Ok(value) => Ok(value),
        Err(e) => if e.is_memory() {
            Err(ReadNet::Memory)
        } else {
            Err(ReadNet::NotJson)
        },
    }
}
