//! The network in a file.

ghost use Rattle.std.specs.Prelude.{◌≡◌, ◌⊎◌, Err, IsTrue, IfOk, IfErr};
ghost use Rattle.shelf_calls.specs.Told.{Keeps};
ghost use Rattle.run_status.specs.Reads.{ReadsUnder};
ghost use Rattle.run_status.specs.Took.{unread_status};
ghost use Rattle.run_status.specs.Unreads.{IsCauseOf, IsUnread, unread_by};
ghost use Rattle.run_status.specs.declared.reading.Unread.TheVariants as unread;

use crate::status::Status;
use blend_network::{NetFault, Network};
use network_json::{MAX_TEXT, ReadNet, read_network};
use shelf_calls::{Shelf, ShelfFault};
use std::alloc::Global;

/// Why no network was read from a file.
#[derive(Debug, Drop)]
pub enum Unread {
    /// It is no network.
    Refused(ReadNet),
    /// The shelf failed.
    Failed,
    /// Memory ran out.
    Memory,
}

impl From<Unread> for Status {
    ghost from_gives = { λ why status. status ≡ unread_status why };

    fn from(why: Unread) -> Status {
        match why {
            Unread::Refused(cause) => Status::NetworkRefused(cause),
            Unread::Failed => Status::ReadFault,
            Unread::Memory => Status::OutOfMemory,
        }
    }
}

impl From<ShelfFault> for Unread {
    ghost from_gives = { λ fault why. why ≡ unread_by fault };

    // Promise: Of what a shelf may say of the file of NET want of memory alone is made 23: a failure is made 20, and too many bytes 3
    fn from(fault: ShelfFault) -> Unread {
        match fault {
            ShelfFault::Failed => Unread::Failed,
            ShelfFault::TooLong => Unread::Refused(ReadNet::TooLong),
            ShelfFault::Memory => Unread::Memory,
        }
    }
}

/// The network in the file of this name.
pub fn network_under<S: Shelf>(alloc: Global, name: &str, shelf: &mut S) -> Result<Network, Unread>
    requires { IsTrue ((S.told shelf.old).admits name.now) }
    ensures reads { IfOk result (ReadsUnder (S.told shelf.old).files name.now) }
    ensures unread { IfErr result (IsUnread name.now (S.told shelf.old) (S.told shelf.new)) }
    // Promise: Under every status but 20 the count of faults of the shelf is as it was: a call of the shelf that failed is never told as want of
    //   memory (23) or as anything else
    ensures quiet { (result ≡ Err unread.Failed) ⊎ ((S.told shelf.new).faults ≡ (S.told shelf.old).faults) }
    ensures kept { Keeps (S.told shelf.old) (S.told shelf.new) }
{
    match shelf.read_all(alloc, name, MAX_TEXT) {
        Ok(bytes) => read_network(alloc, &bytes).map_err(cause_of),
        Err(fault) => Err(Unread::from(fault)),
    }
}

/// Why bytes that the shelf gave are no network. They are never too long, since it was asked for no more.
fn cause_of(cause: ReadNet) -> Unread
    // Promise: Of the causes for which bytes of NET are no network want of memory alone is made 23: every other is told as it is (3)
    ensures { IsCauseOf cause result }
{
    match cause {
        ReadNet::Net(NetFault::Memory) | ReadNet::Memory | ReadNet::TooLong => Unread::Memory,
        cause => Unread::Refused(cause),
    }
}
