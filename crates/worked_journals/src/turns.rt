//! A journal of version 1 that goes on in version 2, stopped in each call of the system.

use crate::sessions::{first_lost, is_closed, last_image};
use blend_network::Network;
use edge_io::Memory;
use std::alloc::Global;
use std::test::Fail;
use worked_devices::disk_of;
use worked_networks::{HAVERLY_1, network};

/// A file of version 1 with the text of the runs, and one record: the plan of Haverly 1 that ships nothing.
const FIRST: &[u8] =
    b"\x01POOLJNL\x01\x00\x00\x00\x09Haverly 1\x01\x00\x00\x00\x37\x02\x00\x00\x00\x01\x00\x00\x00\x01\x00\x02\x00\x00\x00\x01\x00\x00\x00\x00\x00\x02\x00\x00\x00\x00\x00\x00\x00\x00\x00\x00\x00\x00\x00\x00\x00\x00\x00\x02\x00\x00\x00\x00\x00\x00\x00\x00\x00\x00\x00\x00\x00\x00\x00\x00\x00";

/// The record of the Turn, with its open gate.
const TURN: &[u8] = &[1, 0, 0, 0, 1, 4];

/// The file once a run over it has ended.
fn ended_file(alloc: Global, net: &Network) -> Result<Vec<u8>, Memory> {
    let mut disk = disk_of(alloc, &[FIRST], 1_000)?;
    match is_closed(alloc, net, &mut disk) {
        Some(_) => last_image(&disk, 0),
        None => Err(Memory),
    }
}

/// Whether what stands behind the one record of the file is the Turn, once a run over it has ended.
fn turns(alloc: Global, net: &Network) -> Result<bool, Memory> {
    let image = ended_file(alloc, net)?;
    let start = (FIRST.len() - 1).min(image.len());
    Ok(image[start..].starts_with(TURN))
}

/// The first of so many calls in which a run over the file is stopped and does not go on, or their number where no Turn is recorded.
fn lost(alloc: Global, calls: u64) -> Result<Option<u64>, Fail> {
    let net = network(alloc, HAVERLY_1)?;
    if turns(alloc, &net)? {
        Ok(first_lost(alloc, &net, FIRST, 1, calls))
    } else {
        Ok(Some(calls))
    }
}

/// Nine calls of the opening, and four of the Turn, come before the first entry.
#[test]
fn a_file_of_version_1_goes_on_from_a_stop_in_any_call(rt: HostRuntime) -> Result<(), Fail> {
    assert_eq!(rt; lost(rt.alloc(), 26)?, None);
    Ok(())
}
