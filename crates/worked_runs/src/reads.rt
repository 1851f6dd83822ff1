//! `check` over a shelf that fails.

use super::runs::{ended, shelf_of, told};
use edge_io::MemSink;
use std::alloc::{AllocError, Global};
use std::test::Fail;
use worked_certificates::FULL;
use worked_devices::empty_disk;
use worked_networks::ONE_DIRECT;

/// What `check` answers on a certificate of 160 bytes in pieces of 7, where each call of the shelf fails in its turn: the network, the
/// opening, 23 pieces and the end are 26 calls.
fn failing_calls(alloc: Global, certificate: &str) -> Result<String, AllocError> {
    let mut answers = String::new(alloc);
    for failing in 0..26 {
        let mut shelf = shelf_of(alloc, [ONE_DIRECT, certificate], failing)?;
        shelf.pieces(7);
        let mut sink = MemSink::new(alloc, Vec::new(alloc));
        let mut disk = empty_disk(alloc);
        let status = ended(alloc, "check net cert", &mut shelf, &mut sink, &mut disk)?;
        answers.push_str(&told(alloc, status.code(), &sink)?)?;
    }
    Ok(answers)
}

/// Whichever call fails, nothing is written, also where a cause to refuse the certificate was found before.
#[test]
fn a_read_that_fails_before_the_end_is_a_read_fault(rt: HostRuntime) -> Result<(), Fail> {
    let alloc = rt.alloc();
    let failed = "20 ".repeat(alloc, 26)?;
    for shape in ["shape 1 0 1 1 0 0 1", "shape 1 0 1 2 0 0 1"] {
        let certificate = FULL.replace(alloc, "shape 1 0 1 1 0 0 1", shape)?;
        let told = failing_calls(alloc, certificate.as_str())?;
        assert_eq!(rt; told.as_str(), failed.as_str(), "of {shape}");
    }
    Ok(())
}
