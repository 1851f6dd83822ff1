//! Runs over a sink that takes so many bytes and no more, for every number of bytes below the text's length.

use edge_io::MemSink;
use std::alloc::Global;
use std::test::Fail;
use worked_certificates::FULL;
use worked_devices::empty_disk;
use worked_networks::ONE_DIRECT;
use worked_runs::{ended_on, told};

/// The line on the certificate, and what a person reads of it.
pub(crate) const LINE: &str =
    "accepted gap cost -300000000000000 base 1 bound -300000000000000 gap 0\n";

const REPORT: &str =
    "kind gap\ncost -300.000000\nbound -300.000000\ngap 0.000000\nflow           100.000000 A -> X\nquality             3.000000 X: sulfur\n\
    slack             0.000000 A\nslack             0.000000 X\n";

/// The exact program of the network.
const PROGRAM: &str =
    "program pq\nmin z0 -3000000\nends z0 0 100000000\nrow 0 ge 100000000 z0 -1\nrow 1 ge 100000000 z0 -1\nrow 2 ge 0 z0 1\nrow 4 ge 0\nend\n";

/// How a run ends over a sink with room for so many bytes: its code and, behind a space, what the sink has then.
fn cut(alloc: Global, asked: &str, room: u64) -> Result<String, Fail> {
    let mut sink = MemSink::limit(alloc, room)?;
    let mut disk = empty_disk(alloc);
    let status = ended_on(alloc, asked, [ONE_DIRECT, FULL], &mut sink, &mut disk)?;
    Ok(told(alloc, status.code(), &sink)?)
}

/// Whether a sink that is full before the text's end has exactly the front that it has room for, and one that is full at the end all
/// of it.
fn is_cut_at_each_byte(alloc: Global, asked: &str, text: &str) -> Result<bool, Fail> {
    for room in 0..=text.len() {
        let told = cut(alloc, asked, room as u64)?;
        let code = if room < text.len() { "21 " } else { "0 " };
        if told.as_str().strip_prefix(code) != text.get(..room) {
            return Ok(false);
        }
    }
    Ok(true)
}

#[test]
fn a_sink_that_is_full_has_a_front_of_the_text(rt: HostRuntime) -> Result<(), Fail> {
    for (asked, text) in [
        ("solve net", FULL),
        ("solve net --journal j", FULL),
        ("check net cert", LINE),
        ("report net cert", REPORT),
        ("formulate net", PROGRAM),
    ] {
        assert!(rt; is_cut_at_each_byte(rt.alloc(), asked, text)?, "of {asked}");
    }
    Ok(())
}
