//! The program: real files and streams round the top call.
#![tactic(auto)]

use disk_calls::{FileDisk, SystemFile};
use edge_io::{StdSink, SystemStream};
use file_numbers::SystemNumbers;
use pool_edge::{serve, words_of};
use shelf_calls::{FileShelf, SystemFiles};
use std::process::ExitCode;

fn main(rt: HostRuntime) -> ExitCode {
    let mut numbers = SystemNumbers::new(rt.alloc(), &rt);
    let mut shelf = FileShelf::new(SystemFiles::new(&rt));
    let mut disk = FileDisk::new(SystemFile::new(&rt));
    let mut out = StdSink::new(SystemStream::new(rt.stdout()));
    let mut err = StdSink::new(SystemStream::new(rt.stderr()));
    serve(
        rt.alloc(),
        words_of(&rt),
        &mut numbers,
        &mut shelf,
        &mut disk,
        &mut out,
        &mut err,
    )
}
