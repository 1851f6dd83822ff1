//! The words of the command line, as the runtime has them.

use cli_words::WordsFault;
use std::env;
use std::io::ErrorKind;
use std::rt::Env;

/// The words behind the program's name. Words that are no text ask nothing.
pub fn words_of(rt: &(impl Env + AllocGlobal)) -> Result<Vec<String>, WordsFault> {
    match env::args(rt) {
        Ok(args) => args
            .skip(1)
            .collect(rt.alloc())
            .map_err(|_| WordsFault::Memory),
        Err(e) if e.kind() == ErrorKind::OutOfMemory => Err(WordsFault::Memory),
        Err(_) => Err(WordsFault::Usage),
    }
}
