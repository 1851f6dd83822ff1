//! The program over its devices: words, the system's numbers of files, shelf, disk, standard output and standard error to the code that the
//! process ends with.
//!
//! [`serve`] holds the standard streams (`file_numbers`), runs the words (`run` of `pool_cli`), writes the line of the status on standard
//! error and answers its code. Its contract cites what `run` promises: `IsRun` of `specs/Served.antt` has a field for each clause of it.
//!
//! The layer above may use `serve` and `words_of`, and brings the runtime's streams, files and numbers.
#![tactic(auto)]

mod arguments;
mod serving;

pub use arguments::words_of;
pub use serving::serve;
