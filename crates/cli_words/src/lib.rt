//! The words of the command line, read as a request.
//!
//! The first word is the command; behind it stand positionals and options in any order, an option as `--name value` or
//! `--name=value`, each at most once. `command_items` says which words are of this form, and has `clap` read them.
//!
//! The layer above may use:
//!
//! - `read_words`: the request that the words ask, or the reason why there is none.
//! - `Request`, `SolveWords`, `RuleName`, `WordsFault`.
//!
//! Which words ask what is defined in `specs/Asks.antt`, over the items of the words and the table of commands
//! (`command_items`, `specs/Items.antt` and `specs/Lines.antt`). `specs/Requests.antt` has a request without where it lies in
//! memory, and `specs/Views.antt` the way there. What a command does, and whether a file of that name is there, is left to the
//! layer above.
#![tactic(auto)]

mod reading;
mod request;
mod values;

pub use branching::RuleName;
pub use reading::read_words;
pub use request::{Request, SolveWords, WordsFault};
