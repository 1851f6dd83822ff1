//! The items of the words of the command line: which words are a command with items that fit it, and what `clap` makes of them.
//!
//! The first word is the command; behind it stand positionals and options in any order, an option as `--name value` or
//! `--name=value`, each at most once. A command may end with 1 to 64 positionals of one name. `clap` reads the words of this form, and no
//! others reach it.
//!
//! The layer above may use:
//!
//! - [`has_form`]: whether the words are a command and items that fit it.
//! - [`matches_of`]: what `clap` makes of the words. Of words of the form it fails only for want of memory.
//! - [`entered`], [`text_of`], [`texts_of`]: the command that was met, the value under a name, and all values under a name.
//!
//! `specs/Items.antt` has the items of words, `specs/Lines.antt` the table of commands, each with its positionals and its options,
//! and what `clap` is told of it, and `specs/Commands.antt` which words are a command of the table, with the value under each name.
//! What a value says, and what is asked by a command with its values, is left to the layer above.
//!
//! Proofs above may cite, of `proofs/`: `Tables` (words that are a command of the table and its items have the form) and `Entering` (the
//! command that `clap` meets in words of the form, and that its rows say what the items say).
#![tactic(auto)]

mod items;
mod program;

pub use items::has_form;
pub use program::{entered, matches_of, text_of, texts_of};
