//! The items of a certificate's text, one after another.
//!
//! An [`Item`] is a field of the text or a group of them. [`read_item`] reads the one that a [`State`] says comes next, from a source
//! of bytes, and says what the text goes on with. `specs/Items.antt` has the same as a function of bytes, `next_at`, and the items
//! of a certificate, `items_of`; [`stream_law`] says what items that come one after another show of the text.
//!
//! Where the bytes come from, and how many are held, is left to the layer above; so is whether what they say is true.
//!
//! Proofs above may cite, of `proofs/`: `Pieces` and `ItemPieces` (no item takes more than 128 bytes, and it is read in these as in the
//! whole), `ItemLaws` (what items say of the text) and `Lasts` (behind the last item, and behind no other, nothing comes).
#![tactic(auto)]

mod items;
mod laws;

pub use items::{Item, State, read_item};
pub use laws::stream_law;
