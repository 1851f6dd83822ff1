//! The certificate in an opened file, item by item, in memory that does not grow with the file.
//!
//! A `CertReader` takes the bytes of a file as a shelf hands them out, in pieces of any lengths, and gives the items of the
//! certificate that they spell, one a call. Where no certificate has the file as its text it names the same line as
//! `read_cert` of the whole. Before it reads an item it holds 128 bytes, or all that is left of the file, and no item takes
//! more: so an item is read by a pure function of these bytes, that of `cert_items`, whose `Item` is passed on here.
//!
//! Whether a certificate is true is left to the checker, which judges each item as it comes.
//!
//! Proofs above may cite, of `proofs/`: `Calls` (calls that follow on one another, put together) and `Runs` (what calls from the
//! start of a file say of the file).
#![tactic(auto)]

mod cert_reader;
mod fault;
mod held;
mod laws;

pub use cert_items::{Item, stream_law};
pub use cert_reader::CertReader;
pub use fault::ItemFault;
pub use laws::run_law;
