//! Why no item came.

use cert_text::TextFault;

/// Why no item came.
#[derive(Clone, Copy, Debug, PartialEq, Eq)]
pub enum ItemFault {
    /// The shelf failed: its count of faults rose.
    Read,
    /// The file has more bytes than it may have.
    TooLong,
    /// No certificate has the file as its text.
    Text(TextFault),
}
