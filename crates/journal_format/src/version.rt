//! The versions of a journal's bytes.

/// A version of the bytes. A file of version 1 goes on in version 2 behind its Turn; a file that is born now has version 2.
#[derive(Clone, Copy, Debug, PartialEq, Eq)]
pub enum Version {
    /// A split names its leaf in 16 bits.
    One,
    /// A split names its leaf in 32 bits.
    Two,
}
