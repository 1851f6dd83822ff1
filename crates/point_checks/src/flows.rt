//! Flows by arc.

/// Flows by arc, over a base: so many parts of a millionth.
#[derive(Clone, Copy)]
pub struct Flows<'a> {
    pub base: u64,
    pub feeds: &'a [u128],
    pub outs: &'a [u128],
    pub directs: &'a [u128],
}
