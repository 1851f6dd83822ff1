//! Look-ups that need no proof of their place: past the end there is a stand-in to read, and a write does nothing.

/// No place in any list.
pub const NOWHERE: usize = usize::MAX;

/// The item at `place`, or `other` past the end.
#[inline]
pub fn at<T: Copy>(items: &[T], place: usize, other: T) -> T {
    if place < items.len() {
        items[place]
    } else {
        other
    }
}

/// Writes `item` at `place`, if that is not past the end.
#[inline]
pub fn put<T: Copy>(items: &mut [T], place: usize, item: T) {
    if place < items.len() {
        items[place] = item;
    }
}
