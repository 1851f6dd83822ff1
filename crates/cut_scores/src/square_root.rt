//! Square roots of whole numbers.

/// The square root, rounded down. Most numbers that a search takes roots of fit 64 bits, where that is much less work.
pub(crate) fn square_root(number: u128) -> u64 {
    match u64::try_from(number) {
        Ok(narrow) => narrow.isqrt(),
        Err(_) => u64::try_from(number.isqrt()).unwrap_or(u64::MAX),
    }
}
