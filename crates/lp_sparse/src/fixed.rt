//! Whole numbers that stand for fractions, and arithmetic on them that always answers.
//!
//! A number with `b` bits behind the point stands for itself over `2^b`. Coefficients have 48 such bits, values and the
//! numbers of the kernel 40, duals and reduced costs 44; products of two numbers of 64 bits are kept in 128. A number
//! that leaves its range is clamped or wraps, which costs accuracy and never safety.

/// The bits behind the point of a coefficient.
pub const COEF_BITS: u32 = 48;

/// The bits behind the point of a value.
pub const VALUE_BITS: u32 = 40;

/// The bits behind the point of a dual and of a reduced cost.
pub const DUAL_BITS: u32 = 44;

/// The bits behind the point of a number of the kernel.
pub const KERNEL_BITS: u32 = 40;

/// What a product loses before it goes into a sum over the kernel, so that the sum has room.
pub const GUARD_BITS: u32 = 16;

/// The bits behind the point of such a sum, beyond those of its result.
pub const SUM_BITS: u32 = KERNEL_BITS - GUARD_BITS;

/// The bits that a coefficient loses where it becomes a number of the kernel.
pub const LOST_BITS: u32 = COEF_BITS - KERNEL_BITS;

/// 1 as a number of the kernel.
pub const ONE: i64 = 1_099_511_627_776;

/// What a number that grows too much becomes: 2^122.
const MOST_SHIFTED: i128 = 5_316_911_983_139_663_491_615_228_241_121_378_304;

/// `x`, brought between -2^62 and 2^62.
#[inline]
pub fn clamped(x: i128) -> i64 {
    x.clamp(-4_611_686_018_427_387_904, 4_611_686_018_427_387_904) as i64
}

/// `x`, brought between -2^61 and 2^61.
#[inline]
pub fn clamped_more(x: i128) -> i64 {
    x.clamp(-2_305_843_009_213_693_952, 2_305_843_009_213_693_952) as i64
}

/// `a * b`, which 128 bits always hold.
#[inline]
pub fn product(a: i64, b: i64) -> i128 {
    i128::from(a).wrapping_mul(i128::from(b))
}

/// `x / 2^bits`, to the nearest.
#[inline]
pub fn shifted_down(x: i128, bits: u32) -> i128 {
    if bits == 0 {
        return x;
    }
    x.wrapping_add(1i128.unbounded_shl(bits - 1))
        .unbounded_shr(bits)
}

/// `x / 2^bits` as a number of 64 bits.
#[inline]
pub fn rounded(x: i128, bits: u32) -> i64 {
    clamped(shifted_down(x, bits))
}

/// `x * 2^bits` for a `bits` of either sign, at most 2^122 in size where it grows.
pub fn shifted(x: i128, bits: i32) -> i128 {
    if bits <= 0 {
        let down = bits.unsigned_abs();
        return if down > 126 { 0 } else { shifted_down(x, down) };
    }
    if x == 0 {
        return 0;
    }
    if bit_length(x).saturating_add(bits) > 122 {
        return if x > 0 {
            MOST_SHIFTED
        } else {
            MOST_SHIFTED.wrapping_neg()
        };
    }
    x.unbounded_shl(bits.unsigned_abs())
}

/// How many bits the size of `x` has.
pub fn bit_length(x: i128) -> i32 {
    128u32.saturating_sub(x.unsigned_abs().leading_zeros()) as i32
}

/// `x * 2^bits` as a number of 64 bits, for a `bits` of either sign.
#[inline]
pub fn moved(x: i64, bits: i32) -> i64 {
    let wide = i128::from(x);
    if bits < 0 {
        return rounded(wide, bits.unsigned_abs());
    }
    clamped(wide.unbounded_shl(bits.unsigned_abs()))
}

/// `a / b` as a number of the kernel, and 0 where `b` is 0.
pub fn quotient(a: i128, b: i64) -> i64 {
    let grown = a.wrapping_shl(KERNEL_BITS);
    clamped(grown.checked_div(i128::from(b)).unwrap_or(0))
}

/// `1 / x` as a number of the kernel, and 0 where `x` is 0.
pub fn inverse(x: i64) -> i64 {
    quotient(i128::from(ONE), x)
}

/// `a * b` for numbers of the kernel.
#[inline]
pub fn kernel_product(a: i64, b: i64) -> i64 {
    rounded(product(a, b), KERNEL_BITS)
}

/// `x - a * b` for numbers of the kernel.
#[inline]
pub fn subtract(x: i64, a: i64, b: i64) -> i64 {
    clamped(i128::from(x).wrapping_sub(shifted_down(product(a, b), KERNEL_BITS)))
}

/// `x` less a sum of products that are short of their guard bits.
#[inline]
pub fn subtract_sum(x: i64, sum: i128) -> i64 {
    clamped(i128::from(x).wrapping_sub(shifted_down(sum, SUM_BITS)))
}

/// `number`, turned where it does not keep its sign.
#[inline]
pub fn signed(number: i64, keeps: bool) -> i64 {
    if keeps { number } else { number.wrapping_neg() }
}
