//! The greatest common divisor.

ghost use Rattle.std.specs.Prelude.{◌≡◌, ◌%◌, ◌<◌, ◌≤◌};
ghost use Rattle.std.specs.Int.{IsGcd, trailing_zeros, w64, w128};

// One division brings the numbers near each other in size. Then the lesser is taken from the greater and halved while it is
// even, which takes no division.
pub(crate) fn gcd(a: u128, b: u128) -> u128
    ensures { IsGcd a b result }
{
    if b == 0 {
        return a;
    }
    let rest = a % b;
    if rest == 0 {
        return b;
    }
    if b.trailing_zeros() <= rest.trailing_zeros() {
        halved_gcd(b, rest)
    } else {
        halved_gcd(rest, b)
    }
}

// Where `y` is even at least as often as `x`: their common factors 2 are set aside.
fn halved_gcd(x: u128, y: u128) -> u128
    requires positive { 0 < x }
    requires positive_also { 0 < y }
    requires even { trailing_zeros w128 x ≤ trailing_zeros w128 y }
    ensures { IsGcd x y result }
{
    let twos = x.trailing_zeros();
    odd_gcd(x >> twos, y >> twos) << twos
}

// Where `x` is odd: in 64 bits as soon as both numbers fit.
fn odd_gcd(x: u128, y: u128) -> u128
    requires { x % 2 ≡ 1 }
    ensures { IsGcd x y result }
{
    let (mut x, mut y) = (x, y);
    while y > 0 {
        if x <= u64::MAX as u128 && y <= u64::MAX as u128 {
            return short_gcd(x as u64, y as u64) as u128;
        }
        let odd = y >> y.trailing_zeros();
        if x < odd {
            y = odd - x;
        } else {
            y = x - odd;
            x = odd;
        }
    }
    x
}

fn short_gcd(x: u64, y: u64) -> u64
    requires { x % 2 ≡ 1 }
    ensures { IsGcd x y result }
{
    let (mut x, mut y) = (x, y);
    while y > 0 {
        let odd = y >> y.trailing_zeros();
        if x < odd {
            y = odd - x;
        } else {
            y = x - odd;
            x = odd;
        }
    }
    x
}
