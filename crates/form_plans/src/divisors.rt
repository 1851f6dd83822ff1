//! Greatest common divisors and least common multiples.

ghost use Rattle.std.specs.Prelude.{◌≡◌, ℕ, ◌*◌, ◌<◌, ◌≤◌, ◌^◌, get_or, length};
ghost use Rattle.std.specs.Int.{IsGcd};
ghost use Rattle.form_plans.specs.Divisors.{IsDivisorOf, IsLcm};

/// The greatest common divisor of a positive number and others.
pub fn common_divisor(start: u128, parts: &[u128]) -> u128
    requires { 0 < start }
    ensures { IsDivisorOf start (λ i. get_or parts.now i 0) (length parts.now) result }
{
    let mut divisor = start;
    for part in parts {
        divisor = gcd(*part, divisor);
    }
    divisor
}

/// The least common multiple of two positive numbers. Their product fits.
pub fn lcm(a: u128, b: u128) -> u128
    requires first { 0 < a }
    requires second { 0 < b }
    requires fits { a * b < 2 ^ 128 }
    ensures least { IsLcm a b result }
    ensures small { result ≤ a * b }
{
    a / gcd(a, b) * b
}

/// The greatest common divisor of two numbers.
pub fn gcd(a: u128, b: u128) -> u128
    ensures { IsGcd a b result }
{
    let (mut x, mut y) = (a, b);
    while y > 0 {
        let rest = x % y;
        x = y;
        y = rest;
    }
    x
}
