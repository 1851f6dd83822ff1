//! From a text to its number.

ghost use Rattle.std.specs.Prelude.{◌≡◌, ◌≤◌, ◌<◌, ◌^◌, ℤ, length, true, Some, IfSome};
ghost use Rattle.std.specs.List.{list_all, prefix_len};
ghost use Rattle.std.specs.Char.{is_ascii_digit};
ghost use Rattle.pool_model.specs.Quantity.{number, decimals_of, unsigned_of, quantity, StandsFor};

/// The number of millionths that a text stands for: an optional minus, 1 to 15 digits, and optionally a point and 1 to 6
/// digits. `"2.5"` is 2,500,000.
///
/// `None` exactly where the text stands for no number.
pub fn quantity_of(text: &str) -> Option<i128>
    // Promise: A text stands for a quantity exactly where it has the stated form, and for that number
    ensures stands { IfSome result (StandsFor text.now) }
    // Promise: A text stands for a quantity exactly where it has the stated form, and for that number
    ensures only { (q : ℤ) → StandsFor text.now q → result ≡ Some q }
    // Promise: A text stands for a quantity exactly where it has the stated form, and for that number
    ensures exact { result ≡ quantity text.now }
{
    signed(text)
}

#[tactic(auto, unfolding(pool_model::specs::Quantity::quantity))]
fn signed(text: &str) -> Option<i128>
    ensures { result ≡ quantity text.now }
{
    match text.as_bytes() {
        [] => None,
        [b'-', rest @ ..] => match unsigned(rest) {
            None => None,
            Some(n) => Some(-(n as i128)),
        },
        all => match unsigned(all) {
            None => None,
            Some(n) => Some(n as i128),
        },
    }
}

/// The number of a text with no sign.
#[tactic(auto, unfolding(pool_model::specs::Quantity::unsigned_of))]
fn unsigned(text: &[u8]) -> Option<u128>
    ensures value { result ≡ unsigned_of text.now }
    ensures below { IfSome result (λ n. n < 10 ^ 21) }
{
    let len = digits_at_front(text);
    if len == 0 || len > MAX_DIGITS {
        return None;
    }
    let (whole, rest) = text.split_at(len);
    match decimals(rest) {
        None => None,
        Some(part) => Some(u128::from(number_of(whole)) * 1_000_000 + u128::from(part)),
    }
}

/// What stands behind the digits of the whole units, in millionths.
#[tactic(auto, unfolding(pool_model::specs::Quantity::decimals_of))]
fn decimals(rest: &[u8]) -> Option<u64>
    ensures value { result ≡ decimals_of rest.now }
    ensures below { IfSome result (λ n. n < 10 ^ 6) }
{
    match rest {
        [] => Some(0),
        [b'.', digits @ ..] => {
            if digits.is_empty() || digits.len() > MAX_DECIMALS || !are_digits(digits) {
                return None;
            }
            Some(number_of(digits) * power_of_ten(MAX_DECIMALS - digits.len()))
        }
        [_, ..] => None,
    }
}

/// The number that decimal digits spell.
fn number_of(digits: &[u8]) -> u64
    requires few { length digits.now ≤ 15 }
    requires digits { list_all is_ascii_digit digits.now ≡ true }
    ensures value { result ≡ number digits.now }
    ensures below { number digits.now < 10 ^ length digits.now }
{
    let mut n: u64 = 0;
    for d in digits {
        n = n * 10 + u64::from(*d - b'0');
    }
    n
}

/// How many digits stand at the front.
fn digits_at_front(text: &[u8]) -> usize
    ensures { result ≡ prefix_len is_ascii_digit text.now }
{
    text.iter().take_while(|b| b.is_ascii_digit()).count()
}

/// Whether all are digits.
fn are_digits(text: &[u8]) -> bool
    ensures { result ≡ list_all is_ascii_digit text.now }
{
    text.iter().all(|b| b.is_ascii_digit())
}

/// Ten to that power.
fn power_of_ten(n: usize) -> u64
    requires { n ≤ 6 }
    ensures { result ≡ 10 ^ n }
{
    match n {
        0 => 1,
        1 => 10,
        2 => 100,
        3 => 1_000,
        4 => 10_000,
        5 => 100_000,
        _ => 1_000_000,
    }
}

/// The most digits of the whole units.
const MAX_DIGITS: usize = 15;

/// The most decimals: a millionth has six.
const MAX_DECIMALS: usize = 6;
