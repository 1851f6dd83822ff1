//! From a number to its shortest text.

ghost use Rattle.std.specs.Prelude.{◌≡◌, ◌≢◌, ◌<◌, ◌^◌, ◌++◌, IfOk, OnOk, string_bytes, unsigned_abs};
ghost use Rattle.pool_model.specs.Quantity.{sign, behind_point, fixed, trimmed, shortest, StandsFor};

use std::alloc::{AllocError, Global};

/// The shortest text of a quantity: whole units with no leading zero, and no more decimals than it needs.
pub fn text_of(alloc: Global, quantity: i128) -> Result<String, AllocError>
    requires { unsigned_abs quantity < 10 ^ 21 }
    ensures text { IfOk result (λ s. string_bytes s ≡ shortest quantity) }
    ensures stands { IfOk result (λ s. StandsFor (string_bytes s) quantity) }
{
    let size = quantity.unsigned_abs();
    let units = (size / 1_000_000) as u64;
    let part = (size % 1_000_000) as u64;
    let mut text = String::new(alloc);
    push_sign(&mut text, quantity < 0)?;
    text.push_str(format!(in alloc; "{units}")?.as_str())?;
    push_decimals(&mut text, part)?;
    Ok(text)
}

fn push_sign(text: &mut String, negative: bool) -> Result<(), AllocError>
    ensures { OnOk result (string_bytes text.new ≡ string_bytes text.old ++ sign negative) }
{
    if negative {
        return text.push('-');
    }
    Ok(())
}

/// The decimals behind their point, or nothing where there are none.
#[tactic(auto, using(crate::proofs::Spelled::has_decimals, crate::proofs::Spelled::no_decimals, std::proofs::lemmas::Grind::common_steps))]
fn push_decimals(text: &mut String, part: u64) -> Result<(), AllocError>
    requires { part < 10 ^ 6 }
    ensures { OnOk result (string_bytes text.new
        ≡ string_bytes text.old ++ behind_point (trimmed 6 part)) }
{
    if part == 0 {
        return Ok(());
    }
    text.push('.')?;
    push_trimmed(text, 6, part)
}

/// Writes n in that many digits, without the zeros at its end.
#[tactic(auto, unfolding(pool_model::specs::Quantity::trimmed))]
fn push_trimmed(text: &mut String, places: u32, n: u64) -> Result<(), AllocError>
    ensures { OnOk result (string_bytes text.new ≡ string_bytes text.old ++ trimmed places n) }
{
    if places == 0 {
        return Ok(());
    }
    if n % 10 == 0 {
        return push_trimmed(text, places - 1, n / 10);
    }
    push_fixed(text, places, n)
}

/// Writes n in that many digits.
#[tactic(auto, unfolding(pool_model::specs::Quantity::fixed), using(crate::proofs::Writing::encoded))]
fn push_fixed(text: &mut String, places: u32, n: u64) -> Result<(), AllocError>
    ensures { OnOk result (string_bytes text.new ≡ string_bytes text.old ++ fixed places n) }
{
    if places == 0 {
        return Ok(());
    }
    push_fixed(text, places - 1, n / 10)?;
    text.push((b'0' + (n % 10) as u8) as char)
}
