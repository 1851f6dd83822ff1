//! Sums of products that stay below a limit.

ghost use Rattle.std.specs.Prelude.{◌≡◌, ℕ, ◌+◌, ◌*◌, ◌^◌, ◌<◌, ◌≤◌, OnOk, OnErr};

use std::marker::Model;

/// The sum would pass 2^126.
#[derive(Clone, Copy, Debug, PartialEq, Eq)]
pub struct Wide;

/// A sum of products, kept exactly: it is at most 2^126.
#[derive(Debug, Drop)]
pub struct Weight {
    sum: u128,
}

impl Model for Weight {
    ghost Value = { ℕ };

    ghost view = { λ w. w.sum };

    ghost invariant = { λ w. w.sum ≤ 2 ^ 126 };
}

/// The most that a `Weight` may be: 2^126.
const MOST: u128 = 0x4000_0000_0000_0000_0000_0000_0000_0000;

impl Weight {
    /// The sum of no products.
    pub fn new() -> Weight
        ensures { result ≡ 0 }
    {
        Weight { sum: 0 }
    }

    /// Adds `a * b`. It is refused exactly where the sum would pass 2^126, and the weight is unchanged then.
    pub fn add_product(&mut self, a: u128, b: u128) -> Result<(), Wide>
        // Promise: A weight is the true sum of its products
        ensures added { OnOk result (self.new ≡ self.old + a * b) }
        ensures fits { OnOk result (self.old + a * b ≤ 2 ^ 126) }
        // Promise: A product is refused by a weight exactly where the sum passes `2^126`
        ensures wide { OnErr result (2 ^ 126 < self.old + a * b) }
        ensures unchanged { OnErr result (self.new ≡ self.old) }
    {
        let room = MOST - self.sum;
        match a.checked_mul(b) {
            Some(product) if product <= room => {
                self.sum += product;
                Ok(())
            }
            _ => Err(Wide),
        }
    }
}
