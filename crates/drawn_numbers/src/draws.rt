//! Numbers that are drawn from a seed.

ghost use Rattle.std.specs.Prelude.{◌≡◌, ◌<◌, ◌/◌, ◌%◌, ◌^◌, length};
ghost use Rattle.drawn_numbers.specs.Draws.{next, drawn, draws, state_after};

/// What a state is multiplied by, and what is added to it, on the way to the next: the constants of Knuth's MMIX.
const FACTOR: u64 = 6_364_136_223_846_793_005;

const STEP: u64 = 1_442_695_040_888_963_407;

/// The numbers that a seed gives, one after another: a linear congruential generator on 64 bits (Lehmer 1949).
#[derive(Debug, Drop)]
pub struct Draws {
    /// What the next number is drawn from; at the start it is the seed.
    pub state: u64,
}

impl Draws {
    /// The next number, from 0 to `m - 1`.
    pub fn below(&mut self, m: u64) -> u64
        requires { 0 < m }
        ensures state { self.new.state ≡ next self.old.state }
        // Promise: The numbers that a seed gives are the generator's, one after another, below any number or as bytes
        ensures drawn { result ≡ drawn self.new.state m }
        ensures below { result < m }
    {
        self.state = self.state.wrapping_mul(FACTOR).wrapping_add(STEP);
        (self.state >> 33) % m
    }

    /// Fills a slice with bytes, each the next number below 256.
    pub fn fill(&mut self, into: &mut [u8])
        // Promise: The numbers that a seed gives are the generator's, one after another, below any number or as bytes
        ensures bytes { into.new ≡ draws self.old.state 256 (length into.old) }
        ensures state { self.new.state ≡ state_after self.old.state (length into.old) }
    {
        for byte in into.iter_mut() {
            *byte = self.below(256) as u8;
        }
    }
}
