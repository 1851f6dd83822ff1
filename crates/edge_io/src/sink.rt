//! What bytes are written to.

ghost use Rattle.std.specs.Prelude.{◌≡◌, ◌≤◌, ℕ, List, Option, IfOk, OnErr, length, take};
ghost use Rattle.edge_io.specs.Counts.{Grows, Rose};
ghost use Rattle.edge_io.specs.Writing.{behind};

use crate::fault::SinkFailed;

/// What bytes are written to.
///
/// Its count of faults never falls, and stands still at its last value, `2^64 - 1`. Whether it tells its bytes is
/// changed by no call.
pub trait Sink {
    /// The bytes taken so far, where it tells them.
    ghost taken: { Self → Option (List ℕ) };

    /// How many of its calls have failed.
    ghost faults: { Self → ℕ };

    /// Takes some of the bytes, the first ones, and says how many; it takes none only where there are none.
    ///
    /// `SinkFailed` comes only where the count of faults rose, and nothing was taken then.
    fn write(&mut self, bytes: &[u8]) -> Result<usize, SinkFailed>
        ensures part { IfOk result (λ n. n ≤ length bytes.now) }
        ensures some { IfOk result (λ n. n ≡ 0 → length bytes.now ≡ 0) }
        // Promise: What a sink took is appended
        ensures appended { IfOk result (λ n. taken self.new ≡ behind (taken self.old) (take n bytes.now)) }

        // Promise: A fault comes only where a count rose, for real files and streams too
        ensures failed { OnErr result (Rose (faults self.old) (faults self.new)) }
        ensures unchanged { OnErr result (taken self.new ≡ taken self.old) }
        ensures faults_grow { Grows (faults self.old) (faults self.new) };
}
