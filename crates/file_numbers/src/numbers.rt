//! The numbers that the system gives to open files.

ghost use Rattle.std.specs.Prelude.{◌≡◌, ◌<◌, ℕ, Bool, IsTrue, OnOk, OnErr};
ghost use Rattle.edge_io.specs.Counts.{Grows, Rose};
ghost use Rattle.file_numbers.specs.Numbers.{AreHeld, KeepsUsed, TakesLowest};

use edge_io::CallFault;

/// How many standard streams there are: their numbers are 0, 1 and 2.
const STREAMS: u8 = 3;

/// The system's numbers of open files, as POSIX has them: a file that is opened gets the lowest number that is free.
pub trait NumberCalls {
    /// Whether the system tells which numbers are in use.
    ghost tells: { Bool };

    /// Whether a number is in use, where the system tells it.
    ghost used: { Self → ℕ → Bool };

    /// How many calls have failed, where the system tells it.
    ghost faults: { Self → ℕ };

    /// Opens the null device, and keeps it open as long as the value lives.
    fn open_null(&mut self) -> Result<(), CallFault>
        ensures lowest { OnOk result (IsTrue tells → TakesLowest (used self.old) (used self.new)) }
        ensures unchanged { OnErr result (IsTrue tells → used self.new ≡ used self.old) }
        ensures failed { OnErr result (IsTrue tells → Rose (faults self.old) (faults self.new)) }
        ensures faults_grow { IsTrue tells → Grows (faults self.old) (faults self.new) };
}

/// Sees to it that the number of each standard stream is in use. Where a stream is closed, its number is free, and the null device takes
/// it: what is written to the stream then goes nowhere, and into no file that is opened later.
///
/// It fails where the null device can't be opened.
pub fn hold_streams<N: NumberCalls>(numbers: &mut N) -> Result<(), CallFault>
    // Promise: Once the standard streams are held, each of the numbers 0, 1 and 2 is in use
    ensures held { OnOk result (IsTrue N.tells → AreHeld (N.used numbers.new)) }
    // Promise: A file that is opened once the standard streams are held has none of their numbers
    ensures later { OnOk result (IsTrue N.tells → (after : ℕ → Bool) → (opened : TakesLowest (N.used numbers.new) after) → 2 < opened.number) }
    ensures kept { IsTrue N.tells → KeepsUsed (N.used numbers.old) (N.used numbers.new) }
    ensures failed { OnErr result (IsTrue N.tells → Rose (N.faults numbers.old) (N.faults numbers.new)) }
{
    for _stream in 0..STREAMS {
        numbers.open_null()?;
    }
    Ok(())
}
