//! The first of several faults: one definition, with its law, over any enum of faults.
//!
//! A fault has a rank, a list of numbers: the number of its cause first, then what it is about. One fault comes before another
//! where its rank is below the other's, number by number. `specs/First.antt` says when a fault is the first of those that hold.
//! [`first_fault_law`] says that two first faults have one rank.
//!
//! A crate gives its enum two functions by cases, `number` and `about`, and `rank f = number f ∷ about f`, and says when a fault
//! is there ([`Ranked`]).
//! `proofs/First.antt` then takes checks in order to the first fault: each check that passes clears a number, and the check that
//! fails has found the first fault.
#![tactic(auto)]

ghost use Rattle.std.specs.Prelude.{◌≡◌, ℕ, List};
ghost use Rattle.faults.specs.First.{IsFirst};

/// Faults that are told in an order.
pub trait Ranked {
    /// The number of the fault's cause, then what it is about.
    ghost rank: { Self → List ℕ };

    /// What is looked at for faults.
    ghost Subject: { Type 0 };

    /// When it has the fault.
    ghost Holds: { Subject → Self → Type 0 };
}

/// Two first faults of one subject have one rank: where ranks tell faults apart, there is one first fault.
pub fn first_fault_law<F: Ranked>()
    // Promise: Two first faults have one rank, whatever the enum of faults
    ensures one_rank { (s : F.Subject) (one other : F) → IsFirst F.rank (F.Holds s) one → IsFirst F.rank (F.Holds s) other → F.rank one ≡ F.rank other }
    // Promise: Two first faults are one fault, where ranks tell faults apart
    ensures unique { ((one other : F) → F.rank one ≡ F.rank other → one ≡ other)
        → (s : F.Subject) (one other : F) → IsFirst F.rank (F.Holds s) one → IsFirst F.rank (F.Holds s) other → one ≡ other }
{}
