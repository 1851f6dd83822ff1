//! The versions of the format.

ghost use Rattle.std.specs.Prelude.{◌≡◌};
ghost use Rattle.serde_json.specs.View.{view};
ghost use Rattle.json_walk.specs.Walk.{Gives, version as version_at, version_number};

use crate::fault::{Place, ReadNet};
use serde_json::Value;

/// What a file may say. Each version says all that an earlier one does.
#[derive(Clone, Copy, Debug, PartialEq, Eq)]
pub enum Version {
    /// Arcs are the names of their two ends, and pools remove nothing.
    One,
    /// Arcs may have costs and maxima, and pools may remove a share of a quality.
    Two,
}

impl Version {
    /// The number that a file says of it.
    pub fn number(self) -> u64
        ensures { result ≡ version_number self }
    {
        match self {
            Version::One => 1,
            Version::Two => 2,
        }
    }
}

/// The version that a file says: 1 or 2.
#[tactic(auto, unfolding(crate::specs::Walk::version))]
pub fn version_of(value: &Value, at: Place) -> Result<Version, ReadNet>
    ensures { Gives (λ v. v) result (version_at at (view value.now)) }
{
    let number = value.as_number().ok_or(ReadNet::WrongKind(at))?;
    match number.as_u64() {
        Some(1) => Ok(Version::One),
        Some(2) => Ok(Version::Two),
        _ => Err(ReadNet::WrongVersion),
    }
}
