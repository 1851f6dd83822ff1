//! What follows from the definitions, for the proofs of the crates above. There is no code here.

ghost use Rattle.std.specs.Prelude.{◌≡◌};
ghost use Rattle.pool_model.specs.Rows.{IsRectangular};
ghost use Rattle.pool_model.specs.Naming.{network_of};
ghost use Rattle.pool_model.specs.Network.{Network, IsLimited, net_of};
ghost use Rattle.network_parts.specs.Faults.{IsFaultless};
ghost use Rattle.blend_network.specs.Made.{IsMade};
ghost use Rattle.blend_network.specs.Canonical.{canonical_rows};

/// The rows of the canonical file of a network stand for that network, and give no reason to refuse them.
pub fn canonical_law()
    ensures network { (n : Network) → IsMade n → network_of (canonical_rows n) ≡ n }
    ensures rectangular { (n : Network) → IsMade n → IsRectangular (canonical_rows n) }
    // Promise: The rows of the canonical text give no reason to refuse them
    ensures faultless { (n : Network) → IsMade n → IsLimited (net_of n) → IsFaultless (canonical_rows n) }
{}
