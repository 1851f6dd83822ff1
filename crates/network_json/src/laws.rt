//! What follows from the definitions, for the proofs of the crates above. There is no code here.

ghost use Rattle.std.specs.Prelude.{◌≡◌, ℕ, List};
ghost use Rattle.pool_model.specs.Network.{Network};
ghost use Rattle.network_json.specs.Reading.{ReadAs};

/// Bytes are a file of at most one network.
pub fn one_network_law()
    // Promise: Bytes are a file of at most one network
    ensures { (bytes : List ℕ) (m n : Network) → ReadAs bytes m → ReadAs bytes n → m ≡ n }
{}
