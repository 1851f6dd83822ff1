//! The law of certificates, for the proofs of the crates above. There is no code here.

ghost use Rattle.pool_model.specs.Network.{IsLimited, Net};
ghost use Rattle.pool_model.specs.Claim.{Follows};
ghost use Rattle.cert_format.specs.Cert.{Cert};
ghost use Rattle.cert_format.specs.Valid.{IsValid};

/// What a valid certificate claims follows for every plan, over any denominator.
pub fn valid_law()
    // Promise: What a valid certificate claims follows
    ensures { (n : Net) (c : Cert) → IsLimited n → IsValid n c → Follows n c.claim }
{}
