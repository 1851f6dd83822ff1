//! The law of certificates of searches, for the proofs of the crates above. There is no code here.

ghost use Rattle.pool_model.specs.Network.{IsLimited, Net};
ghost use Rattle.row_model.specs.Entries.{IsSearched, Searched};
ghost use Rattle.cert_format.specs.Valid.{IsValid};
ghost use Rattle.tree_certificate.specs.Certificates.{cert_of};

/// The certificate of what was found is valid, wherever the tree is in order and the plan obeys.
pub fn found_law()
    // Promise: The certificate of a tree is valid, and has a text
    ensures { (n : Net) (s : Searched) → IsLimited n → IsSearched n s → IsValid n (cert_of n s) }
{}
