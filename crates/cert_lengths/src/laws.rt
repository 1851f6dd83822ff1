//! What follows of the definitions, for the proofs of the crates above. There is no code here.

ghost use Rattle.std.specs.Prelude.{◌+◌, ◌*◌, ◌≤◌, ◌<◌, ◌^◌, max, ℕ, ℤ, All, FitsSigned, decimal, length};
ghost use Rattle.std.specs.Int.{w64, w128};
ghost use Rattle.std.specs.List.{flat_map};
ghost use Rattle.std.specs.Fmt.{signed_decimal};
ghost use Rattle.pool_model.specs.Network.{IsLimited, Net};
ghost use Rattle.row_model.specs.Catalogue.{rows};
ghost use Rattle.row_model.specs.Multipliers.{Part};
ghost use Rattle.row_model.specs.Trees.{Split, nodes};
ghost use Rattle.cert_writing.specs.Cert.{Cert, IsCert, IsPartInRange, IsProofInRange, IsSplitInRange, NodeProof};
ghost use Rattle.cert_writing.specs.Text.{field, part_fields, proof_line, split_line, text_of};
ghost use Rattle.cert_format.specs.Valid.{IsValid};
ghost use Rattle.cert_lengths.specs.Lengths.{HasFewRows, i128_field, most_bytes, part_bytes, part_count, parts_in, proof_bytes, room_for, room_of, split_bytes, u32_field, u64_field};

/// How long a number is in a text, with the space before it: what lies in the range of its type has so many digits and no more, since
/// none is a leading zero.
pub fn field_law()
    ensures u32 { (n : ℕ) → n < 2 ^ 32 → length (field (decimal n)) ≤ u32_field }
    ensures u64 { (n : ℕ) → n < 2 ^ 64 → length (field (decimal n)) ≤ u64_field }
    ensures i64 { (z : ℤ) → FitsSigned w64 z → length (field (signed_decimal z)) ≤ u64_field }
    ensures i128 { (z : ℤ) → FitsSigned w128 z → length (field (signed_decimal z)) ≤ i128_field }
{}

/// How long the lines are that come in lists, and the whole text.
pub fn lines_law()
    ensures part { (p : Part) → IsPartInRange p → length (flat_map field (part_fields p)) ≤ part_bytes }
    ensures split { (s : Split) → IsSplitInRange s → length (split_line s) ≤ split_bytes }
    ensures proof { (p : NodeProof) → IsProofInRange p → parts_in p < 2 ^ 32 → length (proof_line p) ≤ proof_bytes + part_bytes * parts_in p }
    // Promise: The text of a certificate has at most 49 bytes for each cut, 49 for each proof and 32 for each part of a proof, 11 for each
    //   feed of its shape, 21 for each out and each direct, and 376 for all else
    ensures text { (c : Cert) → IsCert c → length (text_of c) ≤ room_of c }
{}

/// How many proofs and parts a valid certificate has.
pub fn parts_law()
    // Promise: Each proof of a valid certificate has at most a part for each row of the network, and each node of its tree at most one proof
    ensures each { (n : Net) (c : Cert) → IsValid n c → All (λ p. parts_in p ≤ rows n) c.proofs }
    // Promise: Each proof of a valid certificate has at most a part for each row of the network, and each node of its tree at most one proof
    ensures proofs { (n : Net) (c : Cert) → IsValid n c → length c.proofs ≤ nodes c.splits }
    ensures all { (n : Net) (c : Cert) → IsValid n c → part_count c.proofs ≤ nodes c.splits * rows n }
{}

/// How long the text of a valid certificate is: short enough for a file that is checked, where the tree is not too large.
pub fn length_law()
    ensures room { (n : Net) (c : Cert) → IsCert c → IsValid n c → length (text_of c) ≤ room_for n (length c.splits) (part_count c.proofs) }
    // Promise: The text of a valid certificate has at most 1,073,741,824 bytes, where its nodes, twice its cuts and one, times the rows of
    //   the network are at most 32,000,000
    ensures short { (n : Net) (c : Cert) → IsLimited n → IsCert c → IsValid n c → HasFewRows n (length c.splits) → length (text_of c) ≤ most_bytes }
{}

/// A tree with no more splits than were asked for, or than it began with, has few enough nodes where both numbers are small enough; and
/// a number that is small enough has none below it that is too large.
pub fn few_rows_law()
    ensures fewer { (n : Net) (splits more : ℕ) → splits ≤ more → HasFewRows n more → HasFewRows n splits }
    ensures grown { (n : Net) (splits asked begun : ℕ) → splits ≤ max asked begun → HasFewRows n asked → HasFewRows n begun → HasFewRows n splits }
{}
