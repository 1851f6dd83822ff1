//! Proofs on Haverly's first network, and one whose weight is at the limit.

use blend_network::Network;
use box_space::{Part, Proof, root_box};
use row_book::{Scratch, value};
use std::alloc::Global;
use std::test::Fail;
use worked_networks::{FAR_APART, HAVERLY_1, network};

/// Two proofs, each by its scale and its parts, numbers of rows and multipliers; and what the first shows in the root box of Haverly's
/// first network, or its first fault, and then the second over the same scratch.
const OF_HAVERLY: &str = "\
1; 1, 6 15000000 = Ok(Bound(-4900000000000000)) Ok(Bound(-3900000000000000))
1, 6 -1; 1, 6 15000000 = Err(Sign) Ok(Bound(-3900000000000000))
1, 45 1; 1, 6 15000000 = Err(UnknownRow) Ok(Bound(-3900000000000000))
1, 6 0; 1, 6 15000000 = Err(ZeroPart) Ok(Bound(-3900000000000000))
1, 5 0, 6 -1; 1, 6 15000000 = Err(Sign) Ok(Bound(-3900000000000000))
0, 6 1; 1, 6 15000000 = Err(ShowsNothing) Ok(Bound(-3900000000000000))
0; 1, 6 15000000 = Err(ShowsNothing) Ok(Bound(-3900000000000000))
1, 20 1; 1, 20 -1 = Ok(Bound(-4900000001048576)) Ok(Bound(-4900000001048576))
";

/// The same of a network whose qualities are far apart. The product's limit, by qualities and by proportions, are the rows 3 and 4,
/// which have the same terms.
const FAR: &str = "\
1, 3 2251799813685248; 1, 2 1, 3 2251799813685248 = Ok(Bound(-85070591730234615865843651857942052864)) Err(Wide)
1, 4 2251799813685248; 1, 2 1, 4 2251799813685248 = Ok(Bound(-85070591730234615865843651857942052864)) Err(Wide)
";

/// The proof of a text.
fn proof(alloc: Global, text: &str) -> Result<Proof, Fail> {
    let mut parts = Vec::new(alloc);
    for part in text.split(", ").skip(1) {
        let (row, mult) = part.split_once(' ').ok_or("a part")?;
        parts.push(Part {
            row: row.parse().ok().ok_or("a row")?,
            mult: mult.parse().ok().ok_or("a multiplier")?,
        })?;
    }
    let scale = if text.starts_with('0') { 0 } else { 1 };
    Ok(Proof { scale, parts })
}

/// What the two proofs show, one after the other.
fn values(alloc: Global, net: &Network, first: &Proof, second: &Proof) -> Result<String, Fail> {
    let root = root_box(alloc, net)?;
    let mut scratch = Scratch::new(alloc, net)?;
    let one = value(net, &root.view(), first, &mut scratch);
    let other = value(net, &root.view(), second, &mut scratch);
    Ok(format!(in alloc; "{one:?} {other:?}")?)
}

/// The same of the proofs of a line.
fn told(alloc: Global, net: &Network, proofs: &str) -> Result<String, Fail> {
    let (first, second) = proofs.split_once("; ").ok_or("two proofs")?;
    let first = proof(alloc, first)?;
    let second = proof(alloc, second)?;
    values(alloc, net, &first, &second)
}

/// The lines of a table, each with what its proofs show in the network of the file.
fn shown(alloc: Global, file: &str, table: &str) -> Result<String, Fail> {
    let net = network(alloc, file)?;
    let mut lines = String::new(alloc);
    for line in table.lines() {
        let (proofs, _) = line.split_once(" = ").ok_or("an answer")?;
        let answer = told(alloc, &net, proofs)?;
        lines.push_str(&format!(in alloc; "{proofs} = {answer}\n")?)?;
    }
    Ok(lines)
}

#[test]
fn proofs_of_haverly_in_the_root_box(rt: HostRuntime) -> Result<(), Fail> {
    let found = shown(rt.alloc(), HAVERLY_1, OF_HAVERLY)?;
    assert_eq!(rt; found.as_str(), OF_HAVERLY);
    Ok(())
}

#[test]
fn a_weight_of_the_limit_is_narrow(rt: HostRuntime) -> Result<(), Fail> {
    let found = shown(rt.alloc(), FAR_APART, FAR)?;
    assert_eq!(rt; found.as_str(), FAR);
    Ok(())
}
