//! The items of a certificate that comes in pieces.

use super::TREE;
use cert_stream::{CertReader, ItemFault};
use shelf_calls::{MemShelf, Shelf};
use std::alloc::{AllocError, Global};
use std::test::Fail;

/// A shelf of one opened file, which it hands out in pieces of so many bytes. The call of the number `failing` fails; call 0 opened it.
pub(crate) fn shelf_of(
    alloc: Global,
    text: &[u8],
    piece: usize,
    failing: u64,
) -> Result<MemShelf, AllocError> {
    let mut files = Vec::new(alloc);
    files.push((String::new(alloc), Vec::from_slice(alloc, text)?))?;
    let mut shelf = MemShelf::new(files, [failing].to_vec(alloc)?);
    let _opened = shelf.open_read(alloc, "");
    shelf.pieces(piece.max(1));
    Ok(shelf)
}

/// Puts the items of a text in pieces of seven bytes behind another one, a line each, and returns the fault that ends them.
fn read_pieces(alloc: Global, text: &[u8], items: &mut String) -> Result<Option<ItemFault>, Fail> {
    let mut shelf = shelf_of(alloc, text, 7, u64::MAX)?;
    let mut reader = CertReader::start(alloc, 1_000).ok().ok_or("no memory")?;
    while !reader.has_ended() {
        match reader.next_item(&mut shelf) {
            Ok(item) => items.push_str(&format!(in alloc; "{item:?}\n")?)?,
            Err(fault) => return Ok(Some(fault)),
        }
    }
    Ok(None)
}

/// The items of `TREE`.
const ITEMS: &str = "\
Kind(Gap)
Shape([2, 1, 1, 1, 2, 1, 0])
Bases(1, 1)
Weight(1)
Weight(0)
Outflow(0)
Splits(2)
Cut(Split { leaf: 0, coord: 0, cut: 524288 })
Cut(Split { leaf: 1, coord: 1, cut: 262144 })
Proofs(1)
ProofHead(3, 0, 1)
OnePart(Part { row: 11, mult: 1 })
CostIs(0, 1)
BoundIs(-300000000000000)
GapIs(300000000000000, 1)
End
";

#[test]
fn gives_the_items(rt: HostRuntime) -> Result<(), Fail> {
    let mut items = String::new(rt.alloc());
    let fault = read_pieces(rt.alloc(), TREE.as_bytes(), &mut items)?;
    assert_eq!(rt; (items.as_str(), fault), (ITEMS, None));
    Ok(())
}
