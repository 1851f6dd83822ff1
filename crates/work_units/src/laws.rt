//! The laws of desks, for the proofs of the crates above. There is no code here.

ghost use Rattle.std.specs.Prelude.{◌≡◌, ◌++◌, ◌↔◌, List};
ghost use Rattle.std.specs.List.{Contains};
ghost use Rattle.pool_model.specs.Network.{Net};
ghost use Rattle.row_model.specs.Entries.{AreInOrderFrom, Entry, IsSearched, Searched, made_from};
ghost use Rattle.row_model.specs.Trees.{tree_bound};
ghost use Rattle.work_units.specs.Units.{Answer};
ghost use Rattle.work_units.specs.Desks.{Desk, IsFrom, entries_of};
ghost use Rattle.work_units.specs.Deliveries.{AreDelivered, Delivery, after_all, fitting};
ghost use Rattle.work_units.specs.Judging.{IsJudged, rank};
ghost use Rattle.work_units.specs.Leaves.{AreLeafSplits, HaveSameEntries, HaveSameLeaves};
ghost use Rattle.work_units.specs.declared.answer.Judged.{Judged};

/// An answer is judged in one way, up to which fault of a proof is the first.
pub fn judgement_law()
    ensures { (n : Net) (d : Desk) (a : Answer) (j k : Judged) → IsJudged n d a j → IsJudged n d a k → rank j ≡ rank k }
{}

/// Whatever is delivered, in whatever order: the answers that are taken are those that fit, and the tree is the one that they make.
pub fn deliveries_law()
    // Promise: For every list of deliveries the taken answers are the list without those that are judged otherwise and without those that met want of memory
    ensures taken { (d : Desk) (xs : List Delivery) → (after_all d xs).taken ≡ d.taken ++ fitting xs }
    // Promise: For every list of deliveries the tree is the first one with the entries of the taken answers, one after another
    ensures made { (d : Desk) (xs : List Delivery) → (after_all d xs).searched ≡ made_from d.searched (entries_of (fitting xs)) }
    ensures in_order { (n : Net) (d : Desk) (xs : List Delivery) → AreDelivered n d xs → AreInOrderFrom n d.searched (entries_of (fitting xs)) }
    ensures from { (n : Net) (s : Searched) (d : Desk) (xs : List Delivery) → IsFrom n s d → AreDelivered n d xs → IsFrom n s (after_all d xs) }
{}

/// Splits of different leaves of one tree leave the same leaves in any order, and so the same bound.
pub fn order_law()
    // Promise: Splits of different leaves of one tree leave the same leaves, by box and bound, in any order
    ensures leaves { (n : Net) (s : Searched) (es fs : List Entry) → IsSearched n s → AreLeafSplits n s es → AreLeafSplits n s fs → HaveSameEntries es fs
        → HaveSameLeaves n (made_from s es).tree (made_from s fs).tree }
    ensures bound { (n : Net) (s : Searched) (es fs : List Entry) → IsSearched n s → AreLeafSplits n s es → AreLeafSplits n s fs → HaveSameEntries es fs
        → tree_bound n (made_from s es).tree ≡ tree_bound n (made_from s fs).tree }
    // Promise: Two desks that began alike and took the same answers, in any two orders, have the same bound
    ensures desks { (n : Net) (s : Searched) (d e : Desk) → IsFrom n s d → IsFrom n s e → ((a : Answer) → Contains d.taken a ↔ Contains e.taken a)
        → tree_bound n d.searched.tree ≡ tree_bound n e.searched.tree }
{}
