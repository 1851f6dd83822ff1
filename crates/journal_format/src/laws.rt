//! What follows from the definitions, for the proofs of the crates above. There is no code here.

ghost use Rattle.std.specs.Prelude.{◌≡◌, ℕ, List};
ghost use Rattle.pool_model.specs.Network.{Net};
ghost use Rattle.row_model.specs.Entries.{Entry, AreInOrder};
ghost use Rattle.journal_format.specs.Histories.{History, entries_of, EachEntry};
ghost use Rattle.journal_format.specs.Files.{IsHistoryOf, Stands, IsKept, IsOwn, IsOwnFor};
ghost use Rattle.journal_format.specs.Faults.{IsAllowed};
ghost use Rattle.journal_format.specs.Records.{Place, IsKeptAt};
ghost use Rattle.journal_format.specs.Longest.{longest};

/// A file has one history at most, and so it stands for one list at most, and its Turn has one number.
pub fn one_list_law()
    // Promise: A file has one history at most: the version it was born in, its entries, and the place of its Turn
    ensures history { (file text : List ℕ) (h k : History) → IsHistoryOf file text h → IsHistoryOf file text k → h ≡ k }
    // Promise: A file stands for one list at most
    ensures list { (file text : List ℕ) (l m : List Entry) → Stands file text l → Stands file text m → l ≡ m }
{}

/// A file that a journal may leave stands for a list. A file that holds a list, with its first closed gate, is such a file.
pub fn own_law()
    // Promise: A file that a journal may leave stands for a list, and one that holds a list with its first closed gate is such a file
    ensures stands { (text file : List ℕ) → IsOwn text file → (list : List Entry) × Stands file text list }
    ensures kept_at { (next : Place) (text file : List ℕ) (list : List Entry) → IsKeptAt next text list file → IsKept text list file }
    ensures kept { (text file : List ℕ) (list : List Entry) → IsKept text list file → IsOwnFor text list file }
{}

/// Entries of a file that are in order on a network are no longer than its longest, so that a journal of it takes them back.
pub fn in_order_law()
    // Promise: Entries of a file that are in order on a network are taken back by its journal
    ensures { (n : Net) (text file : List ℕ) (h : History) → AreInOrder n (entries_of h) → IsHistoryOf file text h → EachEntry (IsAllowed (longest n)) h }
{}
