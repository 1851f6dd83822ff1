//! Names: which are allowed, and tables that find them.

ghost use Rattle.std.specs.Prelude.{◌≡◌, ◌≢◌, ◌↔◌, ℕ, ◌<◌, ◌≤◌, List, [], ◌++◌, map, length, get_or, string_bytes, IsTrue, IfOk, OnOk, IfErr, All};
ghost use Rattle.pool_model.specs.Naming.{number_of};
ghost use Rattle.network_checks.specs.Names.{names_in, AddsName};
ghost use Rattle.network_parts.specs.Faults.{IsName, IsBadAt, IsRepeatAt};
ghost use Rattle.faults.specs.First.{IsFirstOf};

use indexmap::IndexSet;
use network_parts::{Kind, NetFault, PoolRow, ProductRow, SourceRow};
use std::alloc::AllocError;

/// A row that has a name.
pub(crate) trait Named {
    ghost name_of: { Self → List ℕ };

    fn name(&self) -> &str
        ensures { result.now ≡ name_of self.now };
}

impl Named for String {
    ghost name_of = { λ s. string_bytes s };

    fn name(&self) -> &str {
        self.as_str()
    }
}

impl Named for SourceRow {
    ghost name_of = { λ r. string_bytes r.name };

    fn name(&self) -> &str {
        self.name.as_str()
    }
}

impl Named for PoolRow {
    ghost name_of = { λ r. string_bytes r.name };

    fn name(&self) -> &str {
        self.name.as_str()
    }
}

impl Named for ProductRow {
    ghost name_of = { λ r. string_bytes r.name };

    fn name(&self) -> &str {
        self.name.as_str()
    }
}

/// Whether this is a name: 1 to 40 bytes, each from a space to `~`.
fn is_name(name: &str) -> bool
    ensures { IsTrue result ↔ IsName name.now }
{
    1 <= name.len() && name.len() <= 40 && has_plain_bytes(name.as_bytes())
}

/// Whether each byte is from a space to `~`.
fn has_plain_bytes(bytes: &[u8]) -> bool
    ensures { IsTrue result ↔ All (λ b. (32 ≤ b) × (b ≤ 126)) bytes.now }
{
    bytes.iter().all(|b| 32 <= *b && *b <= 126)
}

/// Refuses the first of the rows of this kind whose name breaks the rule.
pub(crate) fn check_names_of<T: Named>(kind: Kind, rows: &[T]) -> Result<(), NetFault>
    requires { length rows.now ≤ 256 }
    ensures named { OnOk result ((n : ℕ) → n < length rows.now → IsName (get_or (map T.name_of rows.now) n [])) }
    ensures first { IfErr result (IsFirstOf (NetFault.BadName kind) (IsBadAt (map T.name_of rows.now))) }
{
    for (n, row) in rows.iter().enumerate() {
        if !is_name(row.name()) {
            return Err(NetFault::BadName(kind, n as u32));
        }
    }
    Ok(())
}

/// Adds the names of the rows of this kind to the table, and refuses the first that is there already.
pub(crate) fn add_names<'a, T: Named>(
    names: &mut IndexSet<&'a str>,
    kind: Kind,
    rows: &'a [T],
) -> Result<(), NetFault>
    requires { length rows.now ≤ 256 }
    ensures fresh { OnOk result ((n : ℕ) → ¬ IsRepeatAt (names_in names.old) (map T.name_of rows.now) n) }
    ensures added { OnOk result (names_in names.new ≡ names_in names.old ++ map T.name_of rows.now) }
    ensures first { IfErr result (λ fault. fault ≢ NetFault.Memory → IsFirstOf (NetFault.DuplicateName kind) (IsRepeatAt (names_in names.old) (map T.name_of rows.now)) fault) }
{
    for (n, row) in rows.iter().enumerate() {
        if !add_name(names, row.name())? {
            return Err(NetFault::DuplicateName(kind, n as u32));
        }
    }
    Ok(())
}

/// Adds the name to the table, and says whether it was new.
fn add_name<'a>(names: &mut IndexSet<&'a str>, name: &'a str) -> Result<bool, AllocError>
    ensures { IfOk result (λ fresh. AddsName (names_in names.old) (names_in names.new) name.now fresh) }
{
    let fresh = names.insert(name)?;
    Ok(fresh)
}

/// The number of the name in the table.
pub(crate) fn find_name(names: &IndexSet<&str>, name: &str) -> Option<usize>
    ensures { result ≡ number_of name.now (names_in names.now) }
{
    names.get_index_of(name)
}
