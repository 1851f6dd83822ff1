//! Answers in files.

ghost use Rattle.std.specs.Prelude.{◌≡◌, ◌⊎◌, Err, IsTrue, IfOk, IfErr, List, ℕ, All, map, string_bytes};
ghost use Rattle.std.specs.List.{Contains};
ghost use Rattle.shelf_calls.specs.Told.{Keeps};
ghost use Rattle.shelf_calls.specs.declared.fault.ShelfFault.TheVariants as shelf_faults;
ghost use Rattle.gather_command.specs.Answers.{IsUnsaid, IsOneUnsaid, Say, SaysUnder, SayUnder};

use gathered_run::AnswersFile;
use job_commands::MOST_JOBS;
use job_texts::{ReadFault, read_answers};
use shelf_calls::{Shelf, ShelfFault};
use std::alloc::Global;

/// What the files of these names say, one after another.
pub(crate) fn answers_under<S: Shelf>(
    alloc: Global,
    names: &[String],
    shelf: &mut S,
) -> Result<Vec<AnswersFile>, ShelfFault>
    requires { (name : List ℕ) → Contains (map string_bytes names.now) name → IsTrue ((S.told shelf.old).admits name) }
    ensures say { IfOk result (λ v. SayUnder (S.told shelf.old).files (map string_bytes names.now) v.items) }
    ensures unsaid { IfErr result (IsOneUnsaid (map string_bytes names.now) (S.told shelf.old) (S.told shelf.new)) }
    ensures quiet { (result ≡ Err shelf_faults.Failed) ⊎ ((S.told shelf.new).faults ≡ (S.told shelf.old).faults) }
    ensures kept { Keeps (S.told shelf.old) (S.told shelf.new) }
{
    let mut files = Vec::new(alloc);
    for name in names {
        let file = answers_in(alloc, name.as_str(), shelf)?;
        files.push(file)?;
    }
    Ok(files)
}

/// What the file of this name says.
fn answers_in<S: Shelf>(alloc: Global, name: &str, shelf: &mut S) -> Result<AnswersFile, ShelfFault>
    requires { IsTrue ((S.told shelf.old).admits name.now) }
    ensures says { IfOk result (SaysUnder (S.told shelf.old).files name.now) }
    ensures unsaid { IfErr result (IsUnsaid name.now (S.told shelf.old) (S.told shelf.new)) }
    ensures quiet { (result ≡ Err shelf_faults.Failed) ⊎ ((S.told shelf.new).faults ≡ (S.told shelf.old).faults) }
    ensures kept { Keeps (S.told shelf.old) (S.told shelf.new) }
{
    let bytes = shelf.read_all(alloc, name, MOST_JOBS)?;
    said_by(alloc, &bytes)
}

/// What bytes say. It fails for want of memory alone.
fn said_by(alloc: Global, bytes: &[u8]) -> Result<AnswersFile, ShelfFault>
    // Promise: A file of answers is told to spell none only where it does, with its first faulty line, and never for want of memory
    ensures say { IfOk result (Say bytes.now) }
    ensures memory { IfErr result (λ fault. fault ≡ ShelfFault.Memory) }
{
    match read_answers(alloc, bytes) {
        Ok(answers) => Ok(AnswersFile::Answers(answers)),
        Err(ReadFault::Line(line)) => Ok(AnswersFile::Faulty(line)),
        Err(ReadFault::Memory) => Err(ShelfFault::Memory),
    }
}
