//! The steps that a file in memory goes, and how a crash cuts them short.

ghost use Rattle.std.specs.Prelude.{◌≡◌, ◌<◌, ◌≤◌, ◌++◌, IfOk, OnOk, length, take};
ghost use Rattle.disk_calls.specs.Disks.{written, Torn, Shortened};

use std::alloc::{AllocError, Global};

/// The way to land in of a step that wholly takes place.
pub(crate) const WHOLLY: u64 = 1;

/// What a call does to a file.
#[derive(Drop)]
pub(crate) enum Step {
    /// These bytes are written from this place on.
    Write(usize, Vec<u8>),
    /// The file is cut to this length.
    Cut(usize),
    /// The file is on the disk.
    Sync,
}

/// The file with these bytes in the place of those from `at` on.
pub(crate) fn overlay(
    alloc: Global,
    file: &[u8],
    at: usize,
    bytes: &[u8],
) -> Result<Vec<u8>, AllocError>
    ensures { IfOk result (λ v. v.items ≡ written file.now at bytes.now) }
{
    let front = at.min(file.len());
    let behind = at.saturating_add(bytes.len()).min(file.len());
    let mut next = Vec::from_slice(alloc, &file[..front])?;
    extend_by(&mut next, bytes, &file[behind..])?;
    Ok(next)
}

/// Puts the bytes of both behind those that are there.
fn extend_by(next: &mut Vec<u8>, bytes: &[u8], behind: &[u8]) -> Result<(), AllocError>
    ensures { OnOk result (next.new.items ≡ next.old.items ++ bytes.now ++ behind.now) }
{
    next.extend_from_slice(bytes)?;
    next.extend_from_slice(behind)
}

impl Step {
    ghost use Rattle.disk_model.specs.Steps.{after_step, Lands};

    /// How many ways it can land in.
    pub(crate) fn ways(&self, length: usize) -> u64
        ensures { 0 < result }
    {
        match self {
            Step::Write(_, bytes) => (bytes.len() as u64).saturating_mul(2).saturating_add(4),
            Step::Cut(to) => (length.saturating_sub(*to) as u64).saturating_add(2),
            Step::Sync => 1,
        }
    }

    /// The file after it, where a crash lets it land in one of its ways: 0 is not at all, and 1 is wholly. Of a write the
    /// ways 2, 4, 6, .. are its first 0, 1, 2, .. bytes, and 3, 5, 7, .. the same with other bytes in the rest of its
    /// range. Of a cut the ways 2, 3, .. leave one byte more, two bytes more, ..
    pub(crate) fn land(&self, alloc: Global, file: &[u8], way: u64) -> Result<Vec<u8>, AllocError>
        ensures landed { IfOk result (λ v. Lands self.now file.now v.items) }
        ensures not_at_all { way ≡ 0 → IfOk result (λ v. v.items ≡ file.now) }
        ensures wholly { way ≡ 1 → IfOk result (λ v. v.items ≡ after_step self.now file.now) }
    {
        match self {
            Step::Write(at, bytes) => land_write(alloc, file, *at, bytes, way),
            Step::Cut(to) => land_cut(alloc, file, *to, way),
            Step::Sync => Vec::from_slice(alloc, file),
        }
    }
}

/// The file after a write of these bytes that lands in one of its ways.
fn land_write(
    alloc: Global,
    file: &[u8],
    at: usize,
    bytes: &[u8],
    way: u64,
) -> Result<Vec<u8>, AllocError>
    ensures torn { IfOk result (λ v. Torn at (length bytes.now) file.now v.items) }
    ensures not_at_all { way ≡ 0 → IfOk result (λ v. v.items ≡ file.now) }
    ensures wholly { way ≡ 1 → IfOk result (λ v. v.items ≡ written file.now at bytes.now) }
{
    match way {
        0 => Vec::from_slice(alloc, file),
        1 => overlay(alloc, file, at, bytes),
        _ => {
            let piece = tear(alloc, bytes, (way - 2) / 2, way % 2 == 1)?;
            overlay(alloc, file, at, &piece)
        }
    }
}

/// The file after a cut to this length that lands in one of its ways.
fn land_cut(alloc: Global, file: &[u8], to: usize, way: u64) -> Result<Vec<u8>, AllocError>
    ensures shortened { IfOk result (λ v. Shortened to file.now v.items) }
    ensures not_at_all { way ≡ 0 → IfOk result (λ v. v.items ≡ file.now) }
    ensures wholly { way ≡ 1 → IfOk result (λ v. v.items ≡ take to file.now) }
{
    let length = match way {
        0 => file.len(),
        _ => to.saturating_add((way - 1) as usize).min(file.len()),
    };
    Vec::from_slice(alloc, &file[..length])
}

/// The first bytes of what is written, alone or with other bytes than the right ones behind them.
fn tear(alloc: Global, bytes: &[u8], came: u64, filled: bool) -> Result<Vec<u8>, AllocError>
    ensures { IfOk result (λ v. length v.items ≤ length bytes.now) }
{
    let came = (came as usize).min(bytes.len());
    if !filled {
        return Vec::from_slice(alloc, &bytes[..came]);
    }
    let mut piece = Vec::from_slice(alloc, bytes)?;
    for byte in piece[came..].iter_mut() {
        *byte = !*byte;
    }
    Ok(piece)
}
