//! Versions of a map, and the blocks that they share.

ghost use Rattle.std.specs.Prelude.{◌≡◌, ◌<◌, ◌≤◌, ◌+◌, ◌%◌, ◌^◌, ◌++◌, ◌∷◌, ℕ, [], length, get_or, set, vec_len, vec_capacity, IfOk, IfErr};
ghost use Rattle.map_versions.specs.Versions.{IsChanged, count, number_at};

use std::alloc::{AllocError, Global};
use std::marker::Model;

/// Keys are below this.
pub const MOST_KEYS: u32 = 512;

/// Eight numbers: of the map itself on the last level, and else of blocks.
type Block = [u32; 8];

/// Versions of a map from keys below [`MOST_KEYS`] to numbers.
#[derive(Drop)]
pub struct MapVersions {
    blocks: Vec<Block>,
    /// Of each version its block on the first level.
    tops: Vec<u32>,
}

impl Model for MapVersions {
    ghost use Rattle.map_versions.specs.Versions.{Versions, AreShared};

    ghost Value = { Versions };

    ghost view = { λ m. record { blocks = m.blocks.items; tops = m.tops.items } };

    ghost invariant = { λ m. AreShared record { blocks = m.blocks.items; tops = m.tops.items } };
}

impl MapVersions {
    /// One version, with the number 0 at each key.
    pub fn new(alloc: Global) -> Result<MapVersions, AllocError>
        ensures one { IfOk result (λ m. count m ≡ 1) }
        ensures none { IfOk result (λ m. (key : ℕ) → number_at m 0 key ≡ 0) }
    {
        Ok(MapVersions {
            blocks: vec![in alloc; [0; 8]]?,
            tops: vec![in alloc; 0]?,
        })
    }

    /// The number that a version has at a key.
    pub fn number(&self, version: u32, key: u32) -> u32
        requires { version < count self.now }
        ensures { result ≡ number_at self.now version key }
    {
        let tops = self.tops.as_slice();
        let blocks = self.blocks.as_slice();
        let middle = below(blocks, tops[version as usize], key);
        let last = below(blocks, middle, key / 8);
        below(blocks, last, key / 8 / 8)
    }

    /// Adds a version behind the others: an earlier one with this number at this key. Or it leaves all as it was, where there is no
    /// memory.
    pub fn change(&mut self, version: u32, key: u32, number: u32) -> Result<(), AllocError>
        requires there { version < count self.old }
        requires few { count self.old ≤ 2 ^ 24 }
        ensures changed { IfOk result (λ _. IsChanged self.old self.new version key number) }
        ensures unchanged { IfErr result (λ _. self.new ≡ self.old) }
    {
        self.blocks.reserve(3)?;
        self.tops.reserve(1)?;
        let tops = self.tops.as_slice();
        let blocks = self.blocks.as_slice();
        let top = tops[version as usize];
        let middle = below(blocks, top, key);
        let last = below(blocks, middle, key / 8);
        let last = copy(&mut self.blocks, last, key / 8 / 8, number);
        let middle = copy(&mut self.blocks, middle, key / 8, last);
        let top = copy(&mut self.blocks, top, key, middle);
        self.tops.push_reserved(top);
        Ok(())
    }
}

/// What stands in a block at the last digit of a key, in base 8.
fn below(blocks: &[Block], block: u32, key: u32) -> u32
    ensures { result ≡ get_or (get_or blocks.now block []) (key % 8) 0 }
{
    match blocks.get(block as usize) {
        Some(numbers) => numbers[key as usize % 8],
        None => 0,
    }
}

/// Puts a copy of a block behind the others, with another number at the last digit of a key. It answers the place of the copy.
fn copy(blocks: &mut Vec<Block>, block: u32, key: u32, number: u32) -> u32
    requires there { block < length blocks.old.items }
    requires few { length blocks.old.items < 2 ^ 32 }
    requires room { vec_len blocks.old < vec_capacity blocks.old }
    ensures place { result ≡ length blocks.old.items }
    ensures copied { blocks.new.items ≡ blocks.old.items ++ set (get_or blocks.old.items block []) (key % 8) number ∷ [] }
    ensures len { vec_len blocks.new ≡ vec_len blocks.old + 1 }
    ensures capacity { vec_capacity blocks.new ≡ vec_capacity blocks.old }
{
    let place = blocks.len() as u32;
    let mut numbers = blocks.as_slice()[block as usize];
    numbers[key as usize % 8] = number;
    blocks.push_reserved(numbers);
    place
}
