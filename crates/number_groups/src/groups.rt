//! The numbers of each key.

ghost use Rattle.std.specs.Prelude.{◌≡◌, ◌<◌, ◌^◌, [], length, map, get_or, IfOk};
ghost use Rattle.std.specs.List.{All};
ghost use Rattle.number_groups.specs.Groups.{groups_of};

use std::alloc::{AllocError, Global};
use std::marker::Model;

/// The first numbers, in a group for each key. Each group rises.
#[derive(Debug, Drop)]
pub struct Groups {
    members: Vec<Vec<u32>>,
}

impl Model for Groups {
    ghost use Rattle.std.specs.Prelude.{ℕ, List, map};

    ghost Value = { List (List ℕ) };

    ghost view = { λ g. map (λ v. v.items) g.members.items };
}

impl Groups {
    /// The numbers from 0, in the groups of their keys: number `i` has the key `keys[i]`. There are `count` groups.
    pub fn by(alloc: Global, keys: &[u32], count: u32) -> Result<Groups, AllocError>
        requires known { All (λ k. k < count) keys.now }
        requires few { length keys.now < 2 ^ 32 }
        // Promise: The numbers of each key are exactly those that have it, in rising order
        ensures { IfOk result (λ g. g ≡ groups_of (λ i. get_or keys.now i 0) (length keys.now) count) }
    {
        let mut members = empty_groups(alloc, count)?;
        for number in 0..keys.len() {
            members[keys[number] as usize].push(number as u32)?;
        }
        Ok(Groups { members })
    }

    /// The numbers of the key, in rising order.
    pub fn of(&self, key: u32) -> &[u32]
        requires { key < length self.now }
        // Promise: The numbers of each key are exactly those that have it, in rising order
        ensures { result.now ≡ get_or self.now key [] }
    {
        self.members[key as usize].as_slice()
    }
}

/// This many groups of nothing.
fn empty_groups(alloc: Global, count: u32) -> Result<Vec<Vec<u32>>, AllocError>
    ensures { IfOk result (λ v. map (λ g. g.items) v.items ≡ groups_of (λ _. 0) 0 count) }
{
    let mut members = Vec::new(alloc);
    for _ in 0..count {
        members.push(Vec::new(alloc))?;
    }
    Ok(members)
}
