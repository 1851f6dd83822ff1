//! Rows as tables: which variables a row takes, and with which coefficients.

use crate::rows::RowKind;
use blend_network::Key;

/// The variables of one kind, numbered one after another.
#[derive(Clone, Copy, Debug)]
pub enum Block {
    /// What flows along each feed.
    Feeds,
    /// What flows along each out.
    Outs,
    /// What flows along each direct.
    Directs,
    /// What flows along each path.
    Paths,
    /// Each feed's proportion in its pool.
    Proportions,
    /// A quality of each pool.
    Qualities(u32),
    /// A quality of each out's pool, times what flows along the out.
    Mixed(u32),
}

/// What is made of what a variable brings of a quality. A limit counts as what is brought does: in parts of the network's scale.
#[derive(Clone, Copy, Debug)]
pub enum Rate {
    /// What is brought.
    Plain,
    /// Less what is brought.
    Less,
    /// How far it is below a limit.
    Below(i64),
    /// How far it is above a limit.
    Above(i64),
}

/// The coefficients of some variables of a block.
#[derive(Clone, Copy, Debug)]
pub enum Factor {
    /// One for all.
    Same(i128),
    /// What is made of what each brings of a quality: a feed its source's, in millionths; a direct and a path the same in parts of
    /// the scale, a path what its pool retains of it; a mixed variable the parts that its pool retains.
    OfQuality(u32, Rate),
}

/// What a row takes of a block of variables.
#[derive(Clone, Copy, Debug)]
pub enum Terms {
    Nothing,
    /// One variable, by its number in the block, and its coefficient.
    One(Block, u32, i128),
    /// All that a key has at a node.
    All(Block, Key, u32, Factor),
}

/// A row. Its blocks rise in the order of [`Block`], each once.
#[derive(Clone, Copy, Debug)]
pub struct RowTable {
    pub kind: RowKind,
    pub terms: [Terms; 3],
    pub constant: i128,
}
