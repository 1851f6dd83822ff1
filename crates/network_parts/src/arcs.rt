//! Arcs and paths by numbers, and the nodes at the ends of an arc.

ghost use Rattle.std.specs.Prelude.{◌≡◌};
ghost use Rattle.network_parts.specs.Nodes.{is_backward, is_between_pools};

/// An arc, by the numbers of its two ends: what a unit along it costs, and how much it can carry, if that is limited, both in
/// millionths.
#[derive(Clone, Copy, Debug)]
pub struct Arc {
    pub from: u32,
    pub to: u32,
    pub cost: i128,
    pub max: Option<u128>,
}

/// A path, by the numbers of its feed and its out.
#[derive(Clone, Copy, Debug)]
pub struct Path {
    pub feed: u32,
    pub out: u32,
}

impl Path {
    /// Its feed and its out.
    pub fn arcs(self) -> (u32, u32)
        ensures { result ≡ (self.feed, self.out) }
    {
        (self.feed, self.out)
    }
}

impl Arc {
    /// Its two ends.
    pub fn ends(self) -> (u32, u32)
        ensures { result ≡ (self.from, self.to) }
    {
        (self.from, self.to)
    }
}

/// A node, by its number in its kind.
#[derive(Clone, Copy, PartialEq, Eq)]
pub enum Node {
    Source(u32),
    Pool(u32),
    Product(u32),
}

/// The nodes at the two ends of an arc.
#[derive(Clone, Copy, PartialEq, Eq)]
pub struct Ends {
    pub from: Node,
    pub to: Node,
}

impl Ends {
    /// It starts at a product or ends at a source.
    pub fn is_backward(self) -> bool
        ensures { result ≡ is_backward self }
    {
        matches!(self.from, Node::Product(_)) || matches!(self.to, Node::Source(_))
    }

    /// It goes from a pool to a pool.
    pub fn is_between_pools(self) -> bool
        ensures { result ≡ is_between_pools self }
    {
        matches!(self.from, Node::Pool(_)) && matches!(self.to, Node::Pool(_))
    }
}

/// The arcs by kind, and the paths that they make.
#[derive(Drop)]
pub struct Arcs {
    pub feeds: Vec<Arc>,
    pub outs: Vec<Arc>,
    pub directs: Vec<Arc>,
    pub paths: Vec<Path>,
}
