//! What brings a quality to a node.

use blend_network::Key;

/// What brings a quality to a node, from a source.
#[derive(Clone, Copy, Debug)]
pub enum Carrier {
    /// Feeds, to a pool.
    Feeds,
    /// Directs, to a product.
    Directs,
    /// Paths, to a product.
    Paths,
}

impl Carrier {
    ghost use Rattle.std.specs.Prelude.{◌≡◌};
    ghost use Rattle.point_checks.specs.Qualities.{key_by};

    /// The key by which it ends at a node.
    pub fn key(self) -> Key
        ensures { result ≡ key_by self }
    {
        match self {
            Carrier::Feeds => Key::FeedsInto,
            Carrier::Directs => Key::DirectsInto,
            Carrier::Paths => Key::PathsInto,
        }
    }
}
