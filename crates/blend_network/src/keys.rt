//! What arcs and paths are looked up by.

/// Arcs by a node at one of their ends; paths by their feed, by their out, or by the product in which they end.
#[derive(Clone, Copy, Debug)]
pub enum Key {
    /// Feeds by their source.
    FeedsFrom,
    /// Feeds by their pool.
    FeedsInto,
    /// Outs by their pool.
    OutsFrom,
    /// Outs by their product.
    OutsInto,
    /// Directs by their source.
    DirectsFrom,
    /// Directs by their product.
    DirectsInto,
    /// Paths by the feed with which they begin.
    PathsFrom,
    /// Paths by the out along which they run.
    PathsAlong,
    /// Paths by the product in which they end.
    PathsInto,
}

/// All keys, in the order in which their groups are kept.
pub(crate) const KEYS: [Key; 9] = [
    Key::FeedsFrom,
    Key::FeedsInto,
    Key::OutsFrom,
    Key::OutsInto,
    Key::DirectsFrom,
    Key::DirectsInto,
    Key::PathsFrom,
    Key::PathsAlong,
    Key::PathsInto,
];
