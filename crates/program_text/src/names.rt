//! The names of variables in texts.

ghost use Rattle.std.specs.Prelude.{◌≡◌, ◌+◌, ◌*◌, ◌<◌, ◌≤◌};
ghost use Rattle.pool_model.specs.Network.{net_of};
ghost use Rattle.row_model.specs.Variables.{variables};
ghost use Rattle.program_text.specs.Names.{has_symbol, letter_of, name_of};

use blend_network::Network;
use box_space::Form;

/// What a variable is.
#[derive(Clone, Copy, Debug)]
pub enum Symbol {
    /// The flow along a feed: x.
    Feed,
    /// The flow along an out: y.
    Out,
    /// The flow along a direct: z.
    Direct,
    /// The flow along a path: w.
    Path,
    /// A feed's proportion in its pool: Q.
    Proportion,
    /// A quality of a pool: p.
    Quality,
    /// A pool's quality times an out's flow: v.
    Mixed,
}

/// What a variable is, and its number among those of its kind.
#[derive(Clone, Copy, Debug)]
pub struct Name {
    /// What the variable is.
    pub symbol: Symbol,
    /// Its number among those of its kind.
    pub number: u32,
}

impl Symbol {
    /// The letter that the variable's name begins with.
    pub(crate) fn letter(self) -> u8
        ensures { result ≡ letter_of self }
    {
        match self {
            Symbol::Feed => b'x',
            Symbol::Out => b'y',
            Symbol::Direct => b'z',
            Symbol::Path => b'w',
            Symbol::Proportion => b'Q',
            Symbol::Quality => b'p',
            Symbol::Mixed => b'v',
        }
    }

    /// Whether a form has such variables.
    pub(crate) fn is_of(self, form: Form) -> bool
        ensures { result ≡ has_symbol form self }
    {
        match (form, self) {
            (Form::P, Symbol::Path | Symbol::Proportion) => false,
            (Form::Q | Form::Pq, Symbol::Quality | Symbol::Mixed) => false,
            _ => true,
        }
    }
}

/// The name of the variable of a number.
pub(crate) fn name_at(net: &Network, var: u32) -> Name
    requires { var < variables (net_of net.now) }
    ensures { result ≡ name_of (net_of net.now) var }
{
    let counts = net.sizes();
    if var < counts.feeds {
        return named(Symbol::Feed, var);
    }
    let var = var - counts.feeds;
    if var < counts.outs {
        return named(Symbol::Out, var);
    }
    let var = var - counts.outs;
    if var < counts.directs {
        return named(Symbol::Direct, var);
    }
    let var = var - counts.directs;
    if var < counts.paths {
        return named(Symbol::Path, var);
    }
    let var = var - counts.paths;
    if var < counts.feeds {
        return named(Symbol::Proportion, var);
    }
    let var = var - counts.feeds;
    let qualities = cells(counts.pools, counts.qualities);
    if var < qualities {
        return named(Symbol::Quality, var);
    }
    named(Symbol::Mixed, var - qualities)
}

/// A name.
pub(crate) fn named(symbol: Symbol, number: u32) -> Name
    ensures { result ≡ record { symbol = symbol; number = number } }
{
    Name { symbol, number }
}

/// How many cells a grid of some nodes and the qualities has.
pub(crate) fn cells(nodes: u32, qualities: u32) -> u32
    requires nodes { nodes ≤ 256 }
    requires qualities { qualities ≤ 8 }
    ensures value { result ≡ nodes * qualities }
    ensures small { result ≤ 2048 }
{
    nodes * qualities
}

/// The number of a cell of such a grid, row by row.
pub(crate) fn in_grid(node: u32, qualities: u32, quality: u32) -> u32
    requires nodes { node ≤ 256 }
    requires qualities { qualities ≤ 8 }
    requires quality { quality < qualities }
    ensures { result ≡ node * qualities + quality }
{
    node * qualities + quality
}
