//! The fields of a certificate's text, one after another.

ghost use Rattle.std.specs.Prelude.{◌≡◌, codes};
ghost use Rattle.cert_text.specs.Reading.{Gives};
ghost use Rattle.cert_items.specs.Items.{shown, next_at, begin_at, shape_step_at, bases_step_at, weight_words_at, outflow_words_at};
ghost use Rattle.cert_items.specs.Items.{direct_words_at, weight_step_at, outflow_step_at, direct_step_at, claim_step_at, cuts_left, proofs_left, parts_left};
ghost use Rattle.cert_items.specs.Items.{claim_state, head_step_at};

use box_space::{Part, Split};
use cert_format::reading::{Kind, bound, kind_line, list_word, part, shape, split_line};
use cert_text::{Ends, Source, Stop, TextFault, i128_then, same, u32_then, u64_then, word};

/// A field of a certificate's text, or a group of them.
#[derive(Clone, Copy, Debug, PartialEq)]
pub enum Item {
    /// What is claimed.
    Kind(Kind),
    /// How many sources, pools, products, qualities, feeds, outs and directs there are.
    Shape([u32; 7]),
    /// The base and the flow base of the plan.
    Bases(u32, u32),
    /// The weight of a feed in its pool, over the base.
    Weight(u32),
    /// The flow of an out in millionths, over the flow base.
    Outflow(u64),
    /// The flow of a direct in millionths, over the flow base.
    Direct(u64),
    /// How many splits come.
    Splits(u32),
    /// A split of a leaf.
    Cut(Split),
    /// How many proofs come.
    Proofs(u32),
    /// The node of a proof, its scale, and how many parts come.
    ProofHead(u32, u64, u32),
    /// A row with its multiplier.
    OnePart(Part),
    /// The cost in picos over a base, and the base.
    CostIs(i128, u64),
    /// The bound in picos.
    BoundIs(i128),
    /// The gap in picos over a base, and the base.
    GapIs(i128, u64),
    /// The last line, and nothing behind it.
    End,
}

/// What a text goes on with. Each state reads one item.
#[derive(Clone, Copy)]
pub enum State {
    /// The first line.
    Begin,
    /// The shape.
    Shape(Kind),
    /// The bases of a plan of so many feeds, outs and directs.
    Bases(u32, u32, u32),
    /// A weight, and so many behind it; then so many outflows and direct flows.
    Weight(u32, u32, u32),
    /// An outflow, and so many behind it; then so many direct flows.
    Outflow(u32, u32),
    /// A direct flow, and so many behind it.
    Direct(u32),
    /// The count of the splits.
    Splits(Kind),
    /// A split, and so many behind it.
    Cut(Kind, u32),
    /// The count of the proofs.
    Proofs(Kind),
    /// A proof, and so many behind it.
    Head(Kind, u32),
    /// A part, and so many behind it in its line; then so many proofs.
    Part(Kind, u32, u32),
    /// The cost.
    Cost,
    /// The bound of a gap over this base.
    GapBound(u64),
    /// The gap over this base.
    Gap(u64),
    /// The bound alone.
    Bound,
    /// The last line.
    End,
    /// Nothing comes any more.
    Ended,
}

/// The words before a plan's direct flows, and those before what comes next where there are none.
#[tactic(auto, unfolding(crate::specs::Items::direct_words_at))]
fn directs<S: Source>(src: &mut S, n: u32) -> Result<State, Stop>
    ensures { Gives (λ x. x) result (S.at src.new) (S.broken src.new) (direct_words_at n (S.at src.old)) }
{
    list_word(src, b"direct", n)?;
    Ok(if n == 0 {
        State::Splits(Kind::Gap)
    } else {
        State::Direct(n - 1)
    })
}

/// The words before a plan's outflows, and those before what comes next where there are none.
#[tactic(auto, unfolding(crate::specs::Items::outflow_words_at))]
fn outflows<S: Source>(src: &mut S, n: u32, directs_behind: u32) -> Result<State, Stop>
    ensures { Gives (λ x. x) result (S.at src.new) (S.broken src.new) (outflow_words_at n directs_behind (S.at src.old)) }
{
    list_word(src, b"outflows", n)?;
    if n == 0 {
        directs(src, directs_behind)
    } else {
        Ok(State::Outflow(n - 1, directs_behind))
    }
}

/// The words before a plan's weights, and those before what comes next where there are none.
#[tactic(auto, unfolding(crate::specs::Items::weight_words_at))]
fn weights<S: Source>(src: &mut S, n: u32, outs: u32, directs_behind: u32) -> Result<State, Stop>
    ensures { Gives (λ x. x) result (S.at src.new) (S.broken src.new) (weight_words_at n outs directs_behind (S.at src.old)) }
{
    list_word(src, b"weights", n)?;
    if n == 0 {
        outflows(src, outs, directs_behind)
    } else {
        Ok(State::Weight(n - 1, outs, directs_behind))
    }
}

/// The first line and the kind.
#[tactic(auto, unfolding(crate::specs::Items::begin_at))]
fn begin<S: Source>(src: &mut S) -> Result<(Item, State), Stop>
    ensures { Gives shown result (S.at src.new) (S.broken src.new) (begin_at (S.at src.old)) }
{
    word(src, b"poolcert 1\n")?;
    let kind = kind_line(src)?;
    Ok((Item::Kind(kind), State::Shape(kind)))
}

/// The shape.
#[tactic(auto, unfolding(crate::specs::Items::shape_step_at))]
fn shape_item<S: Source>(src: &mut S, kind: Kind) -> Result<(Item, State), Stop>
    ensures { Gives shown result (S.at src.new) (S.broken src.new) (shape_step_at kind (S.at src.old)) }
{
    let shape = shape(src)?;
    let next = match kind {
        Kind::Gap => State::Bases(shape[4], shape[5], shape[6]),
        Kind::Bound | Kind::NoPlan => State::Splits(kind),
    };
    Ok((Item::Shape(shape), next))
}

/// The bases of the plan.
#[tactic(auto, unfolding(crate::specs::Items::bases_step_at))]
fn bases<S: Source>(
    src: &mut S,
    feeds: u32,
    outs: u32,
    directs_behind: u32,
) -> Result<(Item, State), Stop>
    ensures { Gives shown result (S.at src.new) (S.broken src.new) (bases_step_at feeds outs directs_behind (S.at src.old)) }
{
    word(src, b"plan ")?;
    let base = u32_then(src, Ends::Space)?;
    let flow_base = u32_then(src, Ends::Line)?;
    let next = weights(src, feeds, outs, directs_behind)?;
    Ok((Item::Bases(base, flow_base), next))
}

/// A weight, and so many behind it.
#[tactic(auto, unfolding(crate::specs::Items::weight_step_at))]
fn weight<S: Source>(
    src: &mut S,
    behind: u32,
    outs: u32,
    directs_behind: u32,
) -> Result<(Item, State), Stop>
    ensures { Gives shown result (S.at src.new) (S.broken src.new) (weight_step_at behind outs directs_behind (S.at src.old)) }
{
    let weight = u32_then(src, Ends::before(behind))?;
    if behind == 0 {
        let next = outflows(src, outs, directs_behind)?;
        Ok((Item::Weight(weight), next))
    } else {
        Ok((
            Item::Weight(weight),
            State::Weight(behind - 1, outs, directs_behind),
        ))
    }
}

/// An outflow, and so many behind it.
#[tactic(auto, unfolding(crate::specs::Items::outflow_step_at))]
fn outflow<S: Source>(src: &mut S, behind: u32, directs_behind: u32) -> Result<(Item, State), Stop>
    ensures { Gives shown result (S.at src.new) (S.broken src.new) (outflow_step_at behind directs_behind (S.at src.old)) }
{
    let flow = u64_then(src, Ends::before(behind))?;
    if behind == 0 {
        let next = directs(src, directs_behind)?;
        Ok((Item::Outflow(flow), next))
    } else {
        Ok((
            Item::Outflow(flow),
            State::Outflow(behind - 1, directs_behind),
        ))
    }
}

/// A direct flow, and so many behind it.
#[tactic(auto, unfolding(crate::specs::Items::direct_step_at))]
fn direct<S: Source>(src: &mut S, behind: u32) -> Result<(Item, State), Stop>
    ensures { Gives shown result (S.at src.new) (S.broken src.new) (direct_step_at behind (S.at src.old)) }
{
    let flow = u64_then(src, Ends::before(behind))?;
    let next = if behind == 0 {
        State::Splits(Kind::Gap)
    } else {
        State::Direct(behind - 1)
    };
    Ok((Item::Direct(flow), next))
}

/// What comes behind the proofs.
fn claim(kind: Kind) -> State
    ensures { result ≡ claim_state kind }
{
    match kind {
        Kind::Gap => State::Cost,
        Kind::Bound => State::Bound,
        Kind::NoPlan => State::End,
    }
}

/// So many splits, and what comes behind them.
fn cuts(kind: Kind, n: u32) -> State
    ensures { result ≡ cuts_left kind n }
{
    if n == 0 {
        State::Proofs(kind)
    } else {
        State::Cut(kind, n - 1)
    }
}

/// So many proofs, and what comes behind them.
fn proofs(kind: Kind, n: u32) -> State
    ensures { result ≡ proofs_left kind n }
{
    if n == 0 {
        claim(kind)
    } else {
        State::Head(kind, n - 1)
    }
}

/// So many parts, and what comes behind their line.
fn parts(kind: Kind, n: u32, proofs_behind: u32) -> State
    ensures { result ≡ parts_left kind n proofs_behind }
{
    if n == 0 {
        proofs(kind, proofs_behind)
    } else {
        State::Part(kind, n - 1, proofs_behind)
    }
}

/// The head of a proof, and so many proofs behind it.
#[tactic(auto, unfolding(crate::specs::Items::head_step_at))]
fn head<S: Source>(src: &mut S, kind: Kind, behind: u32) -> Result<(Item, State), Stop>
    ensures { Gives shown result (S.at src.new) (S.broken src.new) (head_step_at kind behind (S.at src.old)) }
{
    word(src, b"proof ")?;
    let node = u32_then(src, Ends::Space)?;
    let scale = u64_then(src, Ends::Space)?;
    let count = u32_then(src, Ends::LineIfZero)?;
    Ok((
        Item::ProofHead(node, scale, count),
        parts(kind, count, behind),
    ))
}

/// The next item of the plan, the splits and the proofs, or of the lines before and behind them.
#[tactic(auto, unfolding(crate::specs::Items::next_at))]
pub fn read_item<S: Source>(src: &mut S, state: State) -> Result<(Item, State), Stop>
    ensures { Gives shown result (S.at src.new) (S.broken src.new) (next_at state (S.at src.old)) }
{
    match state {
        State::Begin => begin(src),
        State::Shape(kind) => shape_item(src, kind),
        State::Bases(feeds, outs, directs) => bases(src, feeds, outs, directs),
        State::Weight(behind, outs, directs) => weight(src, behind, outs, directs),
        State::Outflow(behind, directs) => outflow(src, behind, directs),
        State::Direct(behind) => direct(src, behind),
        State::Splits(kind) => {
            word(src, b"splits ")?;
            let n = u32_then(src, Ends::Line)?;
            Ok((Item::Splits(n), cuts(kind, n)))
        }
        State::Cut(kind, behind) => {
            let split = split_line(src)?;
            Ok((Item::Cut(split), cuts(kind, behind)))
        }
        State::Proofs(kind) => {
            word(src, b"proofs ")?;
            let n = u32_then(src, Ends::Line)?;
            Ok((Item::Proofs(n), proofs(kind, n)))
        }
        State::Head(kind, behind) => head(src, kind, behind),
        State::Part(kind, behind, proofs) => {
            let part = part(src, behind)?;
            Ok((Item::OnePart(part), parts(kind, behind, proofs)))
        }
        _ => read_claim(src, state),
    }
}

/// The next item of the lines behind the proofs.
#[tactic(auto, unfolding(crate::specs::Items::claim_step_at))]
fn read_claim<S: Source>(src: &mut S, state: State) -> Result<(Item, State), Stop>
    ensures { Gives shown result (S.at src.new) (S.broken src.new) (claim_step_at state (S.at src.old)) }
{
    match state {
        State::Cost => {
            word(src, b"cost ")?;
            let cost = i128_then(src, Ends::Space)?;
            let base = u64_then(src, Ends::Line)?;
            Ok((Item::CostIs(cost, base), State::GapBound(base)))
        }
        State::GapBound(base) => {
            let bound = bound(src)?;
            Ok((Item::BoundIs(bound), State::Gap(base)))
        }
        State::Gap(base) => {
            word(src, b"gap ")?;
            let gap = i128_then(src, Ends::Space)?;
            same(src, base, Ends::Line)?;
            Ok((Item::GapIs(gap, base), State::End))
        }
        State::Bound => {
            let bound = bound(src)?;
            Ok((Item::BoundIs(bound), State::End))
        }
        State::End => {
            word(src, b"end\n")?;
            Ok((Item::End, State::Ended))
        }
        _ => Err(Stop::Text(TextFault { line: src.line() })),
    }
}
