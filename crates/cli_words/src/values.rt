//! What the values of words say.

ghost use Rattle.std.specs.Prelude.{option_map, IsSomeAnd, Some};
ghost use Rattle.cli_words.specs.Asks.{IsCount, IsForm, IsGap, IsMoney, IsNodes, IsNumber, IsPivots, IsRaise, IsRule, IsSwitch};
ghost use Rattle.cli_words.specs.Views.{Reads};

use crate::WordsFault;
use box_space::Form;
use branching::RuleName;
use quantity::quantity_of;

/// The form that is named; pq where none is.
pub(crate) fn read_form(text: Option<&str>) -> Result<Form, WordsFault>
    ensures { Reads (λ f. f) (IsForm (option_map (λ s. s.now) text.entry)) result }
{
    match text {
        None => Ok(Form::Pq),
        Some("p") => Ok(Form::P),
        Some("q") => Ok(Form::Q),
        Some("pq") => Ok(Form::Pq),
        Some(_) => Err(WordsFault::Usage),
    }
}

/// The rule that is named; widest where none is.
pub(crate) fn read_rule(text: Option<&str>) -> Result<RuleName, WordsFault>
    ensures { Reads (λ r. r) (IsRule (option_map (λ s. s.now) text.entry)) result }
{
    match text {
        None => Ok(RuleName::Widest),
        Some("first") => Ok(RuleName::First),
        Some("widest") => Ok(RuleName::Widest),
        Some("violated") => Ok(RuleName::Violated),
        Some("fewest") => Ok(RuleName::Fewest),
        Some(_) => Err(WordsFault::Usage),
    }
}

/// Whether something is switched on; off where nothing is said.
pub(crate) fn read_switch(text: Option<&str>) -> Result<bool, WordsFault>
    ensures { Reads (λ b. b) (IsSwitch (option_map (λ s. s.now) text.entry)) result }
{
    match text {
        None => Ok(false),
        Some("on") => Ok(true),
        Some("off") => Ok(false),
        Some(_) => Err(WordsFault::Usage),
    }
}

/// The number of nodes that is written; 1000 where none is.
pub(crate) fn read_nodes(text: Option<&str>) -> Result<u64, WordsFault>
    ensures { Reads (λ n. n) (IsNodes (option_map (λ s. s.now) text.entry)) result }
{
    match text {
        Some(text) => digits_of(text),
        None => Ok(DEFAULT_NODES),
    }
}

/// The gap that is written, in picos; 0.01 of money where none is.
pub(crate) fn read_gap(text: Option<&str>) -> Result<i128, WordsFault>
    ensures { Reads (λ g. g) (IsGap (option_map (λ s. s.now) text.entry)) result }
{
    match text {
        Some(text) => read_money(text),
        None => Ok(DEFAULT_GAP),
    }
}

/// The number of pivots in which halves are raised; 0 where none is written.
pub(crate) fn read_raise(text: Option<&str>) -> Result<u64, WordsFault>
    ensures { Reads (λ n. n) (IsRaise (option_map (λ s. s.now) text.entry)) result }
{
    match text {
        Some(text) => digits_of(text),
        None => Ok(0),
    }
}

/// The number of pivots that is written; 1000 where none is.
pub(crate) fn read_pivots(text: Option<&str>) -> Result<u64, WordsFault>
    ensures { Reads (λ n. n) (IsPivots (option_map (λ s. s.now) text.entry)) result }
{
    match text {
        Some(text) => digits_of(text),
        None => Ok(DEFAULT_PIVOTS),
    }
}

/// The number of jobs that is written, from 1 to 1000; 16 where none is.
pub(crate) fn read_count(text: Option<&str>) -> Result<u32, WordsFault>
    ensures { Reads (λ n. n) (IsCount (option_map (λ s. s.now) text.entry)) result }
{
    match text {
        Some(text) => count_of(text),
        None => Ok(DEFAULT_COUNT),
    }
}

/// A number from 1 to 1000.
fn count_of(text: &str) -> Result<u32, WordsFault>
    ensures { Reads (λ n. n) (IsCount (Some text.now)) result }
{
    let count = digits_of(text)?;
    if count < 1 || count > MOST_COUNT {
        return Err(WordsFault::Usage);
    }
    Ok(count as u32)
}

/// The number that is written; usage where none is.
pub(crate) fn read_number(text: Option<&str>) -> Result<u64, WordsFault>
    ensures { Reads (λ n. n) (λ n. IsSomeAnd (option_map (λ s. s.now) text.entry) (λ t. IsNumber t n)) result }
{
    match text {
        Some(text) => digits_of(text),
        None => Err(WordsFault::Usage),
    }
}

/// One to twenty decimal digits, of a number of at most `2^64 - 1`.
fn digits_of(text: &str) -> Result<u64, WordsFault>
    ensures { Reads (λ n. n) (IsNumber text.now) result }
{
    if text.len() > MOST_DIGITS || text.starts_with('+') {
        return Err(WordsFault::Usage);
    }
    match text.parse::<u64>() {
        Ok(n) => Ok(n),
        Err(_) => Err(WordsFault::Usage),
    }
}

/// A quantity of money, in picos.
fn read_money(text: &str) -> Result<i128, WordsFault>
    ensures { Reads (λ g. g) (IsMoney text.now) result }
{
    let Some(millionths) = quantity_of(text) else {
        return Err(WordsFault::Usage);
    };
    if millionths < 0 || millionths > MOST_MONEY {
        return Err(WordsFault::Usage);
    }
    Ok(millionths * PICOS_IN_MILLIONTH)
}

/// How many splits `solve` may make unless it is told.
const DEFAULT_NODES: u64 = 1000;

/// How many pivots `tight` may take at a leaf unless it is told.
const DEFAULT_PIVOTS: u64 = 1000;

/// How many jobs `jobs` writes at the most unless it is told.
const DEFAULT_COUNT: u32 = 16;

/// The most jobs that `jobs` may be told to write.
const MOST_COUNT: u64 = 1000;

/// The gap that closes `solve` unless it is told, in picos: 0.01 of money.
const DEFAULT_GAP: i128 = 10_000_000_000;

/// The most digits of a number.
const MOST_DIGITS: usize = 20;

/// The most money that a gap may be, in millionths.
const MOST_MONEY: i128 = 1_000_000_000_000;

/// How many picos a millionth of money has.
const PICOS_IN_MILLIONTH: i128 = 1_000_000;
