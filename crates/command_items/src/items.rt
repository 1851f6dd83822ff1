//! The items of a list of words, and whether a command takes them.

ghost use Rattle.std.specs.Prelude.{◌≡◌, ◌&&◌, true, false, IfOk, List, Option, count_by, is_some, nat_le, not, option_map, map, string_bytes};
ghost use Rattle.std.specs.List.{list_all, list_any};
ghost use Rattle.std.specs.Option.{option_map_or};
ghost use Rattle.std.specs.Str.{bytes_eq};
ghost use Rattle.clap.specs.Lexer.{long_of, strip_byte, name_and_value};
ghost use Rattle.command_items.specs.Items.{Given, Text, fits, flag, is_named, is_value, item, items_of, once, word_read};
ghost use Rattle.command_items.specs.Views.{fits_command, shown_item, shown_items, has_form, read_then};

use std::alloc::{AllocError, Global};

/// An item: a positional has no name.
#[derive(Clone, Copy)]
pub(crate) struct Item<'a> {
    pub(crate) name: Option<&'a str>,
    pub(crate) value: &'a str,
}

/// What a word is: the name of an option whose value comes next, an item, or neither.
pub(crate) enum WordRead<'a> {
    Waits(&'a str),
    Has(Item<'a>),
    Fails,
}

/// Whether the words are a command and items that fit it, or memory ran out.
pub fn has_form(alloc: Global, words: &[String]) -> Result<bool, AllocError>
    ensures { IfOk result (λ b. b ≡ has_form (map string_bytes words.now)) }
{
    let Some((command, rest)) = words.split_first() else {
        return Ok(false);
    };
    let Some(items) = split(alloc, rest)? else {
        return Ok(false);
    };
    Ok(fits_command(command.as_str(), items.as_slice()))
}

/// The items of the words, where they are of the form.
fn split<'a>(alloc: Global, words: &'a [String]) -> Result<Option<Vec<Item<'a>>>, AllocError>
    ensures { IfOk result (λ o. option_map (λ v. shown_items v.items) o ≡ items_of (map string_bytes words.entry.now)) }
{
    let mut items = Vec::new(alloc);
    let mut waiting = None;
    for word in words {
        match read_word(waiting, word.as_str()) {
            WordRead::Waits(name) => waiting = Some(name),
            WordRead::Has(item) => {
                items.push(item)?;
                waiting = None;
            }
            WordRead::Fails => return Ok(None),
        }
    }
    if waiting.is_some() {
        return Ok(None);
    }
    Ok(Some(items))
}

/// What a word is, where the option whose value comes next may wait.
fn read_word<'a>(waiting: Option<&'a str>, word: &'a str) -> WordRead<'a>
    ensures { (next : Option Text → Option (List Given)) → word_read (option_map (λ s. s.now) waiting.entry) word.entry.now next ≡ read_then result next }
{
    if waiting.is_some() || is_value(word) {
        read_item(waiting, word)
    } else {
        read_flag(word)
    }
}

fn read_flag<'a>(word: &'a str) -> WordRead<'a>
    ensures { (next : Option Text → Option (List Given)) → flag (long_of word.entry.now) next ≡ read_then result next }
{
    match long_of(word) {
        None => WordRead::Fails,
        Some((name, None)) => WordRead::Waits(name),
        Some((name, Some(value))) => read_item(Some(name), value),
    }
}

fn read_item<'a>(name: Option<&'a str>, value: &'a str) -> WordRead<'a>
    ensures { (next : Option Text → Option (List Given)) → item (option_map (λ s. s.now) name.entry) value.entry.now next ≡ read_then result next }
{
    if is_value(value) {
        WordRead::Has(Item { name, value })
    } else {
        WordRead::Fails
    }
}

/// The name and the value of `--name` or `--name=value`.
fn long_of(word: &str) -> Option<(&str, Option<&str>)>
    ensures { option_map (λ p. (p.0.now, option_map (λ s. s.now) p.1)) result ≡ long_of word.now }
{
    let rest = strip_dash(strip_dash(word)?)?;
    if rest.is_empty() {
        return None;
    }
    Some(split_value(rest))
}

/// What follows a first hyphen.
fn strip_dash(word: &str) -> Option<&str>
    ensures { option_map (λ s. s.now) result ≡ strip_byte 45 word.now }
{
    word.strip_prefix('-')
}

/// What stands before the first `=`, and what stands behind it if there is one.
fn split_value(text: &str) -> (&str, Option<&str>)
    ensures { (result.0.now, option_map (λ s. s.now) result.1) ≡ name_and_value text.now }
{
    match text.split_once('=') {
        Some((name, value)) => (name, Some(value)),
        None => (text, None),
    }
}

/// Whether the word may be a positional or a value.
fn is_value(word: &str) -> bool
    ensures { result ≡ is_value word.now }
{
    !word.is_empty() && strip_dash(word).is_none()
}

/// Whether the items fit the command.
fn fits_command(command: &str, items: &[Item<'_>]) -> bool
    ensures { result ≡ fits_command command.now (shown_items items.now) }
{
    match command {
        "solve" => {
            let options = [
                "form", "nodes", "gap", "journal", "rule", "squeeze", "raise",
            ];
            fits(items, 1, 1, &options)
        }
        "check" | "report" => fits(items, 2, 2, &[]),
        "formulate" => fits(items, 1, 1, &["form"]),
        "make" | "trial" => fits(items, 1, 1, &[]),
        "jobs" => fits(items, 1, 1, &["journal", "count"]),
        "work" => fits(items, 2, 2, &["form"]),
        "gather" => fits(items, 3, 2 + MOST_ANSWERS, &["journal"]),
        "tight" => fits(items, 2, 2, &["form", "pivots"]),
        "checktight" => fits(items, 3, 3, &[]),
        _ => false,
    }
}

/// How many files of answers `gather` takes.
const MOST_ANSWERS: usize = 64;

/// Whether the items are from the least to the most of so many positionals, and of these options each at most once.
fn fits(items: &[Item<'_>], least: usize, most: usize, options: &[&str]) -> bool
    ensures { result ≡ fits least most (map (λ o. o.now) options.now) (shown_items items.now) }
{
    if !has_count(items, least, most) {
        return false;
    }
    if !has_only(items, options) {
        return false;
    }
    once(items)
}

fn has_count(items: &[Item<'_>], least: usize, most: usize) -> bool
    ensures { result ≡ (nat_le least (count_by (λ x. not (is_some x.name)) items.now) && nat_le (count_by (λ x. not (is_some x.name)) items.now) most) }
{
    let count = count_positionals(items);
    least <= count && count <= most
}

fn count_positionals(items: &[Item<'_>]) -> usize
    ensures { result ≡ count_by (λ x. not (is_some x.name)) items.now }
{
    items.iter().filter(|item| item.name.is_none()).count()
}

fn has_only(items: &[Item<'_>], options: &[&str]) -> bool
    ensures { result ≡ list_all (λ x. option_map_or (λ n. list_any (λ o. bytes_eq o.now n.now) options.now) x.name true) items.now }
{
    items.iter().all(|item| match item.name {
        Some(name) => is_option(options, name),
        None => true,
    })
}

fn is_option(options: &[&str], name: &str) -> bool
    ensures { result ≡ list_any (λ o. bytes_eq o.now name.now) options.now }
{
    options.iter().any(|option| *option == name)
}

/// Whether no option stands twice.
fn once(items: &[Item<'_>]) -> bool
    ensures { result ≡ once (shown_items items.now) }
{
    let Some((item, rest)) = items.split_first() else {
        return true;
    };
    if repeats(item, rest) {
        return false;
    }
    once(rest)
}

/// Whether the item's option stands again among the rest.
fn repeats(item: &Item<'_>, rest: &[Item<'_>]) -> bool
    ensures { result ≡ option_map_or (λ n. list_any (λ x. is_named n.now (shown_item x)) rest.now) item.now.name false }
{
    match item.name {
        Some(name) => has_named(rest, name),
        None => false,
    }
}

fn has_named(items: &[Item<'_>], name: &str) -> bool
    ensures { result ≡ list_any (λ x. is_named name.now (shown_item x)) items.now }
{
    items.iter().any(|item| is_named(item, name))
}

fn is_named(item: &Item<'_>, name: &str) -> bool
    ensures { result ≡ is_named name.now (shown_item item.now) }
{
    match item.name {
        Some(own) => name == own,
        None => false,
    }
}
