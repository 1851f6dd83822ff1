//! From words to a request.

ghost use Rattle.std.specs.Prelude.{◌≡◌, [], IfOk, true, map, string_bytes, option_map, unwrap_or, codes, Some, Err, IfErr};
ghost use Rattle.clap.specs.Words.{found_of, rows_of};
ghost use Rattle.command_items.specs.Views.{has_form};
ghost use Rattle.cli_words.specs.Requests.{Asked};
ghost use Rattle.cli_words.specs.Asks.{Asks};
ghost use Rattle.cli_words.specs.Views.{Answers, Means, Reads, Takes, shown_request};

use crate::values::{
    read_count, read_form, read_gap, read_nodes, read_number, read_pivots, read_raise, read_rule,
    read_switch,
};
use crate::{Request, SolveWords, WordsFault};
use clap::ArgMatches;
use command_items::{entered, has_form, matches_of, text_of, texts_of};
use std::alloc::Global;

/// The request that the words ask. `words` leaves out the program's name.
///
/// `Usage` exactly where the words ask none; memory aside, every other list of words is answered.
pub fn read_words(alloc: Global, words: &[String]) -> Result<Request, WordsFault>
    // Promise: The request that is read is one that the words of the command line ask
    ensures asks { IfOk result (λ request. Asks (map string_bytes words.now) (shown_request request)) }
    // Promise: The words of the command line ask one request at most
    ensures only { IfOk result (λ request. (asked : Asked) → Asks (map string_bytes words.now) asked → asked ≡ shown_request request) }
    // Promise: Usage is answered only where the words ask no request
    ensures usage { result ≡ Err WordsFault.Usage → (asked : Asked) → ¬ Asks (map string_bytes words.now) asked }
{
    match has_form(alloc, words) {
        Ok(true) => read_formed(alloc, words),
        Ok(false) => Err(WordsFault::Usage),
        Err(_) => Err(WordsFault::Memory),
    }
}

/// What words of the form ask.
fn read_formed(alloc: Global, words: &[String]) -> Result<Request, WordsFault>
    requires { has_form (map string_bytes words.now) ≡ true }
    ensures { Answers shown_request (Asks (map string_bytes words.now)) result }
{
    let Ok(matches) = matches_of(alloc, words) else {
        return Err(WordsFault::Memory);
    };
    let (command, inner) = entered(&matches).unwrap();
    read_command(alloc, command, inner)
}

/// What the command asks with these values. Memory is taken only where they ask something: for a text of its own.
fn read_command(
    alloc: Global,
    command: &str,
    matches: &ArgMatches<'_>,
) -> Result<Request, WordsFault>
    // Promise: Of words that `clap` has read want of memory is told only where they ask something: a value that means nothing is usage (2)
    ensures { Takes shown_request (Means command.now (rows_of (found_of matches.now))) result }
{
    match command {
        "solve" => read_solve(alloc, matches),
        "check" => read_check(alloc, matches),
        "report" => read_report(alloc, matches),
        "formulate" => read_formulate(alloc, matches),
        "make" => read_make(matches),
        "trial" => read_trial(matches),
        "jobs" => read_jobs(alloc, matches),
        "work" => read_work(alloc, matches),
        "gather" => read_gather(alloc, matches),
        "tight" => read_tight(alloc, matches),
        "checktight" => read_checktight(alloc, matches),
        _ => Err(WordsFault::Usage),
    }
}

fn read_solve(alloc: Global, matches: &ArgMatches<'_>) -> Result<Request, WordsFault>
    ensures { Takes shown_request (Means (codes "solve") (rows_of (found_of matches.now))) result }
{
    let form = read_form(text_of(matches, "form"))?;
    let nodes = read_nodes(text_of(matches, "nodes"))?;
    let gap = read_gap(text_of(matches, "gap"))?;
    let rule = read_rule(text_of(matches, "rule"))?;
    let squeeze = read_switch(text_of(matches, "squeeze"))?;
    let raise = read_raise(text_of(matches, "raise"))?;
    let Some(net) = text_of(matches, "net") else {
        return Err(WordsFault::Usage);
    };
    let journal = copied_option(alloc, text_of(matches, "journal"))?;
    Ok(Request::Solve(SolveWords {
        net: copied(alloc, net)?,
        form,
        nodes,
        gap,
        journal,
        rule,
        squeeze,
        raise,
    }))
}

fn read_check(alloc: Global, matches: &ArgMatches<'_>) -> Result<Request, WordsFault>
    ensures { Takes shown_request (Means (codes "check") (rows_of (found_of matches.now))) result }
{
    let Some(net) = text_of(matches, "net") else {
        return Err(WordsFault::Usage);
    };
    let Some(cert) = text_of(matches, "cert") else {
        return Err(WordsFault::Usage);
    };
    Ok(Request::Check(copied(alloc, net)?, copied(alloc, cert)?))
}

fn read_report(alloc: Global, matches: &ArgMatches<'_>) -> Result<Request, WordsFault>
    ensures { Takes shown_request (Means (codes "report") (rows_of (found_of matches.now))) result }
{
    let Some(net) = text_of(matches, "net") else {
        return Err(WordsFault::Usage);
    };
    let Some(cert) = text_of(matches, "cert") else {
        return Err(WordsFault::Usage);
    };
    Ok(Request::Report(copied(alloc, net)?, copied(alloc, cert)?))
}

fn read_formulate(alloc: Global, matches: &ArgMatches<'_>) -> Result<Request, WordsFault>
    ensures { Takes shown_request (Means (codes "formulate") (rows_of (found_of matches.now))) result }
{
    let form = read_form(text_of(matches, "form"))?;
    let Some(net) = text_of(matches, "net") else {
        return Err(WordsFault::Usage);
    };
    Ok(Request::Formulate(copied(alloc, net)?, form))
}

fn read_make(matches: &ArgMatches<'_>) -> Result<Request, WordsFault>
    ensures { Reads shown_request (Means (codes "make") (rows_of (found_of matches.now))) result }
{
    let number = read_number(text_of(matches, "number"))?;
    Ok(Request::Make(number))
}

fn read_trial(matches: &ArgMatches<'_>) -> Result<Request, WordsFault>
    ensures { Reads shown_request (Means (codes "trial") (rows_of (found_of matches.now))) result }
{
    let number = read_number(text_of(matches, "number"))?;
    Ok(Request::Trial(number))
}

fn read_jobs(alloc: Global, matches: &ArgMatches<'_>) -> Result<Request, WordsFault>
    ensures { Takes shown_request (Means (codes "jobs") (rows_of (found_of matches.now))) result }
{
    let count = read_count(text_of(matches, "count"))?;
    let Some(net) = text_of(matches, "net") else {
        return Err(WordsFault::Usage);
    };
    let Some(file) = text_of(matches, "journal") else {
        return Err(WordsFault::Usage);
    };
    Ok(Request::Jobs(copied(alloc, net)?, copied(alloc, file)?, count))
}

fn read_work(alloc: Global, matches: &ArgMatches<'_>) -> Result<Request, WordsFault>
    ensures { Takes shown_request (Means (codes "work") (rows_of (found_of matches.now))) result }
{
    let form = read_form(text_of(matches, "form"))?;
    let Some(net) = text_of(matches, "net") else {
        return Err(WordsFault::Usage);
    };
    let Some(jobs) = text_of(matches, "jobs") else {
        return Err(WordsFault::Usage);
    };
    Ok(Request::Work(copied(alloc, net)?, copied(alloc, jobs)?, form))
}

fn read_gather(alloc: Global, matches: &ArgMatches<'_>) -> Result<Request, WordsFault>
    ensures { Takes shown_request (Means (codes "gather") (rows_of (found_of matches.now))) result }
{
    let Some(net) = text_of(matches, "net") else {
        return Err(WordsFault::Usage);
    };
    let Some(jobs) = text_of(matches, "jobs") else {
        return Err(WordsFault::Usage);
    };
    let Some(journal) = text_of(matches, "journal") else {
        return Err(WordsFault::Usage);
    };
    let net = copied(alloc, net)?;
    let jobs = copied(alloc, jobs)?;
    let answers = copied_texts(alloc, texts_of(matches, "answers"))?;
    Ok(Request::Gather(net, jobs, answers, copied(alloc, journal)?))
}

fn read_tight(alloc: Global, matches: &ArgMatches<'_>) -> Result<Request, WordsFault>
    ensures { Takes shown_request (Means (codes "tight") (rows_of (found_of matches.now))) result }
{
    let form = read_form(text_of(matches, "form"))?;
    let pivots = read_pivots(text_of(matches, "pivots"))?;
    let Some(net) = text_of(matches, "net") else {
        return Err(WordsFault::Usage);
    };
    let Some(cert) = text_of(matches, "cert") else {
        return Err(WordsFault::Usage);
    };
    Ok(Request::Tight(copied(alloc, net)?, copied(alloc, cert)?, form, pivots))
}

fn read_checktight(alloc: Global, matches: &ArgMatches<'_>) -> Result<Request, WordsFault>
    ensures { Takes shown_request (Means (codes "checktight") (rows_of (found_of matches.now))) result }
{
    let Some(net) = text_of(matches, "net") else {
        return Err(WordsFault::Usage);
    };
    let Some(cert) = text_of(matches, "cert") else {
        return Err(WordsFault::Usage);
    };
    let Some(marks) = text_of(matches, "tight") else {
        return Err(WordsFault::Usage);
    };
    let net = copied(alloc, net)?;
    let cert = copied(alloc, cert)?;
    Ok(Request::CheckTight(net, cert, copied(alloc, marks)?))
}

/// The value, if there is one, as a text of its own.
fn copied_option(alloc: Global, value: Option<&str>) -> Result<Option<String>, WordsFault>
    ensures ok { IfOk result (λ text. option_map string_bytes text ≡ option_map (λ s. s.now) value.entry) }
    ensures err { IfErr result (λ e. e ≡ WordsFault.Memory) }
{
    match value {
        None => Ok(None),
        Some(text) => Ok(Some(copied(alloc, text)?)),
    }
}

/// The text, as one of its own.
fn copied(alloc: Global, text: &str) -> Result<String, WordsFault>
    ensures ok { IfOk result (λ s. string_bytes s ≡ text.now) }
    ensures err { IfErr result (λ e. e ≡ WordsFault.Memory) }
{
    String::from_str(alloc, text).map_err(|_| WordsFault::Memory)
}

/// The texts, if there are any, each as one of its own.
fn copied_texts(alloc: Global, texts: Option<&[&str]>) -> Result<Vec<String>, WordsFault>
    ensures ok { IfOk result (λ v. map string_bytes v.items ≡ unwrap_or (option_map (λ s. map (λ t. t.now) s.now) texts.entry) []) }
    ensures err { IfErr result (λ e. e ≡ WordsFault.Memory) }
{
    match texts {
        None => Ok(Vec::new(alloc)),
        Some(texts) => copied_each(alloc, texts),
    }
}

/// The texts, each as one of its own.
fn copied_each(alloc: Global, texts: &[&str]) -> Result<Vec<String>, WordsFault>
    ensures ok { IfOk result (λ v. map string_bytes v.items ≡ map (λ t. t.now) texts.now) }
    ensures err { IfErr result (λ e. e ≡ WordsFault.Memory) }
{
    let mut all = Vec::new(alloc);
    for text in texts {
        let own = copied(alloc, *text)?;
        all.push(own).map_err(|_| WordsFault::Memory)?;
    }
    Ok(all)
}
