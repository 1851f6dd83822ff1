//! The commands, as `clap` is told of them, and what it makes of words.
ghost use Rattle.std.specs.Prelude.{◌≡◌, [], ◌∷◌, IfErr, IfOk, Some, None, false, fold, map, string_bytes, true, option_map};
ghost use Rattle.clap.specs.Words.{app_of, new_rule, with_rule, with_subcommand, all_of, first_of, found_of, kind_of, rows_of, subcommand_of, subcommand_rows_of};
ghost use Rattle.clap.specs.declared.builder.command.Command.TheViews.{out-Command as fields_of};
ghost use Rattle.command_items.specs.Views.{has_form, line};
ghost use Rattle.command_items.specs.Lines.{app_with, bare_app, check_line, formulate_line, gather_line, jobs_line, line_app, long_rule, make_line, many_rules, program_app, report_line, solve_line, trial_line, work_line};

use clap::error::ErrorKind;
use clap::{Arg, ArgAction, ArgMatches, Command, Error};
use std::alloc::{AllocError, Global};

/// What `clap` makes of the words. Of words of the form it fails only for want of memory.
pub fn matches_of<'a>(alloc: Global, words: &'a [String]) -> Result<ArgMatches<'a>, Error>
    ensures rows { IfOk result (λ m. subcommand_rows_of m ≡ subcommand_of program_app (map string_bytes words.entry.now)) }
    // Promise: Of words of the form only want of memory can fail in `clap`
    ensures memory { has_form (map string_bytes words.entry.now) ≡ true → IfErr result (λ e. kind_of e ≡ ErrorKind.OutOfMemory) }
{
    let program = program(alloc)?;
    program.try_get_matches_from(words)
}

/// The value under the name of an argument, if it has one.
pub fn text_of<'a>(matches: &ArgMatches<'a>, id: &str) -> Option<&'a str>
    ensures { option_map (λ s. s.now) result ≡ first_of id.now (rows_of (found_of matches.now)) }
{
    matches.get_str(id)
}

/// All values under the name of an argument, in order, if it has one.
pub fn texts_of<'m, 'a>(matches: &'m ArgMatches<'a>, id: &str) -> Option<&'m [&'a str]>
    ensures { option_map (λ s. map (λ v. v.now) s.now) result ≡ all_of id.now (rows_of (found_of matches.now)) }
{
    matches.get_strs(id)
}

/// The subcommand that was met, with its matches.
pub fn entered<'m, 'a>(matches: &'m ArgMatches<'a>) -> Option<(&'a str, &'m ArgMatches<'a>)>
    ensures { option_map (λ p. (p.0.now, rows_of (found_of p.1.now))) result ≡ subcommand_rows_of matches.entry.now }
{
    matches.subcommand()
}

/// The program with all its commands.
fn program<'a>(alloc: Global) -> Result<Command<'a>, AllocError>
    ensures { IfOk result (λ c. app_of c ≡ program_app) }
{
    let program = nine_lines(alloc)?;
    let program = with_line(
        alloc,
        program,
        "tight",
        &["net", "cert"],
        None,
        &["form", "pivots"],
    )?;
    with_line(
        alloc,
        program,
        "checktight",
        &["net", "cert", "tight"],
        None,
        &[],
    )
}

/// The program with the first nine commands. A chain of more than three proves slowly.
fn nine_lines<'a>(alloc: Global) -> Result<Command<'a>, AllocError>
    ensures { IfOk result (λ c. app_of c ≡ app_with bare_app (solve_line ∷ check_line ∷ report_line ∷ formulate_line ∷ make_line ∷ trial_line ∷ jobs_line ∷ work_line ∷ gather_line ∷ [])) }
{
    let program = six_lines(alloc)?;
    let program = with_line(
        alloc,
        program,
        "jobs",
        &["net"],
        None,
        &["journal", "count"],
    )?;
    let program = with_line(alloc, program, "work", &["net", "jobs"], None, &["form"])?;
    let answers = Some("answers");
    with_line(
        alloc,
        program,
        "gather",
        &["net", "jobs"],
        answers,
        &["journal"],
    )
}

/// The program with the first six commands.
fn six_lines<'a>(alloc: Global) -> Result<Command<'a>, AllocError>
    ensures { IfOk result (λ c. app_of c ≡ app_with bare_app (solve_line ∷ check_line ∷ report_line ∷ formulate_line ∷ make_line ∷ trial_line ∷ [])) }
{
    let program = three_lines(alloc)?;
    let program = with_line(alloc, program, "formulate", &["net"], None, &["form"])?;
    let program = with_line(alloc, program, "make", &["number"], None, &[])?;
    with_line(alloc, program, "trial", &["number"], None, &[])
}

/// The program with the first three commands.
fn three_lines<'a>(alloc: Global) -> Result<Command<'a>, AllocError>
    ensures { IfOk result (λ c. app_of c ≡ app_with bare_app (solve_line ∷ check_line ∷ report_line ∷ [])) }
{
    let program = with_line(
        alloc,
        bare(alloc),
        "solve",
        &["net"],
        None,
        &[
            "form", "nodes", "gap", "journal", "rule", "squeeze", "raise",
        ],
    )?;
    let program = with_line(alloc, program, "check", &["net", "cert"], None, &[])?;
    with_line(alloc, program, "report", &["net", "cert"], None, &[])
}

/// The program with no command: its words leave out its name, and it has no help.
fn bare<'a>(alloc: Global) -> Command<'a>
    ensures { app_of result ≡ bare_app }
{
    Command::new(alloc, "pool")
        .no_binary_name(true)
        .disable_help_flag(true)
        .disable_help_subcommand(true)
}

/// The program with one command more, of this name, with these positionals, those of a name that may stand several times, and these
/// options.
fn with_line<'a>(
    alloc: Global,
    program: Command<'a>,
    name: &'a str,
    places: &[&'a str],
    many: Option<&'a str>,
    options: &[&'a str],
) -> Result<Command<'a>, AllocError>
    ensures { IfOk result (λ c. app_of c ≡ with_subcommand (app_of program.entry) (line_app (line name.entry.now places.now many.entry options.now)).top) }
{
    let command = line_command(alloc, name, places, many, options)?;
    program.subcommand(command)
}

/// The command of this name, with these positionals, those of a name that may stand several times, and these options.
fn line_command<'a>(
    alloc: Global,
    name: &'a str,
    places: &[&'a str],
    many: Option<&'a str>,
    options: &[&'a str],
) -> Result<Command<'a>, AllocError>
    ensures app { IfOk result (λ c. app_of c ≡ line_app (line name.entry.now places.now many.entry options.now)) }
    ensures local { IfOk result (λ c. (fields_of c).has_globals ≡ false) }
{
    let placed = with_places(alloc, Command::new(alloc, name), places)?;
    let command = with_many(alloc, placed, many)?;
    with_options(alloc, command, options)
}

/// The command with these positionals more.
fn with_places<'a>(
    alloc: Global,
    command: Command<'a>,
    names: &[&'a str],
) -> Result<Command<'a>, AllocError>
    ensures app { IfOk result (λ c. app_of c ≡ fold with_rule (app_of command.entry) (map new_rule (map (λ n. n.now) names.now))) }
    ensures local { (fields_of command.entry).has_globals ≡ false → IfOk result (λ c. (fields_of c).has_globals ≡ false) }
{
    let Some((name, rest)) = names.split_first() else {
        return Ok(command);
    };
    let command = with_place(alloc, command, name)?;
    with_places(alloc, command, rest)
}

/// The command with one positional more.
fn with_place<'a>(
    alloc: Global,
    command: Command<'a>,
    name: &'a str,
) -> Result<Command<'a>, AllocError>
    ensures app { IfOk result (λ c. app_of c ≡ with_rule (app_of command.entry) (new_rule name.entry.now)) }
    ensures local { (fields_of command.entry).has_globals ≡ false → IfOk result (λ c. (fields_of c).has_globals ≡ false) }
{
    command.arg(Arg::new(alloc, name))
}

/// The command with the positionals of one name more that may stand several times, if there are such.
fn with_many<'a>(
    alloc: Global,
    command: Command<'a>,
    many: Option<&'a str>,
) -> Result<Command<'a>, AllocError>
    ensures app { IfOk result (λ c. app_of c ≡ fold with_rule (app_of command.entry) (many_rules (option_map (λ n. n.now) many.entry))) }
    ensures local { (fields_of command.entry).has_globals ≡ false → IfOk result (λ c. (fields_of c).has_globals ≡ false) }
{
    match many {
        Some(name) => command.arg(Arg::new(alloc, name).action(ArgAction::Append)),
        None => Ok(command),
    }
}

/// The command with these options more.
fn with_options<'a>(
    alloc: Global,
    command: Command<'a>,
    names: &[&'a str],
) -> Result<Command<'a>, AllocError>
    ensures app { IfOk result (λ c. app_of c ≡ fold with_rule (app_of command.entry) (map long_rule (map (λ n. n.now) names.now))) }
    ensures local { (fields_of command.entry).has_globals ≡ false → IfOk result (λ c. (fields_of c).has_globals ≡ false) }
{
    let Some((name, rest)) = names.split_first() else {
        return Ok(command);
    };
    let command = with_option(alloc, command, name)?;
    with_options(alloc, command, rest)
}

/// The command with one option more.
fn with_option<'a>(
    alloc: Global,
    command: Command<'a>,
    name: &'a str,
) -> Result<Command<'a>, AllocError>
    ensures app { IfOk result (λ c. app_of c ≡ with_rule (app_of command.entry) (long_rule name.entry.now)) }
    ensures local { (fields_of command.entry).has_globals ≡ false → IfOk result (λ c. (fields_of c).has_globals ≡ false) }
{
    command.arg(Arg::new(alloc, name).long(name))
}
