// `command_of`: what the words of the command line ask for.
ghost use Rattle.std.specs.Prelude.{◌≡◌, IfOk, OnOk, map, option_map};
ghost use Rattle.std.specs.List.{All};
ghost use Rattle.std.specs.Str.{IsUtf8};
ghost use Rattle.clap.specs.Matches.{found_of};
ghost use Rattle.clap.specs.Simple.{subcommand_rows_of};
ghost use Rattle.clap.specs.Walk.{rows_of};
ghost use Rattle.command_line.specs.Command.{command_in, options_with, render_with, info_with, self_test_with, cached_with, session_with, replay_with, flag_among, tells_by, only, both};
ghost use Rattle.command_line.specs.Parser.{texts_of, values_in, command_of_rows};

use crate::command::{Command, RenderOptions, Tells};
use crate::numbers::{number_among, number_in};
use crate::parser::parser;
use clap::ArgMatches;
use clap::error::ErrorKind;
use fv_io::Text;
use std::alloc::{AllocError, Global};

// The values that were given for a name.
#[tactic(auto, using(crate::proofs::RowLemmas::values_read))]
fn values_of<'m, 'a>(matches: &'m ArgMatches<'a>, name: &str) -> Option<&'m [&'a str]>
    ensures { texts_of result ≡ values_in (rows_of (found_of matches.now)) name.now }
{
    matches.get_raw(name)
}

// The only one of some values.
fn only<'a>(values: Option<&[&'a str]>) -> Option<&'a str>
    ensures { option_map (λ value. value.now) result ≡ only (texts_of values.entry) }
{
    match values {
        Some([value]) => Some(*value),
        _ => None,
    }
}

// Some values where they are two.
fn both<'a>(values: Option<&[&'a str]>) -> Option<(&'a str, &'a str)>
    ensures { option_map (λ pair. (pair.0.now, pair.1.now)) result ≡ both (texts_of values.entry) }
{
    match values {
        Some([first, second]) => Some((*first, *second)),
        _ => None,
    }
}

// Whether a flag was given. None comes where it was given twice.
fn flag_among(values: Option<&[&str]>) -> Option<bool>
    ensures { result ≡ flag_among (texts_of values.entry) }
{
    match values {
        None | Some([]) => Some(false),
        Some([_]) => Some(true),
        Some(_) => None,
    }
}

// What is told, by two flags. None comes where both are given.
fn tells_by(report: bool, journal: bool) -> Option<Tells>
    ensures { result ≡ tells_by report journal }
{
    match (report, journal) {
        (false, false) => Some(Tells::Nothing),
        (true, false) => Some(Tells::Report),
        (false, true) => Some(Tells::Journal),
        (true, true) => None,
    }
}

// The options of a render. None comes where one is given twice, its value is out of range, or two exclude each other.
fn options_of(matches: &ArgMatches) -> Option<RenderOptions>
    ensures { result ≡ options_with (values_in (rows_of (found_of matches.now))) }
{
    Some(RenderOptions {
        cache: number_among(1, 256, values_of(matches, "cache"))?,
        threads: number_among(1, 16, values_of(matches, "threads"))?,
        plain: flag_among(values_of(matches, "plain"))?,
        tells: tells_by(
            flag_among(values_of(matches, "report"))?,
            flag_among(values_of(matches, "journal"))?,
        )?,
    })
}

fn render_of(alloc: Global, matches: &ArgMatches) -> Result<Option<Command>, AllocError>
    ensures { IfOk result (λ command. command ≡ render_with (values_in (rows_of (found_of matches.now)))) }
{
    let Some(script) = only(values_of(matches, "operand")) else {
        return Ok(None);
    };
    let Some(options) = options_of(matches) else {
        return Ok(None);
    };
    let script = Text::from_str(alloc, script)?;
    Ok(Some(Command::Render { script, options }))
}

fn info_of(alloc: Global, matches: &ArgMatches) -> Result<Option<Command>, AllocError>
    ensures { IfOk result (λ command. command ≡ info_with (values_in (rows_of (found_of matches.now)))) }
{
    let Some(script) = only(values_of(matches, "operand")) else {
        return Ok(None);
    };
    let script = Text::from_str(alloc, script)?;
    Ok(Some(Command::Info { script }))
}

fn self_test_of(matches: &ArgMatches) -> Option<Command>
    ensures { result ≡ self_test_with (values_in (rows_of (found_of matches.now))) }
{
    let word = only(values_of(matches, "operand"))?;
    let number = number_in(0, u32::MAX, word)?;
    Some(Command::SelfTest { number })
}

// Two names and a cache.
fn cached_of(
    alloc: Global,
    matches: &ArgMatches,
) -> Result<Option<(Text, Text, Option<u32>)>, AllocError>
    ensures { IfOk result (λ given. given ≡ cached_with (values_in (rows_of (found_of matches.now)))) }
{
    let Some((first, second)) = both(values_of(matches, "operand")) else {
        return Ok(None);
    };
    let Some(cache) = number_among(1, 256, values_of(matches, "cache")) else {
        return Ok(None);
    };
    let first = Text::from_str(alloc, first)?;
    let second = Text::from_str(alloc, second)?;
    Ok(Some((first, second, cache)))
}

fn session_of(alloc: Global, matches: &ArgMatches) -> Result<Option<Command>, AllocError>
    ensures { IfOk result (λ command. command ≡ session_with (values_in (rows_of (found_of matches.now)))) }
{
    let Some((script, list, cache)) = cached_of(alloc, matches)? else {
        return Ok(None);
    };
    Ok(Some(Command::Session {
        script,
        list,
        cache,
    }))
}

fn replay_of(alloc: Global, matches: &ArgMatches) -> Result<Option<Command>, AllocError>
    ensures { IfOk result (λ command. command ≡ replay_with (values_in (rows_of (found_of matches.now)))) }
{
    let Some((script, journal, cache)) = cached_of(alloc, matches)? else {
        return Ok(None);
    };
    Ok(Some(Command::Replay {
        script,
        journal,
        cache,
    }))
}

// What the matches ask for.
fn command_from(alloc: Global, matches: &ArgMatches) -> Result<Option<Command>, AllocError>
    ensures { IfOk result (λ command. command ≡ command_of_rows (subcommand_rows_of matches.now)) }
{
    let Some((name, matches)) = matches.subcommand() else {
        return Ok(None);
    };
    if name == "render" {
        render_of(alloc, matches)
    } else if name == "info" {
        info_of(alloc, matches)
    } else if name == "selftest" {
        Ok(self_test_of(matches))
    } else if name == "session" {
        session_of(alloc, matches)
    } else if name == "replay" {
        replay_of(alloc, matches)
    } else {
        Ok(None)
    }
}

// The words as texts.
fn texts_in(alloc: Global, words: &[Text]) -> Result<Vec<&str>, AllocError>
    ensures texts { IfOk result (λ texts. map (λ text. text.now) texts.items ≡ words.now) }
    ensures utf8 { OnOk result (All IsUtf8 words.now) }
{
    let mut texts = Vec::new(alloc);
    for word in words {
        texts.push(word.as_str())?;
    }
    Ok(texts)
}

/// What the words after the program's name ask for. None comes exactly where they break the rules on words, and an `Err`
/// is out of memory.
pub fn command_of(alloc: Global, words: &[Text]) -> Result<Option<Command>, AllocError>
    ensures { IfOk result (λ command. command ≡ command_in words.now) }
{
    let texts = texts_in(alloc, words)?;
    match parser(alloc)?.try_get_matches_from(texts.as_slice()) {
        Ok(matches) => command_from(alloc, &matches),
        Err(error) => match error.kind() {
            ErrorKind::OutOfMemory => Err(AllocError),
            _ => Ok(None),
        },
    }
}
