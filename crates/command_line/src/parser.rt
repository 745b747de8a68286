// The command line as `clap` is told of it. It takes words apart and counts nothing: each name may have several values.
ghost use Rattle.std.specs.Prelude.{◌≡◌, false, IfOk};
ghost use Rattle.clap.specs.Walk.{rule_of};
ghost use Rattle.clap.specs.Simple.{app_of};
ghost use Rattle.clap.specs.declared.builder.command.Command.TheViews.{out-Command as fields_of};
ghost use Rattle.command_line.specs.Parser.{operand_rule, valued_rule, flag_rule, cached_app, operand_app, parser_app, render_app, settings_app};

use clap::{Arg, ArgAction, Command as Parser};
use std::alloc::{AllocError, Global};

// The words that are no options.
fn operand<'a>(alloc: Global) -> Arg<'a>
    ensures rule { rule_of result ≡ operand_rule }
    ensures own { result.global ≡ false }
{
    Arg::new(alloc, "operand").action(ArgAction::Append)
}

// An option with a value.
fn valued<'a>(alloc: Global, name: &'a str) -> Arg<'a>
    ensures rule { rule_of result ≡ valued_rule name.entry.now }
    ensures own { result.global ≡ false }
{
    Arg::new(alloc, name).long(name).action(ArgAction::Append)
}

// An option without a value.
fn flag<'a>(alloc: Global, name: &'a str) -> Arg<'a>
    ensures rule { rule_of result ≡ flag_rule name.entry.now }
    ensures own { result.global ≡ false }
{
    Arg::new(alloc, name)
        .long(name)
        .num_args(0)
        .default_missing_value("true")
        .action(ArgAction::Append)
}

// A command without help and version, whose first word is a subcommand.
fn plain_parser<'a>(alloc: Global) -> Parser<'a>
    ensures { app_of result ≡ settings_app }
{
    Parser::new(alloc, "avsserve")
        .no_binary_name(true)
        .disable_help_flag(true)
        .disable_help_subcommand(true)
        .disable_version_flag(true)
        .subcommand_required(true)
}

// The words of a render.
fn render_parser<'a>(alloc: Global) -> Result<Parser<'a>, AllocError>
    ensures app { IfOk result (λ parser. app_of parser ≡ render_app) }
    ensures own { IfOk result (λ parser. (fields_of parser).has_globals ≡ false) }
{
    Parser::new(alloc, "render")
        .arg(operand(alloc))?
        .arg(valued(alloc, "cache"))?
        .arg(valued(alloc, "threads"))?
        .arg(flag(alloc, "plain"))?
        .arg(flag(alloc, "report"))?
        .arg(flag(alloc, "journal"))
}

// The words of a command without options.
fn operand_parser<'a>(alloc: Global, name: &'a str) -> Result<Parser<'a>, AllocError>
    ensures app { IfOk result (λ parser. app_of parser ≡ operand_app name.entry.now) }
    ensures own { IfOk result (λ parser. (fields_of parser).has_globals ≡ false) }
{
    Parser::new(alloc, name).arg(operand(alloc))
}

// The words of a command whose only option is a cache.
fn cached_parser<'a>(alloc: Global, name: &'a str) -> Result<Parser<'a>, AllocError>
    ensures app { IfOk result (λ parser. app_of parser ≡ cached_app name.entry.now) }
    ensures own { IfOk result (λ parser. (fields_of parser).has_globals ≡ false) }
{
    operand_parser(alloc, name)?.arg(valued(alloc, "cache"))
}

/// The commands and their options.
pub(crate) fn parser<'a>(alloc: Global) -> Result<Parser<'a>, AllocError>
    ensures { IfOk result (λ parser. app_of parser ≡ parser_app) }
{
    plain_parser(alloc)
        .subcommand(render_parser(alloc)?)?
        .subcommand(operand_parser(alloc, "info")?)?
        .subcommand(operand_parser(alloc, "selftest")?)?
        .subcommand(cached_parser(alloc, "session")?)?
        .subcommand(cached_parser(alloc, "replay")?)
}
