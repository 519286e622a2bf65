//! The words as clap reads them.
ghost use Rattle.std.specs.Prelude.{◌≡◌, IfOk, IfSome, codes, false, map, option_map, string_bytes};
ghost use Rattle.std.specs.List.{list_any};
ghost use Rattle.clap.specs.Words.{app_of, first_of, found_of, new_app, rows_of, rule_of, subcommand_rows_of};
ghost use Rattle.clap.specs.declared.builder.command.Command.TheViews.{out-Command};
ghost use Rattle.wm_words.specs.Parse.{command_by, init_app, is_barred, load_app, option_rule, run_app, settings_of, wm_app};
ghost use Rattle.wm_words.specs.Values.{IsInBounds};
ghost use Rattle.wm_words.specs.Words.{command_of as command_in, command_with as command_valued};

use crate::command::{Command, init_command, load_command, run_command};
use clap::error::ErrorKind;
use clap::{Arg, ArgAction, ArgMatches};
use std::alloc::{AllocError, Global};
use wm_base::Memory;

/// The command that the words give, or None where they are not in the grammar: `init --limit N`,
/// `run --now T`, `check` and `load --seed N --lines M`, where `=` may stand in place of the space behind an option.
pub fn command_of(alloc: Global, words: &[String]) -> Result<Option<Command>, Memory>
    ensures value { IfOk result (λ r. r ≡ command_in (map string_bytes words.entry.now)) }
    ensures bounds { IfOk result (λ r. IfSome r IsInBounds) }
{
    // clap takes a word `--` and leaves it out, and takes `-` as a value.
    if has_barred_word(words) {
        return Ok(None);
    }
    let grammar = grammar(alloc)?;
    match grammar.try_get_matches_from(words) {
        Ok(matches) => Ok(command_in_matches(&matches)),
        Err(error) => match error.kind() {
            ErrorKind::OutOfMemory => Err(Memory),
            _ => Ok(None),
        },
    }
}

fn has_barred_word(words: &[String]) -> bool
    ensures { result ≡ list_any (λ word. is_barred (string_bytes word)) words.now }
{
    words.iter().any(|word| is_barred_word(word.as_bytes()))
}

/// The word begins with a hyphen and is no option of the form `--name`.
fn is_barred_word(word: &[u8]) -> bool
    ensures { result ≡ is_barred word.now }
{
    word.starts_with(b"-".as_slice()) && !(word.starts_with(b"--".as_slice()) && 2 < word.len())
}

// An option that is wanted and takes one text.
fn option<'a>(alloc: Global, name: &'a str) -> Arg<'a>
    ensures rule { rule_of result ≡ option_rule name.entry.now }
    ensures local { result.global ≡ false }
{
    Arg::new(alloc, name)
        .long(name)
        .required(true)
        .action(ArgAction::Set)
}

fn init_grammar<'a>(alloc: Global) -> Result<clap::Command<'a>, AllocError>
    ensures { IfOk result (λ r. (app_of r ≡ init_app) × ((out-Command r).has_globals ≡ false)) }
{
    clap::Command::new(alloc, "init").arg(option(alloc, "limit"))
}

fn run_grammar<'a>(alloc: Global) -> Result<clap::Command<'a>, AllocError>
    ensures { IfOk result (λ r. (app_of r ≡ run_app) × ((out-Command r).has_globals ≡ false)) }
{
    clap::Command::new(alloc, "run").arg(option(alloc, "now"))
}

fn load_grammar<'a>(alloc: Global) -> Result<clap::Command<'a>, AllocError>
    ensures { IfOk result (λ r. (app_of r ≡ load_app) × ((out-Command r).has_globals ≡ false)) }
{
    clap::Command::new(alloc, "load")
        .arg(option(alloc, "seed"))?
        .arg(option(alloc, "lines"))
}

fn settings<'a>(alloc: Global) -> clap::Command<'a>
    ensures { app_of result ≡ settings_of (new_app (codes "wm")) }
{
    clap::Command::new(alloc, "wm")
        .no_binary_name(true)
        .subcommand_required(true)
        .disable_help_flag(true)
        .disable_help_subcommand(true)
}

fn grammar<'a>(alloc: Global) -> Result<clap::Command<'a>, AllocError>
    ensures { IfOk result (λ r. app_of r ≡ wm_app) }
{
    settings(alloc)
        .subcommand(init_grammar(alloc)?)?
        .subcommand(run_grammar(alloc)?)?
        .subcommand(clap::Command::new(alloc, "check"))?
        .subcommand(load_grammar(alloc)?)
}

fn command_in_matches(matches: &ArgMatches<'_>) -> Option<Command>
    ensures value { result ≡ command_by (subcommand_rows_of matches.now) }
    ensures bounds { IfSome result IsInBounds }
{
    let (name, options) = matches.subcommand()?;
    command_with(name, options)
}

fn command_with(name: &str, options: &ArgMatches<'_>) -> Option<Command>
    ensures value { result ≡ command_valued name.now (λ id. first_of id (rows_of (found_of options.now))) }
    ensures bounds { IfSome result IsInBounds }
{
    match name {
        "init" => init_command(value_of(options, "limit")?.as_bytes()),
        "run" => run_command(value_of(options, "now")?.as_bytes()),
        "check" => Some(Command::Check),
        "load" => {
            let seed = value_of(options, "seed")?;
            load_command(seed.as_bytes(), value_of(options, "lines")?.as_bytes())
        }
        _ => None,
    }
}

fn value_of<'a>(options: &ArgMatches<'a>, name: &str) -> Option<&'a str>
    ensures { option_map (λ s. s.now) result ≡ first_of name.now (rows_of (found_of options.now)) }
{
    options.get_str(name)
}
