ghost use Rattle.std.specs.Prelude.{◌≡◌, false, IfErr, IfOk, Some, option_and_then};
ghost use Rattle.clap.specs.Words.{app_of, first_value, found_of, kind_of, one_text, rule_of};
ghost use Rattle.program_meaning.specs.declared.options.Choice.{Choice};
ghost use Rattle.program_meaning.specs.declared.options.Language.{Language};
ghost use Rattle.program_meaning.specs.declared.options.Options.{Options};
ghost use Rattle.redlog_run.specs.Reading.{HasValues, app, flag_rule, flag_text, rule_for};
ghost use Rattle.program_meaning.specs.Value.{value_of};
ghost use Rattle.program_meaning.specs.CommandWords.{greatest_of, Spells};
ghost use Rattle.program_meaning.specs.OptionIds.{id_of, smt_id, AreInRange};

use crate::options::SMT_ID;
use crate::value::value_of;
use clap::error::ErrorKind;
use clap::{Arg, ArgAction, ArgMatches, Command, Error};
use program_meaning::{Choice, Language, Options};
use std::alloc::{AllocError, Global};

/// The options that valid words give, read by `clap`: each value is from 1 to the greatest of its option. Its only error is want of
/// memory.
pub fn options_of(alloc: Global, words: &[String]) -> Result<Options, AllocError>
    requires { (options : Options) × Spells words.now options }
    ensures spelled { IfOk result (λ options. Spells words.now options) }
    ensures in_range { IfOk result (λ options. AreInRange options) }
{
    match matches_of(alloc, words) {
        Ok(matches) => Ok(Options {
            nodes: value_given(&matches, Choice::Nodes),
            workers: value_given(&matches, Choice::Workers),
            generate: value_given(&matches, Choice::Generate),
            language: language_given(&matches),
        }),
        Err(_) => Err(AllocError),
    }
}

/// What `clap` finds in valid words. It refuses none of them: its only error is want of memory.
fn matches_of<'a>(alloc: Global, words: &'a [String]) -> Result<ArgMatches<'a>, Error>
    requires { (options : Options) × Spells words.now options }
    ensures values { IfOk result (λ m. (options : Options) → Spells words.entry.now options → HasValues m options) }
    ensures memory { IfErr result (λ e. kind_of e ≡ ErrorKind.OutOfMemory) }
{
    let command = command_of(alloc)?;
    command.try_get_matches_from(words)
}

/// The command line as `clap` is told of it: the three options and the flag, no help and no version.
fn command_of<'a>(alloc: Global) -> Result<Command<'a>, AllocError>
    ensures { IfOk result (λ command. app_of command ≡ app) }
{
    Command::new(alloc, "redlog")
        .no_binary_name(true)
        .disable_help_flag(true)
        .disable_version_flag(true)
        .arg(arg_of(alloc, Choice::Nodes))?
        .arg(arg_of(alloc, Choice::Workers))?
        .arg(arg_of(alloc, Choice::Generate))?
        .arg(flag_arg(alloc))
}

/// The option as `clap` is told of it, with its value as text.
fn arg_of(alloc: Global, choice: Choice) -> Arg<'static>
    ensures rule { rule_of result ≡ rule_for choice }
    ensures local { result.global ≡ false }
{
    Arg::new(alloc, choice.id())
        .long(choice.id())
        .action(ArgAction::Set)
}

/// The flag as `clap` is told of it.
fn flag_arg(alloc: Global) -> Arg<'static>
    ensures rule { rule_of result ≡ flag_rule }
    ensures local { result.global ≡ false }
{
    Arg::new(alloc, SMT_ID)
        .long(SMT_ID)
        .action(ArgAction::SetTrue)
}

/// The language that the matches tell.
fn language_given(matches: &ArgMatches) -> Language
    ensures { (language : Language) → one_text (found_of matches.now) smt_id ≡ Some (flag_text language) → result ≡ language }
{
    if matches.get_flag(SMT_ID) {
        Language::SmtLib
    } else {
        Language::Redlog
    }
}

/// The value of the option among the matches.
fn value_given(matches: &ArgMatches, choice: Choice) -> Option<u32>
    ensures { result ≡ option_and_then (value_of (greatest_of choice)) (first_value (found_of matches.now) (id_of choice)) }
{
    let text = matches.get_str(choice.id())?;
    value_of(text.as_bytes(), choice.greatest())
}
