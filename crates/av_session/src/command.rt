// The command line as clap reads it.
ghost use Rattle.std.specs.Prelude.{◌≡◌, false, IfOk, map, string_bytes};
ghost use Rattle.clap.specs.Walk.{rows_of, rule_of};
ghost use Rattle.clap.specs.Matches.{found_of};
ghost use Rattle.clap.specs.Simple.{app_of, matches_of};
ghost use Rattle.clap.specs.Faults.{fault_of};
ghost use Rattle.clap.specs.Kinds.{FailsBy};
ghost use Rattle.av_session.specs.Command.{permspec, bare, option_rule, flag_rule};

use clap::{Arg, ArgAction, ArgMatches, Command, Error};
use std::alloc::{AllocError, Global};

/// An option with one value, a text of any form.
fn option<'a>(alloc: Global, name: &'a str) -> Arg<'a>
    ensures rule { rule_of result ≡ option_rule name.entry.now }
    ensures alone { result.global ≡ false }
{
    Arg::new(alloc, name).long(name).action(ArgAction::Set)
}

/// An option with no value.
fn flag<'a>(alloc: Global, name: &'a str) -> Arg<'a>
    ensures rule { rule_of result ≡ flag_rule name.entry.now }
    ensures alone { result.global ≡ false }
{
    Arg::new(alloc, name).long(name).action(ArgAction::SetTrue)
}

/// The command with no argument and without the flags that clap adds.
fn bare_command<'a>(alloc: Global) -> Command<'a>
    ensures { app_of result ≡ bare }
{
    Command::new(alloc, "permspec")
        .no_binary_name(true)
        .disable_help_flag(true)
        .disable_version_flag(true)
}

/// The command with its options.
fn command<'a>(alloc: Global) -> Result<Command<'a>, AllocError>
    ensures { IfOk result (λ c. app_of c ≡ permspec) }
{
    let simple = option(alloc, "max-simple");
    let size = option(alloc, "max-size");
    let demo = option(alloc, "demo");
    let check = flag(alloc, "check");
    let one = bare_command(alloc).arg(simple)?;
    let two = one.arg(size)?;
    let three = two.arg(demo)?;
    let four = three.arg(check)?;
    Ok(four)
}

/// What clap finds in the words.
pub fn matches<'a>(alloc: Global, words: &'a [String]) -> Result<ArgMatches<'a>, Error>
    ensures rows { IfOk result (λ m. rows_of (found_of m) ≡ matches_of permspec (map string_bytes words.entry.now)) }
    ensures kinds { FailsBy (fault_of permspec (map string_bytes words.entry.now)) result }
{
    command(alloc)?.try_get_matches_from(words)
}
