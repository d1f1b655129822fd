//! The program's arguments, as the crate that reads them wants them: one positional word, five options of one value, and
//! no flags for help and version.
ghost use Rattle.std.specs.Prelude.{◌≡◌, ◌≢◌, ◌⊎◌, [], IfOk, MatchResult, map, string_bytes, codes};
ghost use Rattle.clap.specs.Words.{app_of, fault_of, found_of, matches_of, rows_of, with_rule};
ghost use Rattle.boot_words.specs.Shape.{bare, command_rule, option_rule, program, with_option};

use crate::line::WordsFault;
use clap::error::ErrorKind;
use clap::{Arg, ArgMatches, Command};
use std::alloc::{AllocError, Global};

fn bare<'a>(alloc: Global) -> Command<'a>
    ensures { app_of result ≡ bare }
{
    Command::new(alloc, "efiboot")
        .no_binary_name(true)
        .disable_help_flag(true)
        .disable_version_flag(true)
}

fn with_option<'a>(
    alloc: Global,
    command: Command<'a>,
    name: &'a str,
) -> Result<Command<'a>, AllocError>
    ensures { IfOk result (λ more. app_of more ≡ with_option (app_of command.entry) name.entry.now) }
{
    command.arg(Arg::new(alloc, name).long(name))
}

fn with_command<'a>(alloc: Global) -> Result<Command<'a>, AllocError>
    ensures { IfOk result (λ more. app_of more ≡ with_rule bare command_rule) }
{
    bare(alloc).arg(Arg::new(alloc, "command").required(true))
}

fn front<'a>(alloc: Global) -> Result<Command<'a>, AllocError>
    ensures { IfOk result (λ more. app_of more
        ≡ with_option (with_option (with_rule bare command_rule) (codes "emit")) (codes "capture")) }
{
    let command = with_command(alloc)?;
    let command = with_option(alloc, command, "emit")?;
    with_option(alloc, command, "capture")
}

fn program<'a>(alloc: Global) -> Result<Command<'a>, AllocError>
    ensures { IfOk result (λ more. app_of more ≡ program) }
{
    let command = front(alloc)?;
    let command = with_option(alloc, command, "buffer")?;
    let command = with_option(alloc, command, "seed")?;
    with_option(alloc, command, "mac")
}

/// What stands in the words, where they fit the program.
pub fn matches<'a>(alloc: Global, words: &'a [String]) -> Result<ArgMatches<'a>, WordsFault>
    ensures { MatchResult result
        (λ m. (fault_of program (map string_bytes words.now) ≡ [])
        × (rows_of (found_of m) ≡ matches_of program (map string_bytes words.now)))
        (λ fault. (fault ≡ WordsFault.OutOfResources)
        ⊎ ((fault ≡ WordsFault.Bad) × (fault_of program (map string_bytes words.now) ≢ []))) }
{
    let Ok(command) = program(alloc) else {
        return Err(WordsFault::OutOfResources);
    };
    match command.try_get_matches_from(words) {
        Ok(matches) => Ok(matches),
        Err(error) => match error.kind() {
            ErrorKind::OutOfMemory => Err(WordsFault::OutOfResources),
            _ => Err(WordsFault::Bad),
        },
    }
}
