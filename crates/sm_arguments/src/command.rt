//! The command line as clap reads it.
ghost use Rattle.std.specs.Prelude.{◌≡◌, IfOk, Err, map, string_bytes, option_map, []};
ghost use Rattle.clap.specs.Words.{app_of, found_of, rows_of, matches_of, fault_of, first_of};
ghost use Rattle.sm_arguments.specs.App.{simpl, is_given};
ghost use Rattle.sm_arguments.specs.declared.refusal.RequestRefusal.TheVariants.{Usage};

use crate::refusal::RequestRefusal;
use clap::error::ErrorKind;
use clap::{Arg, ArgAction, ArgMatches, Command};
use std::alloc::{AllocError, Global};

/// The command that the program declares.
fn declared<'a>(alloc: Global) -> Result<Command<'a>, AllocError>
    ensures { IfOk result (λ c. app_of c ≡ simpl) }
{
    Command::new(alloc, "simpl")
        .no_binary_name(true)
        .disable_help_flag(true)
        .disable_version_flag(true)
        .arg(Arg::new(alloc, "command"))?
        .arg(Arg::new(alloc, "model"))?
        .arg(Arg::new(alloc, "files").action(ArgAction::Append))?
        .arg(
            Arg::new(alloc, "brief")
                .long("brief")
                .action(ArgAction::SetTrue),
        )
}

/// What the command makes of the words.
pub(crate) fn matched<'a>(
    alloc: Global,
    words: &'a [String],
) -> Result<ArgMatches<'a>, RequestRefusal>
    ensures found { IfOk result (λ m. rows_of (found_of m) ≡ matches_of simpl (map string_bytes words.now)) }
    ensures taken { IfOk result (λ m. fault_of simpl (map string_bytes words.now) ≡ []) }
    ensures refused { result ≡ Err Usage → fault_of simpl (map string_bytes words.now) ≡ [] → ⊥ }
{
    let command = declared(alloc)?;
    match command.try_get_matches_from(words) {
        Ok(matches) => Ok(matches),
        Err(error) if error.kind() == ErrorKind::OutOfMemory => Err(RequestRefusal::OutOfMemory),
        Err(_) => Err(RequestRefusal::Usage),
    }
}

/// The first value of an argument.
pub(crate) fn first<'a>(matches: &ArgMatches<'a>, id: &str) -> Option<&'a str>
    ensures { option_map (λ s. s.now) result ≡ first_of id.now (rows_of (found_of matches.now)) }
{
    matches.get_str(id)
}

/// Whether a flag was given.
pub(crate) fn is_given(matches: &ArgMatches, id: &str) -> bool
    ensures { result ≡ is_given id.now (rows_of (found_of matches.now)) }
{
    // Of `get_flag` it is known only what it answers at the values `true` and `false`.
    first(matches, id) == Some("true")
}
