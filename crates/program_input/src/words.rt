//! Options and switches, and the matches that words have by a command line.
ghost use Rattle.std.specs.Prelude.{◌≡◌, ◌≢◌, IfOk, false, map, option_map, string_bytes, true};
ghost use Rattle.clap.specs.Words.{app_of, found_of, is_simple_and_free, rows_of, rule_of};
ghost use Rattle.program_input.specs.Words.{matches_by, option, switch};

use clap::error::ErrorKind;
use clap::{Arg, ArgAction, ArgMatches, Error};
use co_base::Memory;
use std::alloc::Global;

/// An option with a value, `--name VALUE`.
pub fn option<'a>(alloc: Global, name: &'a str) -> Arg<'a>
    ensures rule { rule_of result ≡ option name.now }
    ensures local { result.global ≡ false }
{
    Arg::new(alloc, name).long(name)
}

/// An option without a value, `--name`.
pub fn switch<'a>(alloc: Global, name: &'a str) -> Arg<'a>
    ensures rule { rule_of result ≡ switch name.now }
    ensures local { result.global ≡ false }
{
    Arg::new(alloc, name).long(name).action(ArgAction::SetTrue)
}

/// The matches that the words have by this command line, if they have any. Err: clap found no memory.
pub fn matches_of<'a>(
    line: clap::Command<'a>,
    words: &'a [String],
) -> Result<Option<ArgMatches<'a>>, Memory>
    requires { is_simple_and_free (app_of line) ≡ true }
    ensures { IfOk result (λ found. option_map (λ m. rows_of (found_of m)) found
        ≡ matches_by (app_of line.entry) (map string_bytes words.now)) }
{
    match line.try_get_matches_from(words) {
        Ok(matches) => Ok(Some(matches)),
        Err(error) => {
            if is_memory(error.kind()) {
                Err(Memory)
            } else {
                Ok(None)
            }
        }
    }
}

/// Whether it is for want of memory that clap has no matches.
fn is_memory(kind: ErrorKind) -> bool
    ensures yes { result ≡ true → kind ≡ ErrorKind.OutOfMemory }
    ensures no { result ≡ false → kind ≢ ErrorKind.OutOfMemory }
{
    matches!(kind, ErrorKind::OutOfMemory)
}
