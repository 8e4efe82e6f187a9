//! Which words are accepted, and what they ask for.

ghost use Rattle.std.specs.Prelude.{◌≡◌, IfOk, map, string_bytes};
ghost use Rattle.clap.specs.Words.{app_of};
ghost use Rattle.explain_run.specs.Words.{are_asked, explain_line};

use co_base::Memory;
use program_input::matches_of;
use std::alloc::Global;

/// Whether the words are those of a call, of which the first is the program's name: no other word.
pub fn are_asked(alloc: Global, words: &[String]) -> Result<bool, Memory>
    ensures { IfOk result (λ asked. asked ≡ are_asked (map string_bytes words.now)) }
{
    let matches = matches_of(explain_line(alloc), words)?;
    Ok(matches.is_some())
}

// ---- the command line

/// `explain_run`.
fn explain_line<'a>(alloc: Global) -> clap::Command<'a>
    ensures { app_of result ≡ explain_line }
{
    clap::Command::new(alloc, "explain_run")
}
