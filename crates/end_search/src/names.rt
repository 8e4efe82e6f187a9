//! How the Jobs ended, by the names of their coroutines.

ghost use Rattle.std.specs.Prelude.{◌≡◌, ◌++◌, IfOk, OnOk, map, slice_get};
ghost use Rattle.std.specs.List.{flat_map};
ghost use Rattle.script_reader.specs.Programs.{block_of};
ghost use Rattle.script_reader.specs.Scripts.{program_of};
ghost use Rattle.report_reader.specs.Words.{texts, words_of};
ghost use Rattle.run_explanation.specs.Answers.{name_of_block};
ghost use Rattle.end_search.specs.Blocks.{behind_blank, name_of_row, named_line, named_text};

use report_reader::{cut_at, value_of, words_of};
use script_reader::{Coroutine, Script};
use std::alloc::{AllocError, Global};

/// For each line of a Job that is not active, one with the name of its coroutine. That of an active Job waits.
pub(crate) fn named_text(alloc: Global, script: &Script, ends: &[u8]) -> Result<Vec<u8>, AllocError>
    ensures { IfOk result (λ text. text.items ≡ named_text (program_of script.now) ends.now) }
{
    let mut out = Vec::new(alloc);
    let mut rest = ends;
    'lines: loop {
        let (line, more) = cut_at(b'\n', rest);
        push_named(alloc, &mut out, script, line)?;
        let Some(next) = more else {
            return Ok(out);
        };
        rest = next;
    }
}

/// Adds the line with the name, if this is the line of such a Job.
fn push_named(
    alloc: Global,
    out: &mut Vec<u8>,
    script: &Script,
    line: &[u8],
) -> Result<(), AllocError>
    ensures { OnOk result (out.new.items ≡ out.old.items ++ named_line (program_of script.now) (words_of line.now)) }
{
    let mut words = Vec::new(alloc);
    words_of(&mut words, line)?;
    push_words(out, script, words.as_slice())
}

/// The same of the words of a line.
fn push_words(out: &mut Vec<u8>, script: &Script, words: &[&[u8]]) -> Result<(), AllocError>
    ensures { OnOk result (out.new.items ≡ out.old.items ++ named_line (program_of script.now) (texts words.now)) }
{
    match words {
        [what, row, state, more @ ..]
            if *what == b"job".as_slice() && *state != b"active".as_slice() => {
            out.extend_from_slice(b"  ")?;
            out.extend_from_slice(name_of_row(script, value_of(*row)).as_bytes())?;
            push_behind_blank(out, *row)?;
            push_behind_blank(out, *state)?;
            push_more(out, more)?;
            out.extend_from_slice(b"\n")?;
            Ok(())
        }
        _ => Ok(()),
    }
}

/// Adds words, each behind a blank.
fn push_more(out: &mut Vec<u8>, words: &[&[u8]]) -> Result<(), AllocError>
    ensures { OnOk result (out.new.items ≡ out.old.items ++ flat_map behind_blank (texts words.now)) }
{
    let mut rest = words;
    while let [word, more @ ..] = rest {
        push_behind_blank(out, *word)?;
        rest = more;
    }
    Ok(())
}

fn push_behind_blank(out: &mut Vec<u8>, word: &[u8]) -> Result<(), AllocError>
    ensures { OnOk result (out.new.items ≡ out.old.items ++ behind_blank word.now) }
{
    out.extend_from_slice(b" ")?;
    out.extend_from_slice(word)
}

/// What the Job of a row is called: the block of its coroutine, or that it is a scope's.
fn name_of_row(script: &Script, row: Option<u32>) -> &str
    ensures { result.now ≡ name_of_row (program_of script.now) row }
{
    match row {
        Some(row) if row < u32::from(script.coroutines()) => {
            name_of_block(script.blocks(), script.coroutine_of(row as u16))
        }
        _ => "scope",
    }
}

fn name_of_block(blocks: &[Coroutine], block: u16) -> &str
    ensures { result.now ≡ name_of_block (slice_get (map block_of blocks.now) block) }
{
    match blocks.get(block as usize) {
        Some(coroutine) => coroutine.name.as_str(),
        None => "coroutine",
    }
}
