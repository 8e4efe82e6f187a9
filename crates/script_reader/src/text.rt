//! All lines of a text.

ghost use Rattle.std.specs.Prelude.{◌≡◌, ◌+◌, ◌≤◌, OnOk, IfOk, Ok, length};
ghost use Rattle.script_grammar.specs.Words.{texts, lines_of};
ghost use Rattle.script_grammar.specs.Reads.{start};
ghost use Rattle.script_grammar.specs.Forms.{step};
ghost use Rattle.script_grammar.specs.Texts.{line_at, lines_from};
ghost use Rattle.script_reader.specs.Answers.{Leaves, GivesAt};
ghost use Rattle.script_reader.specs.Reading.{view};
ghost use Rattle.script_reader.specs.Holding.{Holds, cost};

use crate::enter::{empty, enter};
use crate::limits::totals_after;
use crate::outside::form_of;
use crate::reading::Reading;
use crate::words::{every_plain, fill_words, first_line, trimmed};
use script_grammar::{FaultKind, ScriptFault};
use std::alloc::Global;

/// Reads the words of one line.
#[tactic(auto, unfolding(script_grammar::specs::Forms::step))]
fn words_in(alloc: Global, reading: &mut Reading, words: &[&[u8]]) -> Result<(), FaultKind>
    requires holds { Holds reading.old }
    requires short { cost (view reading.old) ≤ 1048577 }
    ensures left { Leaves result (view reading.new) (step (view reading.old) (texts words.now)) }
    ensures holds { OnOk result (Holds reading.new) }
{
    let [word, rest @ ..] = words else {
        return Ok(());
    };
    let form = form_of(reading, *word, rest)?;
    let totals = totals_after(reading, &form)?;
    enter(alloc, reading, form, totals.weight)?;
    reading.places = totals.places;
    reading.load = totals.load;
    Ok(())
}

/// Reads one line. The vector is a place for its words.
#[tactic(auto, unfolding(script_grammar::specs::Texts::line_at))]
fn line_in<'a>(
    alloc: Global,
    reading: &mut Reading,
    words: &mut Vec<&'a [u8]>,
    line: &'a [u8],
) -> Result<(), FaultKind>
    requires holds { Holds reading.old }
    requires short { cost (view reading.old) ≤ 1048577 }
    ensures left { Leaves result (view reading.new) (line_at (view reading.old) line.now) }
    ensures holds { OnOk result (Holds reading.new) }
{
    if !every_plain(line) {
        return Err(FaultKind::NotAscii);
    }
    fill_words(words, line)?;
    words_in(alloc, reading, words)
}

/// What was read of all lines.
#[derive(Drop)]
pub(crate) struct Whole {
    pub(crate) reading: Reading,
    /// How many lines there are.
    pub(crate) lines: u32,
}

/// Reads all lines of a text.
pub(crate) fn lines_in(alloc: Global, bytes: &[u8]) -> Result<Whole, ScriptFault>
    requires { length bytes.now ≤ 1048576 }
    ensures given { GivesAt (λ whole. view whole.reading) result (lines_from 1 start (lines_of bytes.now)) }
    ensures holds { IfOk result (λ whole. Holds whole.reading) }
    ensures short { IfOk result (λ whole. cost (view whole.reading) ≤ 1048577) }
    ensures count { IfOk result (λ whole. whole.lines ≡ length (lines_of bytes.now)) }
{
    let mut reading = empty(alloc);
    let mut words = Vec::new(alloc);
    let mut number = 1u32;
    let mut rest = trimmed(bytes);
    'lines: loop {
        let (line, more) = first_line(rest);
        if let Err(kind) = line_in(alloc, &mut reading, &mut words, line) {
            return Err(ScriptFault { line: number, kind });
        }
        let Some(next) = more else {
            return Ok(Whole {
                reading,
                lines: number,
            });
        };
        number += 1;
        rest = next;
    }
}
