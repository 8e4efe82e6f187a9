//! A log, judged.

ghost use Rattle.std.specs.Prelude.{◌≡◌, ◌≤◌, IfOk, length, map};
ghost use Rattle.note_book.specs.Books.{notes_of};
ghost use Rattle.script_grammar.specs.Tags.{coroutine_count};
ghost use Rattle.script_meaning.specs.Shapes.{floor_shape, job_shape};
ghost use Rattle.script_reader.specs.Scripts.{program_of};
ghost use Rattle.history_check.specs.Histories.{IsAllowed};
ghost use Rattle.history_check.specs.Verdicts.{IsVerdict};
ghost use Rattle.log_check.specs.Logs.{AreOf, books_in};
ghost use Rattle.log_check.specs.Verdicts.{IsLinesVerdict, IsLogVerdict};

use crate::books::{books_of, first_stranger, same_books};
use crate::hints::Hint;
use crate::names::lines_of;
use crate::verdict::LogVerdict;
use crate::way::{Way, way_of_log};
use co_base::{Gate, Memory, Tag};
use engine_base::kinds_of;
use engine_one::run_in_order;
use history_check::{Judgement, Stood, Verdict, check_history};
use history_text::{JobNumbers, Line, NoLines};
use note_book::Notes;
use script_reader::Script;
use std::alloc::Global;

/// Makes the run in this order, and compares its books with those of a log.
fn made_again<G: Gate>(
    alloc: Global,
    script: &Script,
    lines: &[Line],
    order: &[Tag],
    gate: &G,
) -> Result<LogVerdict, Memory>
    requires allowed { IsAllowed (floor_shape (program_of script.now)) (job_shape (program_of script.now)) lines.now }
    requires of_script { AreOf (coroutine_count (program_of script.now)) lines.now }
    ensures { IfOk result (λ v. IsLinesVerdict v (program_of script.now) lines.now) }
{
    let books = books_of(alloc, script.coroutines(), lines)?;
    let run = run_in_order::<Notes, G>(alloc, script, gate, order)?;
    let same = same_books(run.done.books.as_slice(), books.as_slice());
    if same {
        Ok(LogVerdict::Stands(run.done.end))
    } else {
        Ok(LogVerdict::NotShown(lines.len().saturating_add(1)))
    }
}

/// What stood there, if anything is known.
fn stood_there(stood: Option<Stood>) -> Hint {
    match stood {
        Some(stood) => Hint::Stood(stood),
        None => Hint::Nothing,
    }
}

/// Makes the run again that has this log: in the order that is given, or in one that is looked for.
fn shown<G: Gate>(
    alloc: Global,
    script: &Script,
    lines: &[Line],
    given: Option<&[Tag]>,
    gate: &G,
) -> Result<(LogVerdict, Hint), Memory>
    requires { IsAllowed (floor_shape (program_of script.now)) (job_shape (program_of script.now)) lines.now }
    ensures { IfOk result (λ v. IsLinesVerdict v.0 (program_of script.now) lines.now) }
{
    if let Some(number) = first_stranger(lines, script.coroutines()) {
        return Ok((LogVerdict::NotShown(number), Hint::Nothing));
    }
    if let Some(order) = given {
        let verdict = made_again(alloc, script, lines, order, gate)?;
        return Ok((verdict, Hint::Nothing));
    }
    match way_of_log(alloc, script, lines, gate)? {
        Way::Found(order) => {
            let verdict = made_again(alloc, script, lines, order.as_slice(), gate)?;
            Ok((verdict, Hint::Nothing))
        }
        Way::Stuck(number, hint) => Ok((LogVerdict::NotShown(number), hint)),
    }
}

/// What the rules of channels and Jobs say of the lines of a log.
fn checked(alloc: Global, script: &Script, lines: &[Line]) -> Result<Judgement, Memory>
    ensures { IfOk result (λ judgement. IsVerdict (floor_shape (program_of script.now)) (job_shape (program_of script.now))
        lines.now judgement.verdict) }
{
    let kinds = kinds_of(alloc, script)?;
    let numbers = JobNumbers {
        coroutines: script.coroutines(),
        scopes: script.scopes(),
    };
    check_history(alloc, kinds.as_slice(), numbers, lines)
}

/// Judges the lines of a log.
fn judge_lines<G: Gate>(
    alloc: Global,
    script: &Script,
    lines: &[Line],
    given: Option<&[Tag]>,
    gate: &G,
) -> Result<(LogVerdict, Hint), Memory>
    ensures { IfOk result (λ v. IsLinesVerdict v.0 (program_of script.now) lines.now) }
{
    let judgement = checked(alloc, script, lines)?;
    match judgement.verdict {
        Verdict::Legal => shown(alloc, script, lines, given, gate),
        Verdict::MayNotCome(number) => {
            Ok((LogVerdict::MayNotCome(number), stood_there(judgement.stood)))
        }
        Verdict::NotSo(number) => Ok((LogVerdict::NotSo(number), stood_there(judgement.stood))),
    }
}

/// Judges the text of a log: the run is made again in the order that is given, or in one that is looked for.
pub(crate) fn judge_text<G: Gate>(
    alloc: Global,
    script: &Script,
    text: &[u8],
    given: Option<&[Tag]>,
    gate: &G,
) -> Result<(LogVerdict, Hint), Memory>
    requires { length text.now ≤ 67108864 }
    ensures { IfOk result (λ v. IsLogVerdict v.0 (program_of script.now) text.now) }
{
    match lines_of(alloc, script, text) {
        Ok(lines) => judge_lines(alloc, script, lines.as_slice(), given, gate),
        Err(NoLines::AtLine(number)) => Ok((LogVerdict::NoItem(number), Hint::Nothing)),
        Err(NoLines::Memory) => Err(Memory),
    }
}

/// Judges a log: lines of the coroutines of a script, as a report writes them, in one order of all of them.
///
/// The time grows with the number of lines, and with what the runs of the script take.
pub fn judge_log<G: Gate>(
    alloc: Global,
    script: &Script,
    text: &[u8],
    gate: &G,
) -> Result<LogVerdict, Memory>
    requires { length text.now ≤ 67108864 }
    ensures { IfOk result (λ v. IsLogVerdict v (program_of script.now) text.now) }
{
    let judged = judge_text(alloc, script, text, None, gate)?;
    Ok(judged.0)
}

/// Judges the log of a run whose polls had this order.
pub(crate) fn judge_in_order<G: Gate>(
    alloc: Global,
    script: &Script,
    text: &[u8],
    order: &[Tag],
    gate: &G,
) -> Result<LogVerdict, Memory>
    requires { length text.now ≤ 67108864 }
    ensures { IfOk result (λ v. IsLogVerdict v (program_of script.now) text.now) }
{
    let judged = judge_text(alloc, script, text, Some(order), gate)?;
    Ok(judged.0)
}
