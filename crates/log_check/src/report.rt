//! A report, judged.

ghost use Rattle.std.specs.Prelude.{◌≡◌, ◌≤◌, IfOk, length, true};
ghost use Rattle.script_reader.specs.Scripts.{program_of};
ghost use Rattle.log_check.specs.Verdicts.{IsReportVerdict};

use crate::hints::Hint;
use crate::verdict::ReportVerdict;
use crate::way::{Way, way_of_report};
use co_base::{Gate, Memory, Tag};
use engine_one::run_in_order;
use note_book::Notes;
use run_report::report;
use script_reader::Script;
use std::alloc::Global;

fn is_same(left: &[u8], right: &[u8]) -> bool
    ensures { result ≡ true → left.now ≡ right.now }
{
    left == right
}

/// Makes the run in this order, and compares its report with a text.
fn reported_again<G: Gate>(
    alloc: Global,
    script: &Script,
    text: &[u8],
    order: &[Tag],
    gate: &G,
) -> Result<ReportVerdict, Memory>
    ensures { IfOk result (λ v. IsReportVerdict v (program_of script.now) text.now) }
{
    let run = run_in_order::<Notes, G>(alloc, script, gate, order)?;
    let told = report(alloc, script, &run.done)?;
    let same = is_same(text, told.as_slice());
    if same {
        Ok(ReportVerdict::Stands(run.done.end))
    } else {
        Ok(ReportVerdict::NotFound(first_difference(text, told.as_slice())))
    }
}

/// The number of the first line in which two texts differ.
fn first_difference(text: &[u8], other: &[u8]) -> usize {
    let mut number = 1usize;
    for (byte, too) in text.iter().zip(other) {
        if *byte != *too {
            return number;
        }
        if *byte == b'\n' {
            number = number.saturating_add(1);
        }
    }
    number
}

/// Judges a report: looks for an order of whole polls in which a run writes it. Says what is known of the line where the search stops.
pub(crate) fn judge_lines<G: Gate>(
    alloc: Global,
    script: &Script,
    text: &[u8],
    gate: &G,
) -> Result<(ReportVerdict, Hint), Memory>
    requires { length text.now ≤ 67108864 }
    ensures { IfOk result (λ v. IsReportVerdict v.0 (program_of script.now) text.now) }
{
    match way_of_report(alloc, script, text, gate)? {
        Way::Found(order) => {
            let verdict = reported_again(alloc, script, text, order.as_slice(), gate)?;
            Ok((verdict, Hint::Nothing))
        }
        Way::Stuck(number, hint) => Ok((ReportVerdict::NotFound(number), hint)),
    }
}

/// Judges a report: looks for an order of whole polls in which a run writes it.
pub fn judge_report<G: Gate>(
    alloc: Global,
    script: &Script,
    text: &[u8],
    gate: &G,
) -> Result<ReportVerdict, Memory>
    requires { length text.now ≤ 67108864 }
    ensures { IfOk result (λ v. IsReportVerdict v (program_of script.now) text.now) }
{
    let judged = judge_lines(alloc, script, text, gate)?;
    Ok(judged.0)
}
