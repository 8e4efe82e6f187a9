//! An input, judged.

ghost use Rattle.std.specs.Prelude.{◌≤◌, IfOk, IfSome, length};
ghost use Rattle.script_reader.specs.Scripts.{program_of};
ghost use Rattle.log_check.specs.Verdicts.{IsScriptVerdict, IsVerdictBy, IsVerdictOn};

use crate::hints::hint_text;
use crate::log::judge_text;
use crate::parts::{Subject, parts_of};
use crate::report::judge_lines;
use crate::verdict::{Judged, ScriptVerdict};
use co_base::{Gate, Memory};
use script_grammar::FaultKind;
use script_reader::{Script, read};
use std::alloc::Global;

/// Judges a text by a script.
fn judge_by<G: Gate>(
    alloc: Global,
    script: &Script,
    subject: Subject,
    text: &[u8],
    gate: &G,
) -> Result<Judged, Memory>
    requires { length text.now ≤ 67108864 }
    ensures { IfOk result (λ v. IsVerdictBy v.verdict subject (program_of script.now) text.now) }
{
    match subject {
        Subject::Log => {
            let judged = judge_text(alloc, script, text, None, gate)?;
            let hint = hint_text(alloc, script.channels(), judged.1)?;
            Ok(Judged {
                verdict: ScriptVerdict::Log(judged.0),
                hint,
            })
        }
        Subject::Report => {
            let judged = judge_lines(alloc, script, text, gate)?;
            let hint = hint_text(alloc, script.channels(), judged.1)?;
            Ok(Judged {
                verdict: ScriptVerdict::Report(judged.0),
                hint,
            })
        }
    }
}

/// Judges a text by the text of a script.
fn judge_parts<G: Gate>(
    alloc: Global,
    script: &[u8],
    subject: Subject,
    text: &[u8],
    gate: &G,
) -> Result<Judged, Memory>
    requires { length text.now ≤ 67108864 }
    ensures { IfOk result (λ v. IsVerdictOn v.verdict subject script.now text.now) }
{
    match read(alloc, script) {
        Ok(script) => judge_by(alloc, &script, subject, text, gate),
        Err(fault) => match fault.kind {
            FaultKind::Memory => Err(Memory),
            _ => Ok(Judged {
                verdict: ScriptVerdict::Fault(fault),
                hint: Vec::new(alloc),
            }),
        },
    }
}

/// Judges an input: a script, a line `log` or `report`, and the log or the report. Nothing, if neither line is there, or one `history`
/// stands before it.
#[tactic(auto, using(crate::proofs::Judging::of_parts))]
pub fn judge_script<G: Gate>(
    alloc: Global,
    bytes: &[u8],
    gate: &G,
) -> Result<Option<Judged>, Memory>
    requires { length bytes.now ≤ 67108864 }
    ensures { IfOk result (λ found. IfSome found (λ v. IsScriptVerdict v.verdict bytes.now)) }
{
    match parts_of(bytes) {
        Some((script, subject, text)) => {
            Ok(Some(judge_parts(alloc, script, subject, text, gate)?))
        }
        None => Ok(None),
    }
}
