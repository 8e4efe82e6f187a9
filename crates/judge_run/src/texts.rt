//! The lines that are written.

ghost use Rattle.std.specs.Prelude.{◌≡◌, ◌++◌, IfOk, Some, string_bytes};
ghost use Rattle.judge_run.specs.Texts.{HasLine, fault_text, kind_text, log_text, said_text, script_text, stands_text};

use crate::outcome::Said;
use co_base::Memory;
use history_text::{FaultKind, ScriptFault};
use job_model::End;
use log_check::{LogVerdict, ReportVerdict, ScriptVerdict};
use std::alloc::{AllocError, Global};
use std::fmt;

/// A kind of fault, as it is printed.
#[derive(Clone, Copy)]
struct ShownKind {
    kind: FaultKind,
}

impl fmt::Display for ShownKind {
    ghost output = { λ s. Some (kind_text s.kind) };

    fn fmt<W: fmt::Write>(&self, f: &mut fmt::Formatter<W>) -> fmt::Result {
        match self.kind {
            FaultKind::NotAscii => write!(f, "NotAscii"),
            FaultKind::UnknownWord => write!(f, "UnknownWord"),
            FaultKind::BadNumber => write!(f, "BadNumber"),
            FaultKind::BadName => write!(f, "BadName"),
            FaultKind::Duplicate => write!(f, "Duplicate"),
            FaultKind::Undeclared => write!(f, "Undeclared"),
            FaultKind::NoMain => write!(f, "NoMain"),
            FaultKind::NoEnd => write!(f, "NoEnd"),
            FaultKind::Extra => write!(f, "Extra"),
            FaultKind::TooDeep => write!(f, "TooDeep"),
            FaultKind::TooMany => write!(f, "TooMany"),
            FaultKind::Recursive => write!(f, "Recursive"),
            FaultKind::Memory => write!(f, "Memory"),
        }
    }
}

/// The line of a fault.
fn fault_line(alloc: Global, fault: ScriptFault) -> Result<String, AllocError>
    ensures { IfOk result (λ line. string_bytes line ≡ fault_text fault) }
{
    let line = fault.line;
    let kind = ShownKind { kind: fault.kind };
    let text = format!(in alloc; "line {line}: {kind}\n")?;
    Ok(text)
}

/// The line of a log or a report that stands.
fn stands_line(alloc: Global, root: Option<End>) -> Result<String, AllocError>
    ensures { IfOk result (λ line. string_bytes line ≡ stands_text root) }
{
    match root {
        None => format!(in alloc; "stands unfinished\n"),
        Some(End::Completed(_)) => format!(in alloc; "stands completed\n"),
        Some(End::Cancelled(_)) => format!(in alloc; "stands cancelled\n"),
    }
}

/// The line of what is said of a log.
fn log_line(alloc: Global, v: LogVerdict) -> Result<String, AllocError>
    ensures { IfOk result (λ line. string_bytes line ≡ log_text v) }
{
    match v {
        LogVerdict::Stands(root) => stands_line(alloc, root),
        LogVerdict::MayNotCome(line) => format!(in alloc; "line {line}: may not come\n"),
        LogVerdict::NotSo(line) => format!(in alloc; "line {line}: not so\n"),
        LogVerdict::NoItem(line) => format!(in alloc; "line {line}: no item\n"),
        LogVerdict::NotShown(line) => format!(in alloc; "line {line}: not shown\n"),
    }
}

/// The line of what is said of a script, and of a log or a report.
fn script_line(alloc: Global, v: ScriptVerdict) -> Result<String, AllocError>
    ensures { IfOk result (λ line. string_bytes line ≡ script_text v) }
{
    match v {
        ScriptVerdict::Log(v) => log_line(alloc, v),
        ScriptVerdict::Report(ReportVerdict::Stands(root)) => stands_line(alloc, root),
        ScriptVerdict::Report(ReportVerdict::NotFound(line)) => {
            format!(in alloc; "not found: line {line}\n")
        }
        ScriptVerdict::Fault(fault) => fault_line(alloc, fault),
    }
}

/// The line of what is said.
fn line_of(alloc: Global, said: Said) -> Result<String, AllocError>
    ensures { IfOk result (λ line. string_bytes line ≡ said_text said) }
{
    match said {
        Said::Legal => format!(in alloc; "legal\n"),
        Said::MayNotCome(line) => format!(in alloc; "line {line}: may not come\n"),
        Said::NotSo(line) => format!(in alloc; "line {line}: not so\n"),
        Said::NoItem(line) => format!(in alloc; "line {line}: no item\n"),
        Said::Fault(fault) | Said::NoScript(fault) => fault_line(alloc, fault),
        Said::OfScript(v) => script_line(alloc, v),
        Said::Logged(_) => Ok(String::new(alloc)),
        Said::NotLogged => format!(in alloc; "no log\n"),
    }
}

/// The text of what is said: its line, and then a hint, without any promise.
pub(crate) fn text_of(alloc: Global, said: Said, hint: &[u8]) -> Result<Vec<u8>, Memory>
    ensures { IfOk result (λ text. HasLine said text.items) }
{
    let line = line_of(alloc, said)?;
    let text = appended(line, hint)?;
    Ok(text)
}

/// A line, and then a hint.
fn appended(line: String, hint: &[u8]) -> Result<Vec<u8>, AllocError>
    ensures { IfOk result (λ text. text.items ≡ string_bytes line ++ hint.now) }
{
    let mut text = line.into_bytes();
    text.extend_from_slice(hint)?;
    Ok(text)
}
