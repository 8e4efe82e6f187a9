//! The line that a text which is no script is answered with.

ghost use Rattle.std.specs.Prelude.{◌≡◌, ◌≢◌, IfOk};
ghost use Rattle.script_grammar.specs.declared.fault.FaultKind.TheVariants.{Memory as NoMemory};
ghost use Rattle.run_report.specs.Faults.{fault_text, kind_text};

use co_base::Memory;
use script_grammar::{FaultKind, ScriptFault};
use std::alloc::Global;

/// The word of a kind of fault.
fn kind_word(kind: FaultKind) -> &'static str
    ensures { result.now ≡ kind_text kind }
{
    match kind {
        FaultKind::NotAscii => "NotAscii",
        FaultKind::UnknownWord => "UnknownWord",
        FaultKind::BadNumber => "BadNumber",
        FaultKind::BadName => "BadName",
        FaultKind::Duplicate => "Duplicate",
        FaultKind::Undeclared => "Undeclared",
        FaultKind::NoMain => "NoMain",
        FaultKind::NoEnd => "NoEnd",
        FaultKind::Extra => "Extra",
        FaultKind::TooDeep => "TooDeep",
        FaultKind::TooMany => "TooMany",
        FaultKind::Recursive => "Recursive",
        FaultKind::Memory => "Memory",
    }
}

/// The line of a fault: `line L: KIND`, and a line feed.
pub fn fault_line(alloc: Global, fault: &ScriptFault) -> Result<Vec<u8>, Memory>
    requires { fault.now.kind ≢ NoMemory }
    ensures { IfOk result (λ text. text.items ≡ fault_text fault.now) }
{
    let line = fault.line;
    let kind = kind_word(fault.kind);
    let text = format!(in alloc; "line {line}: {kind}\n")?;
    Ok(text.into_bytes())
}
