//! The script of a text.

ghost use Rattle.std.specs.Prelude.{◌≡◌, ◌≤◌, length, IfOk, IfErr, MatchResult};
ghost use Rattle.script_grammar.specs.declared.fault.FaultKind.TheVariants.{Memory};
ghost use Rattle.script_grammar.specs.Programs.{Program};
ghost use Rattle.script_grammar.specs.Grammar.{Spells};
ghost use Rattle.script_grammar.specs.Texts.{reading_of};
ghost use Rattle.script_grammar.specs.Faulty.{FirstFault};
ghost use Rattle.script_reader.specs.Answers.{Unless, GivesAt};
ghost use Rattle.script_reader.specs.Scripts.{program_of};

use crate::finish::finished;
use crate::script::Script;
use crate::text::{Whole, lines_in};
use co_base::LONGEST_SCRIPT;
use script_grammar::{FaultKind, ScriptFault};
use std::alloc::Global;

/// Reads a text that is not too long.
fn read_short(alloc: Global, bytes: &[u8]) -> Result<Script, ScriptFault>
    requires { length bytes.now ≤ 1048576 }
    ensures { GivesAt program_of result (reading_of bytes.now) }
{
    let Whole { reading, lines } = match lines_in(alloc, bytes) {
        Ok(whole) => whole,
        Err(fault) => return Err(fault),
    };
    match finished(alloc, reading) {
        Ok(script) => Ok(script),
        Err(kind) => Err(ScriptFault { line: lines, kind }),
    }
}

/// A fault as it is told: want of memory has no line.
fn told(fault: ScriptFault) -> ScriptFault
    ensures same { Unless fault.kind (result ≡ fault) }
    ensures kind { result.kind ≡ fault.kind }
    ensures memory { result.kind ≡ Memory → result.line ≡ 0 }
{
    match fault.kind {
        FaultKind::Memory => ScriptFault {
            line: 0,
            kind: FaultKind::Memory,
        },
        _ => fault,
    }
}

/// The script of a text, or its fault.
#[tactic(auto, unfolding(script_grammar::specs::Texts::reading_of))]
fn read_or_fault(alloc: Global, bytes: &[u8]) -> Result<Script, ScriptFault>
    ensures exact { GivesAt program_of result (reading_of bytes.now) }
    ensures memory { IfErr result (λ fault. fault.kind ≡ Memory → fault.line ≡ 0) }
{
    if bytes.len() > LONGEST_SCRIPT {
        return Err(ScriptFault {
            line: 1,
            kind: FaultKind::TooMany,
        });
    }
    match read_short(alloc, bytes) {
        Ok(script) => Ok(script),
        Err(fault) => Err(told(fault)),
    }
}

/// Reads a script.
///
/// A text of more than 1,048,576 bytes is `line 1: TooMany`. If a text has several faults, that of the first faulty line
/// is told. If memory runs out, the line is 0.
pub fn read(alloc: Global, bytes: &[u8]) -> Result<Script, ScriptFault>
    ensures exact { GivesAt program_of result (reading_of bytes.now) }
    ensures spelled { IfOk result (λ script. Spells bytes.now (program_of script)) }
    ensures complete { (p : Program) → Spells bytes.now p
        → MatchResult result (λ script. program_of script ≡ p) (λ fault. fault.kind ≡ Memory) }
    ensures refused { IfErr result (λ fault. Unless fault.kind (FirstFault bytes.now fault)) }
    ensures memory { IfErr result (λ fault. fault.kind ≡ Memory → fault.line ≡ 0) }
{
    read_or_fault(alloc, bytes)
}
