//! What the source gives: a script, or the line of its fault.

ghost use Rattle.std.specs.Prelude.{◌≡◌, ◌≢◌, ℕ, List, length, Err, IfOk};
ghost use Rattle.co_base.specs.Streams.{Rose};
ghost use Rattle.script_grammar.specs.declared.fault.FaultKind.TheVariants.{Memory as NoMemory};
ghost use Rattle.script_grammar.specs.Programs.{Program};
ghost use Rattle.script_grammar.specs.Grammar.{Spells};
ghost use Rattle.script_grammar.specs.Faulty.{FirstFault};
ghost use Rattle.script_reader.specs.Answers.{Unless};
ghost use Rattle.command_line.specs.Statuses.{stream};
ghost use Rattle.command_line.specs.Preparing.{Gives, Says};
ghost use Rattle.command_line.specs.declared.status.NoAnswer.TheVariants as reasons;

use crate::status::{NoAnswer, unless_memory};
use co_base::{Memory, ReadError, Source, read_script};
use run_report::fault_line;
use script_grammar::{FaultKind, ScriptFault};
use script_reader::{Script, read};
use std::alloc::Global;

/// A script, or the line that names the fault of a text which is none.
#[derive(Drop)]
pub enum Input {
    Script(Script),
    Fault(Vec<u8>),
}

/// Reads all bytes of the source, and the script that they are.
pub fn read_input<S: Source>(alloc: Global, source: &mut S) -> Result<Input, NoAnswer>
    ensures gives { IfOk result (Gives
        (stream (S.left source.old) (S.faults source.old)) (stream (S.left source.new) (S.faults source.new))) }
    ensures fault { result ≡ Err reasons.ReadFault → Rose (S.faults source.old) (S.faults source.new) }
    ensures accepted { result ≢ Err reasons.Refused }
{
    match read_script(alloc, source) {
        Ok(bytes) => unless_memory(input_of(alloc, bytes.as_slice())),
        Err(ReadError::TooLong) => unless_memory(too_long(alloc)),
        Err(ReadError::ReadFault) => Err(NoAnswer::ReadFault),
        Err(ReadError::Memory) => Err(NoAnswer::Memory),
    }
}

/// The script that the bytes are.
fn input_of(alloc: Global, bytes: &[u8]) -> Result<Input, Memory>
    ensures { IfOk result (Says bytes.now) }
{
    match read(alloc, bytes) {
        Ok(script) => Ok(Input::Script(script)),
        Err(fault) => fault_of(alloc, fault, bytes),
    }
}

/// What is answered for want of a script.
fn fault_of(alloc: Global, fault: ScriptFault, bytes: &[u8]) -> Result<Input, Memory>
    requires refused { Unless fault.kind (FirstFault bytes.now fault) }
    requires unspelled { (p : Program) → Spells bytes.now p → fault.kind ≡ NoMemory }
    ensures { IfOk result (Says bytes.now) }
{
    match fault.kind {
        FaultKind::Memory => Err(Memory),
        _ => {
            let line = fault_line(alloc, &fault)?;
            Ok(Input::Fault(line))
        }
    }
}

/// What is answered to more bytes than a script may have.
fn too_long(alloc: Global) -> Result<Input, Memory>
    ensures { IfOk result (λ input. (bytes : List ℕ) → length bytes ≡ 1048577 → Says bytes input) }
{
    let fault = ScriptFault {
        line: 1,
        kind: FaultKind::TooMany,
    };
    let line = fault_line(alloc, &fault)?;
    Ok(Input::Fault(line))
}
