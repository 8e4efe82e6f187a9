//! The lines of a block, by families.

ghost use Rattle.std.specs.Prelude.{◌≡◌, true, Ok};
ghost use Rattle.script_grammar.specs.Words.{texts};
ghost use Rattle.script_grammar.specs.Faults.{◌>>=◌ as followed};
ghost use Rattle.script_grammar.specs.Places.{end_at};
ghost use Rattle.script_grammar.specs.Forms.{plain_line, number_line, result_line};
ghost use Rattle.script_grammar.specs.declared.instructions.Instruction.TheVariants.{Fail, Repeat};
ghost use Rattle.script_reader.specs.Answers.{Gives};
ghost use Rattle.script_reader.specs.Families.{is_of_a_name, is_of_an_operand, with_name, with_operand};
ghost use Rattle.script_reader.specs.Reading.{said};

use crate::form::Spoken;
use crate::place::{number_of, operand_of};
use script_grammar::{FaultKind, Instruction, Operand, Verb};

/// A line of a verb that names one thing.
pub(crate) fn with_name(verb: Verb, i: u16) -> Instruction
    requires { is_of_a_name verb ≡ true }
    ensures { result ≡ with_name verb i }
{
    match verb {
        Verb::Receive => Instruction::Receive { c: i },
        Verb::TryReceive => Instruction::TryReceive { c: i },
        Verb::Close => Instruction::Close { c: i },
        Verb::CancelChannel => Instruction::CancelChannel { c: i },
        Verb::Each => Instruction::Each { c: i },
        Verb::Start => Instruction::Start { job: i },
        Verb::Join => Instruction::Join { job: i },
        Verb::Cancel => Instruction::Cancel { job: i },
        _ => unreachable!(),
    }
}

/// A line of a verb that names a channel and has an operand.
pub(crate) fn with_operand(verb: Verb, c: u16, value: Operand) -> Instruction
    requires { is_of_an_operand verb ≡ true }
    ensures { result ≡ with_operand verb c value }
{
    match verb {
        Verb::Send => Instruction::Send { c, value },
        Verb::TrySend => Instruction::TrySend { c, value },
        Verb::OnSend => Instruction::OnSend { c, value },
        _ => unreachable!(),
    }
}

/// What a line says that has no more words.
pub(crate) fn said_alone<'a>(form: Spoken<'a>, words: &[&'a [u8]]) -> Result<Spoken<'a>, FaultKind>
    ensures { Gives said result (followed (end_at (texts words.now)) (λ _. Ok (said form.entry))) }
{
    if words.is_empty() {
        Ok(form)
    } else {
        Err(FaultKind::Extra)
    }
}

/// A line with no more words.
pub(crate) fn plain_line<'a>(line: Instruction, words: &[&'a [u8]]) -> Result<Spoken<'a>, FaultKind>
    ensures { Gives said result (plain_line line (texts words.now)) }
{
    said_alone(Spoken::Line(line, None), words)
}

/// A line that opens lines which run so often.
pub(crate) fn repeat_line<'a>(words: &[&'a [u8]]) -> Result<Spoken<'a>, FaultKind>
    ensures { Gives said result (number_line 1 1000000 (λ n. Repeat n) (texts words.now)) }
{
    match number_of(1, 1_000_000, words) {
        Ok((turns, rest)) => plain_line(Instruction::Repeat { turns }, rest),
        Err(kind) => Err(kind),
    }
}

/// A line of a result.
pub(crate) fn result_line<'a>(words: &[&'a [u8]]) -> Result<Spoken<'a>, FaultKind>
    ensures { Gives said result (result_line (texts words.now)) }
{
    match operand_of(words) {
        Ok((value, rest)) => plain_line(Instruction::SetResult { value }, rest),
        Err(kind) => Err(kind),
    }
}

/// A line of a failure.
pub(crate) fn fail_line<'a>(words: &[&'a [u8]]) -> Result<Spoken<'a>, FaultKind>
    ensures { Gives said result (number_line 0 4294967295 (λ n. Fail n) (texts words.now)) }
{
    match number_of(0, u32::MAX, words) {
        Ok((code, rest)) => plain_line(Instruction::Fail { code }, rest),
        Err(kind) => Err(kind),
    }
}
