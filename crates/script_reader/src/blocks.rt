//! The lines of a block: clauses, launches, and the form of each.

ghost use Rattle.std.specs.Prelude.{◌≡◌, ◌≤◌, ℕ, List, true, length, map, string_bytes, option_map};
ghost use Rattle.std.specs.Str.{bytes_eq};
ghost use Rattle.script_grammar.specs.Words.{texts};
ghost use Rattle.script_grammar.specs.Programs.{channel_names, block_names};
ghost use Rattle.script_grammar.specs.Blocks.{is_main, is_new, is_among};
ghost use Rattle.script_grammar.specs.Places.{known_at, clause_at, target_at, launchable, place_from};
ghost use Rattle.script_grammar.specs.Forms.{named_line, sending_line, await_line, launch_line, onsend_line, onreceive_line, clause_form, ending, line_form, verb_form, number_for};
ghost use Rattle.script_reader.specs.Answers.{Gives};
ghost use Rattle.script_reader.specs.Families.{is_of_a_name, is_of_an_operand, with_name, with_operand};
ghost use Rattle.script_reader.specs.Reading.{view, open_of, said, name_in};

use crate::form::Spoken;
use crate::lines::{
    fail_line, plain_line, repeat_line, result_line, said_alone, with_name, with_operand,
};
use crate::place::{job_of, known_of, name_of, names_main, operand_of};
use crate::reading::{OpenBlock, Reading};
use script_grammar::{FaultKind, Instruction, Launching, Verb};

fn is_among(c: u16, channels: &[u16]) -> bool
    ensures { result ≡ is_among c channels.now }
{
    let mut rest = channels;
    while let [d, more @ ..] = rest {
        if *d == c {
            return true;
        }
        rest = more;
    }
    false
}

fn is_new(c: u16, clauses: &Option<Vec<u16>>) -> bool
    ensures { result ≡ is_new c (option_map (λ v. v.items) clauses.now) }
{
    match clauses {
        None => false,
        Some(channels) => !is_among(c, channels),
    }
}

/// A channel of the script.
#[tactic(auto, using(crate::proofs::NameTexts::names_of_channels))]
fn channel_of<'a, 'b>(
    reading: &Reading,
    words: &'b [&'a [u8]],
) -> Result<(u16, &'b [&'a [u8]]), FaultKind>
    ensures { Gives (λ x. (x.0, texts x.1.now)) result (known_at (channel_names (view reading.now).channels) (texts words.now)) }
{
    known_of(&reading.channels, words)
}

/// A channel that no clause of the open select names.
fn clause_of<'a, 'b>(
    reading: &Reading,
    block: &OpenBlock,
    words: &'b [&'a [u8]],
) -> Result<(u16, &'b [&'a [u8]]), FaultKind>
    ensures { Gives (λ x. (x.0, texts x.1.now)) result
        (clause_at (channel_names (view reading.now).channels) (open_of block.now).clauses (texts words.now)) }
{
    match channel_of(reading, words) {
        Ok((c, rest)) if is_new(c, &block.clauses) => Ok((c, rest)),
        Ok(_) => Err(FaultKind::Duplicate),
        Err(kind) => Err(kind),
    }
}

fn onsend<'a>(
    reading: &Reading,
    block: &OpenBlock,
    words: &[&'a [u8]],
) -> Result<Spoken<'a>, FaultKind>
    ensures { Gives said result (onsend_line (view reading.now) (open_of block.now) (texts words.now)) }
{
    match clause_of(reading, block, words) {
        Ok((c, rest)) => match operand_of(rest) {
            Ok((value, rest)) => plain_line(Instruction::OnSend { c, value }, rest),
            Err(kind) => Err(kind),
        },
        Err(kind) => Err(kind),
    }
}

fn onreceive<'a>(
    reading: &Reading,
    block: &OpenBlock,
    words: &[&'a [u8]],
) -> Result<Spoken<'a>, FaultKind>
    ensures { Gives said result (onreceive_line (view reading.now) (open_of block.now) (texts words.now)) }
{
    match clause_of(reading, block, words) {
        Ok((c, rest)) => plain_line(Instruction::OnReceive { c }, rest),
        Err(kind) => Err(kind),
    }
}

/// A line in a select.
pub(crate) fn clause_line<'a>(
    reading: &Reading,
    block: &OpenBlock,
    channels: &[u16],
    verb: Verb,
    words: &[&'a [u8]],
) -> Result<Spoken<'a>, FaultKind>
    ensures { Gives said result (clause_form (view reading.now) (open_of block.now) channels.now verb (texts words.now)) }
{
    match verb {
        Verb::OnSend => onsend(reading, block, words),
        Verb::OnReceive => onreceive(reading, block, words),
        Verb::End if !channels.is_empty() => plain_line(Instruction::End, words),
        _ => Err(FaultKind::UnknownWord),
    }
}

/// The end of a block, or of a line that opens others.
fn ending<'a>(nest: &[u32], words: &[&'a [u8]]) -> Result<Spoken<'a>, FaultKind>
    ensures { Gives said result (ending nest.now (texts words.now)) }
{
    match nest {
        [] => said_alone(Spoken::End, words),
        _ => plain_line(Instruction::End, words),
    }
}

/// A line that awaits a Job, if it may be awaited.
fn awaiting<'a>(block: &OpenBlock, words: &[&'a [u8]]) -> Result<Spoken<'a>, FaultKind>
    ensures { Gives said result (await_line (open_of block.now) (texts words.now)) }
{
    match known_of(&block.jobs, words) {
        Ok((job, rest)) => match block.awaitable.get(job as usize) {
            Some(true) => plain_line(Instruction::Await { job }, rest),
            _ => Err(FaultKind::Undeclared),
        },
        Err(kind) => Err(kind),
    }
}

/// The block of this name that is declared before the open one, and is not `main`.
#[tactic(auto, using(crate::proofs::NameTexts::names_of_blocks))]
fn target_named(reading: &Reading, block: &OpenBlock, name: &str) -> Result<u16, FaultKind>
    ensures { (rest : List (List ℕ)) → Gives (λ i. (i, rest)) result
        (launchable (bytes_eq (string_bytes block.now.name) name.now) (is_main name.now)
        (place_from 0 name.now (block_names (view reading.now).blocks)) rest) }
{
    match reading.coroutines.place(name) {
        Some(_) if names_main(name.as_bytes()) => Err(FaultKind::Recursive),
        Some(i) => Ok(i),
        None if block.name.as_str() == name => Err(FaultKind::Recursive),
        None => Err(FaultKind::Undeclared),
    }
}

/// The block that a line launches.
fn target_of<'a, 'b>(
    reading: &Reading,
    block: &OpenBlock,
    words: &'b [&'a [u8]],
) -> Result<(u16, &'b [&'a [u8]]), FaultKind>
    ensures { Gives (λ x. (x.0, texts x.1.now)) result
        (target_at (block_names (view reading.now).blocks) (string_bytes block.now.name) (texts words.now)) }
{
    match name_of(words) {
        Ok((name, rest)) => match target_named(reading, block, name) {
            Ok(i) => Ok((i, rest)),
            Err(kind) => Err(kind),
        },
        Err(kind) => Err(kind),
    }
}

fn number_for(block: &OpenBlock, job: Option<&str>) -> Option<u16>
    requires { length block.now.jobs.items.items ≤ 65535 }
    ensures { result ≡ number_for (map string_bytes block.now.jobs.items.items) (name_in job.entry) }
{
    match job {
        None => None,
        Some(_) => Some(block.jobs.items.len() as u16),
    }
}

fn launching<'a>(
    reading: &Reading,
    block: &OpenBlock,
    how: Launching,
    words: &[&'a [u8]],
) -> Result<Spoken<'a>, FaultKind>
    requires { length block.now.jobs.items.items ≤ 65535 }
    ensures { Gives said result (launch_line (view reading.now) (open_of block.now) how (texts words.now)) }
{
    match target_of(reading, block, words) {
        Ok((target, rest)) => match job_of(&block.jobs, rest) {
            Ok(name) => {
                let launch = Instruction::Launch {
                    block: target,
                    how,
                    job: number_for(block, name),
                };
                Ok(Spoken::Line(launch, name))
            }
            Err(kind) => Err(kind),
        },
        Err(kind) => Err(kind),
    }
}

/// A line of a channel.
fn channel_line<'a>(
    reading: &Reading,
    verb: Verb,
    words: &[&'a [u8]],
) -> Result<Spoken<'a>, FaultKind>
    requires { is_of_a_name verb ≡ true }
    ensures { Gives said result (named_line (channel_names (view reading.now).channels) (with_name verb) (texts words.now)) }
{
    match channel_of(reading, words) {
        Ok((c, rest)) => plain_line(with_name(verb, c), rest),
        Err(kind) => Err(kind),
    }
}

/// A line of a channel and an operand.
fn sending_line<'a>(
    reading: &Reading,
    verb: Verb,
    words: &[&'a [u8]],
) -> Result<Spoken<'a>, FaultKind>
    requires { is_of_an_operand verb ≡ true }
    ensures { Gives said result (sending_line (channel_names (view reading.now).channels) (with_operand verb) (texts words.now)) }
{
    match channel_of(reading, words) {
        Ok((c, rest)) => match operand_of(rest) {
            Ok((value, rest)) => plain_line(with_operand(verb, c, value), rest),
            Err(kind) => Err(kind),
        },
        Err(kind) => Err(kind),
    }
}

/// A line of a Job.
fn job_line<'a>(block: &OpenBlock, verb: Verb, words: &[&'a [u8]]) -> Result<Spoken<'a>, FaultKind>
    requires { is_of_a_name verb ≡ true }
    ensures { Gives said result (named_line (open_of block.now).jobs (with_name verb) (texts words.now)) }
{
    match known_of(&block.jobs, words) {
        Ok((job, rest)) => plain_line(with_name(verb, job), rest),
        Err(kind) => Err(kind),
    }
}

/// A line in a block, outside a select.
pub(crate) fn block_line<'a>(
    reading: &Reading,
    block: &OpenBlock,
    verb: Verb,
    words: &[&'a [u8]],
) -> Result<Spoken<'a>, FaultKind>
    requires { length block.now.jobs.items.items ≤ 65535 }
    ensures { Gives said result (line_form (view reading.now) (open_of block.now) verb (texts words.now)) }
{
    match verb {
        Verb::Send => sending_line(reading, verb, words),
        Verb::TrySend => sending_line(reading, verb, words),
        Verb::Receive => channel_line(reading, verb, words),
        Verb::TryReceive => channel_line(reading, verb, words),
        Verb::Close => channel_line(reading, verb, words),
        Verb::CancelChannel => channel_line(reading, verb, words),
        Verb::Each => channel_line(reading, verb, words),
        Verb::Start => job_line(block, verb, words),
        Verb::Join => job_line(block, verb, words),
        Verb::Cancel => job_line(block, verb, words),
        Verb::Await => awaiting(block, words),
        Verb::Launch => launching(reading, block, Launching::Plain, words),
        Verb::Async => launching(reading, block, Launching::Async, words),
        Verb::Lazy => launching(reading, block, Launching::Lazy, words),
        Verb::Fail => fail_line(words),
        Verb::Result => result_line(words),
        Verb::Repeat => repeat_line(words),
        Verb::Yield => plain_line(Instruction::Yield, words),
        Verb::Scope => plain_line(Instruction::Scope { supervisor: false }, words),
        Verb::Supervisor => plain_line(Instruction::Scope { supervisor: true }, words),
        Verb::Select => plain_line(Instruction::Select, words),
        Verb::OnSend | Verb::OnReceive => Err(FaultKind::UnknownWord),
        Verb::End => ending(&block.nest, words),
    }
}

/// A line in a block, by its verb.
pub(crate) fn verb_line<'a>(
    reading: &Reading,
    block: &OpenBlock,
    verb: Option<Verb>,
    words: &[&'a [u8]],
) -> Result<Spoken<'a>, FaultKind>
    requires { length block.now.jobs.items.items ≤ 65535 }
    ensures { Gives said result (verb_form (view reading.now) (open_of block.now) (open_of block.now).clauses verb (texts words.now)) }
{
    let Some(verb) = verb else {
        return Err(FaultKind::UnknownWord);
    };
    match &block.clauses {
        None => block_line(reading, block, verb, words),
        Some(channels) => clause_line(reading, block, channels, verb, words),
    }
}
