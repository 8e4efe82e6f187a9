//! The lines of a coroutine as they are printed.

ghost use Rattle.std.specs.Prelude.{◌≡◌, ◌++◌, ◌∷◌, [], OnOk};
ghost use Rattle.std.specs.Fmt.{decimal};
ghost use lib.Chars.{codes};
ghost use Rattle.script_grammar.specs.Programs.{name_of};
ghost use Rattle.script_grammar.specs.Lines.{operand_word, launch_word, scope_word, as_words, line_words};
ghost use Rattle.script_printer.specs.Printing.{line_text, names_in};

use crate::lines_out::{NameLists, block_name, channel_name, decimal, job_name, push_line};
use script_grammar::{Instruction, Launching, Operand};
use std::alloc::{AllocError, Global};

/// A line of a word and a name.
fn push_named(out: &mut Vec<u8>, depth: u32, word: &[u8], name: &[u8]) -> Result<(), AllocError>
    ensures { OnOk result (out.new.items ≡ out.old.items ++ line_text depth (word.now ∷ name.now ∷ [])) }
{
    push_line(out, depth, &[word, name])
}

/// A line of a word and a number.
fn push_numbered(
    alloc: Global,
    out: &mut Vec<u8>,
    depth: u32,
    word: &[u8],
    number: u32,
) -> Result<(), AllocError>
    ensures { OnOk result (out.new.items ≡ out.old.items ++ line_text depth (word.now ∷ decimal number ∷ [])) }
{
    let number = decimal(alloc, number)?;
    push_line(out, depth, &[word, number.as_bytes()])
}

/// A line of a result.
fn push_result(
    alloc: Global,
    out: &mut Vec<u8>,
    depth: u32,
    value: Operand,
) -> Result<(), AllocError>
    ensures { OnOk result (out.new.items ≡ out.old.items ++ line_text depth (codes "result" ∷ operand_word value ∷ [])) }
{
    match value {
        Operand::It => push_named(out, depth, b"result", b"it"),
        Operand::Sum => push_named(out, depth, b"result", b"sum"),
        Operand::Number(number) => push_numbered(alloc, out, depth, b"result", number),
    }
}

/// A line of a word, a name and a value as it is written.
fn push_valued(
    out: &mut Vec<u8>,
    depth: u32,
    word: &[u8],
    name: &[u8],
    value: &[u8],
) -> Result<(), AllocError>
    ensures { OnOk result (out.new.items ≡ out.old.items ++ line_text depth (word.now ∷ name.now ∷ value.now ∷ [])) }
{
    push_line(out, depth, &[word, name, value])
}

/// A line of a word, a name and a value.
fn push_sending(
    alloc: Global,
    out: &mut Vec<u8>,
    depth: u32,
    word: &[u8],
    name: &[u8],
    value: Operand,
) -> Result<(), AllocError>
    ensures { OnOk result (out.new.items ≡ out.old.items ++ line_text depth (word.now ∷ name.now ∷ operand_word value ∷ [])) }
{
    match value {
        Operand::It => push_valued(out, depth, word, name, b"it"),
        Operand::Sum => push_valued(out, depth, word, name, b"sum"),
        Operand::Number(number) => {
            let number = decimal(alloc, number)?;
            push_valued(out, depth, word, name, number.as_bytes())
        }
    }
}

/// The first word of a line that launches.
fn launch_word(how: Launching) -> &'static [u8]
    ensures { result.now ≡ launch_word how }
{
    match how {
        Launching::Plain => b"launch",
        Launching::Async => b"async",
        Launching::Lazy => b"lazy",
    }
}

/// The first word of a line that opens a scope.
fn scope_word(supervisor: bool) -> &'static [u8]
    ensures { result.now ≡ scope_word supervisor }
{
    if supervisor { b"supervisor" } else { b"scope" }
}

/// A line of a word, a name and the name of a Job.
fn push_as(
    out: &mut Vec<u8>,
    depth: u32,
    word: &[u8],
    name: &[u8],
    job: &[u8],
) -> Result<(), AllocError>
    ensures { OnOk result (out.new.items ≡ out.old.items ++ line_text depth (word.now ∷ name.now ∷ codes "as" ∷ job.now ∷ [])) }
{
    push_line(out, depth, &[word, name, b"as", job])
}

/// A line that launches a coroutine, and the name of its Job, if it has one.
fn push_launch(
    names: NameLists<'_>,
    out: &mut Vec<u8>,
    depth: u32,
    block: u16,
    how: Launching,
    job: Option<u16>,
) -> Result<(), AllocError>
    ensures { OnOk result (out.new.items
        ≡ out.old.items
        ++ line_text depth (launch_word how ∷ name_of (names_in names.entry).blocks block ∷ as_words (names_in names.entry).jobs job)) }
{
    let word = launch_word(how);
    let block = block_name(names.coroutines, block);
    match job {
        None => push_named(out, depth, word, block),
        Some(job) => push_as(out, depth, word, block, job_name(names.jobs, job)),
    }
}

/// A line of a channel.
fn push_channel(
    names: NameLists<'_>,
    out: &mut Vec<u8>,
    depth: u32,
    word: &[u8],
    c: u16,
) -> Result<(), AllocError>
    ensures { OnOk result (out.new.items ≡ out.old.items ++ line_text depth (word.now ∷ name_of (names_in names.entry).channels c ∷ [])) }
{
    push_named(out, depth, word, channel_name(names.channels, c))
}

/// A line of a channel and a value.
fn push_send(
    alloc: Global,
    names: NameLists<'_>,
    out: &mut Vec<u8>,
    depth: u32,
    word: &[u8],
    c: u16,
    value: Operand,
) -> Result<(), AllocError>
    ensures { OnOk result (out.new.items
        ≡ out.old.items ++ line_text depth (word.now ∷ name_of (names_in names.entry).channels c ∷ operand_word value ∷ [])) }
{
    push_sending(
        alloc,
        out,
        depth,
        word,
        channel_name(names.channels, c),
        value,
    )
}

/// A line of a Job.
fn push_job(
    names: NameLists<'_>,
    out: &mut Vec<u8>,
    depth: u32,
    word: &[u8],
    job: u16,
) -> Result<(), AllocError>
    ensures { OnOk result (out.new.items ≡ out.old.items ++ line_text depth (word.now ∷ name_of (names_in names.entry).jobs job ∷ [])) }
{
    push_named(out, depth, word, job_name(names.jobs, job))
}

/// A line of a coroutine.
pub(crate) fn push_instruction(
    alloc: Global,
    names: NameLists<'_>,
    out: &mut Vec<u8>,
    depth: u32,
    line: Instruction,
) -> Result<(), AllocError>
    ensures { OnOk result (out.new.items ≡ out.old.items ++ line_text depth (line_words (names_in names.entry) line)) }
{
    match line {
        Instruction::Send { c, value } => push_send(alloc, names, out, depth, b"send", c, value),
        Instruction::TrySend { c, value } => {
            push_send(alloc, names, out, depth, b"trysend", c, value)
        }
        Instruction::Receive { c } => push_channel(names, out, depth, b"receive", c),
        Instruction::TryReceive { c } => push_channel(names, out, depth, b"tryreceive", c),
        Instruction::Close { c } => push_channel(names, out, depth, b"close", c),
        Instruction::CancelChannel { c } => push_channel(names, out, depth, b"cancelchannel", c),
        Instruction::Yield => push_line(out, depth, &[b"yield".as_slice()]),
        Instruction::Launch { block, how, job } => push_launch(names, out, depth, block, how, job),
        Instruction::Start { job } => push_job(names, out, depth, b"start", job),
        Instruction::Join { job } => push_job(names, out, depth, b"join", job),
        Instruction::Await { job } => push_job(names, out, depth, b"await", job),
        Instruction::Cancel { job } => push_job(names, out, depth, b"cancel", job),
        Instruction::Fail { code } => push_numbered(alloc, out, depth, b"fail", code),
        Instruction::SetResult { value } => push_result(alloc, out, depth, value),
        Instruction::Repeat { turns } => push_numbered(alloc, out, depth, b"repeat", turns),
        Instruction::Each { c } => push_channel(names, out, depth, b"each", c),
        Instruction::Scope { supervisor } => push_line(out, depth, &[scope_word(supervisor)]),
        Instruction::Select => push_line(out, depth, &[b"select".as_slice()]),
        Instruction::OnSend { c, value } => {
            push_send(alloc, names, out, depth, b"onsend", c, value)
        }
        Instruction::OnReceive { c } => push_channel(names, out, depth, b"onreceive", c),
        Instruction::End => push_line(out, depth, &[b"end".as_slice()]),
    }
}
