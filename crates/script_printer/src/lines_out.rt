//! Lines as they are printed.

ghost use Rattle.std.specs.Prelude.{◌≡◌, ◌++◌, OnOk, IfOk, replicate, map, string_bytes};
ghost use Rattle.std.specs.Fmt.{decimal};
ghost use Rattle.script_grammar.specs.Words.{texts, spaced};
ghost use Rattle.script_grammar.specs.Programs.{channel_names, block_names, name_of};
ghost use Rattle.script_reader.specs.Programs.{declared_of, block_of};
ghost use Rattle.script_printer.specs.Printing.{line_text};

use script_reader::{Channel, Coroutine};
use std::alloc::{AllocError, Global};

/// Where the lines of a coroutine have their names from.
#[derive(Clone, Copy)]
pub(crate) struct NameLists<'a> {
    pub(crate) channels: &'a [Channel],
    pub(crate) coroutines: &'a [Coroutine],
    pub(crate) jobs: &'a [String],
}

/// The name of a channel.
pub(crate) fn channel_name(channels: &[Channel], c: u16) -> &[u8]
    ensures { result.now ≡ name_of (channel_names (map declared_of channels.now)) c }
{
    match channels.get(c as usize) {
        Some(channel) => channel.name.as_bytes(),
        None => b"",
    }
}

/// The name of a coroutine.
pub(crate) fn block_name(coroutines: &[Coroutine], block: u16) -> &[u8]
    ensures { result.now ≡ name_of (block_names (map block_of coroutines.now)) block }
{
    match coroutines.get(block as usize) {
        Some(coroutine) => coroutine.name.as_bytes(),
        None => b"",
    }
}

/// The name of a Job.
pub(crate) fn job_name(jobs: &[String], job: u16) -> &[u8]
    ensures { result.now ≡ name_of (map string_bytes jobs.now) job }
{
    match jobs.get(job as usize) {
        Some(name) => name.as_bytes(),
        None => b"",
    }
}

fn push_spaces(out: &mut Vec<u8>, count: usize) -> Result<(), AllocError>
    ensures { OnOk result (out.new.items ≡ out.old.items ++ replicate count 32) }
{
    for _space in 0..count {
        out.push(b' ')?;
    }
    Ok(())
}

/// Words with one space between them.
fn push_words(out: &mut Vec<u8>, words: &[&[u8]]) -> Result<(), AllocError>
    ensures { OnOk result (out.new.items ≡ out.old.items ++ spaced (texts words.now)) }
{
    let [first, more @ ..] = words else {
        return Ok(());
    };
    out.extend_from_slice(*first)?;
    let mut rest = more;
    while let [word, more @ ..] = rest {
        out.push(b' ')?;
        out.extend_from_slice(*word)?;
        rest = more;
    }
    Ok(())
}

/// A line of these words, so many levels deep.
pub(crate) fn push_line(out: &mut Vec<u8>, depth: u32, words: &[&[u8]]) -> Result<(), AllocError>
    ensures { OnOk result (out.new.items ≡ out.old.items ++ line_text depth (texts words.now)) }
{
    push_spaces(out, 2 * depth as usize)?;
    push_words(out, words)?;
    out.push(b'\n')?;
    Ok(())
}

/// A number as it is written.
pub(crate) fn decimal(alloc: Global, n: u32) -> Result<String, AllocError>
    ensures { IfOk result (λ text. string_bytes text ≡ decimal n) }
{
    format!(in alloc; "{n}")
}
