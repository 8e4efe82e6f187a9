//! The entries of an explanation, and its text.

ghost use Rattle.std.specs.Prelude.{◌≡◌, ◌++◌, ◌∷◌, [], IfOk, OnOk, map, slice_get};
ghost use Rattle.std.specs.List.{flat_map};
ghost use lib.Chars.{codes};
ghost use Rattle.script_reader.specs.Programs.{block_of};
ghost use Rattle.script_reader.specs.Scripts.{program_of};
ghost use Rattle.report_reader.specs.Reading.{told_lines};
ghost use Rattle.run_explanation.specs.Answers.{entry_text, headed, hint_line, name_of_block, name_of_tag, plain, plain_byte, texts_from, wait_line, waits_text};

use crate::classes::{Class, class_of, is_of};
use crate::hints::{Hint, line_hint, wait_hint};
use crate::story::Story;
use report_reader::Line;
use script_reader::{Coroutine, Script};
use std::alloc::{AllocError, Global};

/// An entry: its heading, a hint behind it, and further hints.
#[derive(Drop)]
pub(crate) struct Entry {
    pub(crate) heading: Vec<u8>,
    pub(crate) hint: String,
    pub(crate) more: Vec<String>,
}

fn name_of_block(blocks: &[Coroutine], block: u16) -> &str
    ensures { result.now ≡ name_of_block (slice_get (map block_of blocks.now) block) }
{
    match blocks.get(block as usize) {
        Some(coroutine) => coroutine.name.as_str(),
        None => "coroutine",
    }
}

/// The name of the block of a coroutine.
pub(crate) fn name_of_tag(script: &Script, tag: u32) -> &str
    ensures { result.now ≡ name_of_tag (program_of script.now) tag }
{
    if tag < u32::from(script.coroutines()) {
        name_of_block(script.blocks(), script.coroutine_of(tag as u16))
    } else {
        "coroutine"
    }
}

/// That a coroutine waits: `worker 3 waits`.
fn waits_text(alloc: Global, script: &Script, tag: u32) -> Result<Vec<u8>, AllocError>
    ensures { IfOk result (λ text. text.items ≡ waits_text (program_of script.now) tag) }
{
    let name = name_of_tag(script, tag);
    let text = format!(in alloc; "{name} {tag} waits")?;
    Ok(text.into_bytes())
}

/// Adds an entry.
fn push_entry(entries: &mut Vec<Entry>, heading: Vec<u8>, hint: Hint) -> Result<(), AllocError>
    ensures { OnOk result (headed entries.new.items ≡ headed entries.old.items ++ heading.items ∷ []) }
{
    let Hint { hint, more } = hint;
    entries.push(Entry {
        heading,
        hint,
        more,
    })?;
    Ok(())
}

/// Adds the entries of the coroutines that wait.
pub(crate) fn push_waits(
    alloc: Global,
    entries: &mut Vec<Entry>,
    script: &Script,
    story: &Story<'_>,
    tags: &[u32],
) -> Result<(), AllocError>
    ensures { OnOk result (headed entries.new.items ≡ headed entries.old.items ++ map (waits_text (program_of script.now)) tags.now) }
{
    let mut rest = tags;
    while let [tag, more @ ..] = rest {
        let heading = waits_text(alloc, script, *tag)?;
        let hint = wait_hint(alloc, story, *tag)?;
        push_entry(entries, heading, hint)?;
        rest = more;
    }
    Ok(())
}

/// Adds the entry of a line.
fn push_line<'a>(
    alloc: Global,
    entries: &mut Vec<Entry>,
    story: &Story<'a>,
    line: &'a [u8],
) -> Result<(), AllocError>
    ensures { OnOk result (headed entries.new.items ≡ headed entries.old.items ++ line.now ∷ []) }
{
    let heading = Vec::from_slice(alloc, line)?;
    let hint = line_hint(alloc, story, line)?;
    push_entry(entries, heading, hint)
}

/// Adds the entries of the lines of this class.
pub(crate) fn push_class<'a>(
    alloc: Global,
    entries: &mut Vec<Entry>,
    script: &Script,
    story: &Story<'a>,
    waits: &[u32],
    class: Class,
    lines: &[Line<'a>],
) -> Result<(), AllocError>
    ensures { OnOk result (headed entries.new.items
        ≡ headed entries.old.items ++ texts_from (program_of script.now) waits.now class (told_lines lines.now)) }
{
    let mut rest = lines;
    while let [line, more @ ..] = rest {
        if is_of(class, class_of(script, waits, *line)) {
            push_line(alloc, entries, story, line.text)?;
        }
        rest = more;
    }
    Ok(())
}

// ---- the text

fn plain_byte(byte: u8) -> u8
    ensures { result ≡ plain_byte byte }
{
    if byte == b'\n' { b' ' } else { byte }
}

fn push_plain(out: &mut Vec<u8>, hint: &[u8]) -> Result<(), AllocError>
    ensures { OnOk result (out.new.items ≡ out.old.items ++ plain hint.now) }
{
    let mut rest = hint;
    while let [byte, more @ ..] = rest {
        out.push(plain_byte(*byte))?;
        rest = more;
    }
    Ok(())
}

/// Adds what stands before a hint, the hint, and a line feed.
fn push_hint(out: &mut Vec<u8>, before: &[u8], hint: &[u8]) -> Result<(), AllocError>
    ensures { OnOk result (out.new.items ≡ out.old.items ++ (before.now ++ (plain hint.now ++ codes "\n"))) }
{
    out.extend_from_slice(before)?;
    push_plain(out, hint)?;
    out.extend_from_slice(b"\n")?;
    Ok(())
}

fn push_hints(out: &mut Vec<u8>, hints: &[String]) -> Result<(), AllocError>
    ensures { OnOk result (out.new.items ≡ out.old.items ++ flat_map hint_line hints.now) }
{
    let mut rest = hints;
    while let [hint, more @ ..] = rest {
        push_hint(out, b"  ", hint.as_bytes())?;
        rest = more;
    }
    Ok(())
}

fn push_text(out: &mut Vec<u8>, entry: &Entry) -> Result<(), AllocError>
    ensures { OnOk result (out.new.items ≡ out.old.items ++ entry_text entry.now) }
{
    push_hint(out, entry.heading.as_slice(), entry.hint.as_bytes())?;
    push_hints(out, entry.more.as_slice())
}

/// Adds the text of entries.
pub(crate) fn push_entries(out: &mut Vec<u8>, entries: &[Entry]) -> Result<(), AllocError>
    ensures { OnOk result (out.new.items ≡ out.old.items ++ flat_map entry_text entries.now) }
{
    let mut rest = entries;
    while let [entry, more @ ..] = rest {
        push_text(out, entry)?;
        rest = more;
    }
    Ok(())
}

/// Adds an entry on one line.
fn push_wait_line(out: &mut Vec<u8>, entry: &Entry) -> Result<(), AllocError>
    ensures { OnOk result (out.new.items ≡ out.old.items ++ wait_line entry.now) }
{
    out.extend_from_slice(b"  ")?;
    push_hint(out, entry.heading.as_slice(), entry.hint.as_bytes())
}

/// Adds entries, each on one line.
pub(crate) fn push_wait_lines(out: &mut Vec<u8>, entries: &[Entry]) -> Result<(), AllocError>
    ensures { OnOk result (out.new.items ≡ out.old.items ++ flat_map wait_line entries.now) }
{
    let mut rest = entries;
    while let [entry, more @ ..] = rest {
        push_wait_line(out, entry)?;
        rest = more;
    }
    Ok(())
}
