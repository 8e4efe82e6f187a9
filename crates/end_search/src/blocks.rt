//! What is printed of an end.

ghost use Rattle.std.specs.Prelude.{◌≡◌, ◌++◌, IfOk, IfSome, OnOk, None, is_some, length, map, string_bytes, true};
ghost use lib.Chars.{codes};
ghost use Rattle.std.specs.List.{flat_map};
ghost use Rattle.std.specs.Fmt.{decimal};
ghost use Rattle.note_book.specs.Books.{notes_of};
ghost use Rattle.script_reader.specs.Scripts.{program_of};
ghost use Rattle.engine_one.specs.Runs.{CameToRest, WasMadeInOrder};
ghost use Rattle.run_report.specs.Elements.{ends_text};
ghost use Rattle.end_search.specs.Blocks.{AreWaits, IsBlock, does_suit, head_text, order_text, refused_text, shows_kind, status_text, tag_part, tags_text, too_long_text};

use crate::names::named_text;
use crate::refusals::refused_sends;
use crate::wanted::{Wanted, does_suit, shows_kind};
use co_base::{Gate, Memory, Tag};
use engine_one::{ListRun, run_in_order};
use gathered::Text;
use job_model::End;
use note_book::Notes;
use run_explanation::explain_waits;
use run_report::{ends_of, report};
use script_reader::Script;
use std::alloc::{AllocError, Global};

/// Of what an end is printed.
#[derive(Clone, Copy)]
pub(crate) struct Shown<'a> {
    pub(crate) script: &'a Script,
    /// The text of the script.
    pub(crate) source: &'a [u8],
    /// Which ends are looked for, if not all.
    pub(crate) wanted: Option<Wanted>,
}

/// What is printed of the end with this number: a run in its order is made, and read. Nothing, if it is none that is looked for.
pub(crate) fn block_of<G: Gate>(
    alloc: Global,
    shown: Shown,
    gate: &G,
    number: u64,
    order: &[Tag],
) -> Result<Option<Vec<u8>>, Memory>
    ensures block { IfOk result (λ found. IfSome found (λ block.
        IsBlock (program_of shown.entry.script.now) shown.entry.wanted number block.items)) }
    ensures some { IfOk result (λ found. shown.entry.wanted ≡ None → is_some found ≡ true) }
{
    let script = shown.script;
    let run = run_in_order::<Notes, G>(alloc, script, gate, order)?;
    if !does_suit(shown.wanted, run.done.end) {
        return Ok(None);
    }
    block_of_run(alloc, shown, number, order, &run)
}

/// The same of a run that was made, and whose root has ended as it is looked for.
fn block_of_run(
    alloc: Global,
    shown: Shown,
    number: u64,
    order: &[Tag],
    run: &ListRun<Notes>,
) -> Result<Option<Vec<u8>>, Memory>
    requires rest { CameToRest notes_of (program_of shown.script.now) run.now }
    requires made { WasMadeInOrder notes_of (program_of shown.script.now) order.now run.now }
    requires suits { does_suit shown.wanted run.now.done.end ≡ true }
    ensures block { IfOk result (λ found. IfSome found (λ block.
        IsBlock (program_of shown.entry.script.now) shown.entry.wanted number block.items)) }
    ensures some { IfOk result (λ found. shown.entry.wanted ≡ None → is_some found ≡ true) }
{
    let script = shown.script;
    let books = run.done.books.as_slice();
    let refused = refused_sends(alloc, script, books)?;
    let ends = ends_of(alloc, script, books)?;
    if !shows_kind(shown.wanted, refused.as_bytes(), ends.as_bytes()) {
        return Ok(None);
    }
    let lines = Lines { refused, ends };
    let block = told_of_run(alloc, shown, number, order, run, &lines)?;
    Ok(Some(block))
}

/// The lines of a run's refused sends, and those of its Jobs and elements.
#[derive(Drop)]
struct Lines {
    refused: String,
    ends: String,
}

/// The same of a run that was made, and is looked for.
fn told_of_run(
    alloc: Global,
    shown: Shown,
    number: u64,
    order: &[Tag],
    run: &ListRun<Notes>,
    lines: &Lines,
) -> Result<Vec<u8>, Memory>
    requires rest { CameToRest notes_of (program_of shown.script.now) run.now }
    requires made { WasMadeInOrder notes_of (program_of shown.script.now) order.now run.now }
    requires suits { does_suit shown.wanted run.now.done.end ≡ true }
    requires refused { string_bytes lines.now.refused ≡ refused_text (program_of shown.script.now) (map notes_of run.now.done.books.items) }
    requires ends { string_bytes lines.now.ends ≡ ends_text (program_of shown.script.now) (map notes_of run.now.done.books.items) }
    requires kind { shows_kind shown.wanted (string_bytes lines.now.refused) (string_bytes lines.now.ends) ≡ true }
    ensures { IfOk result (λ block. IsBlock (program_of shown.entry.script.now) shown.entry.wanted number block.items) }
{
    let told = report(alloc, shown.script, &run.done)?;
    let waits = waits_in(alloc, shown.script, shown.source, told.as_slice())?;
    let named = named_text(alloc, shown.script, lines.ends.as_bytes())?;
    let order = order_text(alloc, order)?;
    let head = head_text(alloc, number, run.done.end)?;
    let mut block = Text::new(alloc);
    block.add(head.as_slice());
    block.add(waits.as_slice());
    block.add(named.as_slice());
    block.add(lines.refused.as_bytes());
    block.add(lines.ends.as_bytes());
    block.add(order.as_bytes());
    Ok(block.whole()?)
}

/// The lines of the coroutines that a report leaves waiting, or that it is too long to be explained.
pub(crate) fn waits_in(
    alloc: Global,
    script: &Script,
    source: &[u8],
    report: &[u8],
) -> Result<Vec<u8>, AllocError>
    ensures { IfOk result (λ text. AreWaits (program_of script.now) report.now text.items) }
{
    if report.len() > 67108864 {
        return too_long_text(alloc);
    }
    let text = explain_waits(alloc, script, source, report)?;
    Ok(text)
}

fn too_long_text(alloc: Global) -> Result<Vec<u8>, AllocError>
    ensures { IfOk result (λ text. text.items ≡ too_long_text) }
{
    let mut text = String::new(alloc);
    text.push_str("  who waits is not told: the report has more than 67108864 bytes\n")?;
    Ok(text.into_bytes())
}

/// The first line.
fn head_text(alloc: Global, number: u64, root: Option<End>) -> Result<Vec<u8>, AllocError>
    ensures { IfOk result (λ text. text.items ≡ head_text number root) }
{
    let mut head = String::new(alloc);
    push_number(&mut head, number)?;
    push_status(&mut head, root)?;
    Ok(head.into_bytes())
}

/// Adds the number of an end.
fn push_number(out: &mut String, number: u64) -> Result<(), AllocError>
    ensures { OnOk result (string_bytes out.new ≡ string_bytes out.old ++ (codes "end " ++ (decimal number ++ codes ": "))) }
{
    write!(out, "end {number}: ")
}

/// Adds how the root has ended, if it has.
fn push_status(out: &mut String, root: Option<End>) -> Result<(), AllocError>
    ensures { OnOk result (string_bytes out.new ≡ string_bytes out.old ++ status_text root) }
{
    match root {
        Some(End::Completed(value)) => write!(out, "completed {value}\n"),
        Some(End::Cancelled(_)) => out.push_str("cancelled\n"),
        None => out.push_str("unfinished\n"),
    }
}

/// The line of an order, and an empty line.
fn order_text(alloc: Global, order: &[Tag]) -> Result<String, AllocError>
    ensures { IfOk result (λ text. string_bytes text ≡ order_text order.now) }
{
    let mut out = String::new(alloc);
    let turns = order.len();
    write!(out, "turns {turns}: ")?;
    push_tags(&mut out, order)?;
    out.push_str("\n\n")?;
    Ok(out)
}

/// Adds tags with commas between them.
fn push_tags(out: &mut String, order: &[Tag]) -> Result<(), AllocError>
    ensures { OnOk result (string_bytes out.new ≡ string_bytes out.old ++ tags_text order.now) }
{
    match order {
        [] => Ok(()),
        [first, more @ ..] => {
            write!(out, "{first}")?;
            push_further(out, more)
        }
    }
}

/// Adds tags, each behind a comma.
fn push_further(out: &mut String, order: &[Tag]) -> Result<(), AllocError>
    ensures { OnOk result (string_bytes out.new ≡ string_bytes out.old ++ flat_map tag_part order.now) }
{
    let mut rest = order;
    while let [tag, more @ ..] = rest {
        write!(out, ",{tag}")?;
        rest = more;
    }
    Ok(())
}
