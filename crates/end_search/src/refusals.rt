//! The lines of sends that closed channels refused.

ghost use Rattle.std.specs.Prelude.{◌≡◌, ◌++◌, IfOk, OnOk, map, slice_get, string_bytes};
ghost use Rattle.std.specs.List.{flat_map};
ghost use Rattle.note_book.specs.Books.{notes_of};
ghost use Rattle.script_reader.specs.Programs.{declared_of};
ghost use Rattle.script_reader.specs.Scripts.{program_of};
ghost use Rattle.end_search.specs.Blocks.{refused_line, refused_on, refused_text};

use channel_model::ChannelNote;
use co_base::{ChannelId, Value};
use note_book::{Item, Notes};
use script_reader::{Channel, Script};
use std::alloc::{AllocError, Global};

/// A line for each send that a closed channel refused: the channel and the value.
pub(crate) fn refused_sends(
    alloc: Global,
    script: &Script,
    books: &[Notes],
) -> Result<String, AllocError>
    ensures { IfOk result (λ text. string_bytes text ≡ refused_text (program_of script.now) (map notes_of books.now)) }
{
    let mut out = String::new(alloc);
    let mut rest = books;
    while let [book, more @ ..] = rest {
        push_refusals(&mut out, script, book.items())?;
        rest = more;
    }
    Ok(out)
}

/// Adds the lines of the items of a book.
fn push_refusals(out: &mut String, script: &Script, items: &[Item]) -> Result<(), AllocError>
    ensures { OnOk result (string_bytes out.new
        ≡ string_bytes out.old ++ flat_map (refused_line (program_of script.now)) items.now) }
{
    let mut rest = items;
    while let [item, more @ ..] = rest {
        push_refusal(out, script, *item)?;
        rest = more;
    }
    Ok(())
}

/// Adds the line of an item, if it says that a send was refused.
fn push_refusal(out: &mut String, script: &Script, item: Item) -> Result<(), AllocError>
    ensures { OnOk result (string_bytes out.new ≡ string_bytes out.old ++ refused_line (program_of script.now) item) }
{
    match item {
        Item::Channel(ChannelNote::SendClosed { c, value, .. }) => {
            push_refused(out, script.channels(), c, value)
        }
        Item::Channel(ChannelNote::TrySendClosed { c, value, .. }) => {
            push_refused(out, script.channels(), c, value)
        }
        _ => Ok(()),
    }
}

fn push_refused(
    out: &mut String,
    channels: &[Channel],
    c: ChannelId,
    value: Value,
) -> Result<(), AllocError>
    ensures { OnOk result (string_bytes out.new
        ≡ string_bytes out.old ++ refused_on (slice_get (map declared_of channels.now) c) value) }
{
    match channels.get(c as usize) {
        Some(channel) => {
            let name = channel.name.as_str();
            write!(out, "  refused {name} {value}\n")
        }
        None => Ok(()),
    }
}
