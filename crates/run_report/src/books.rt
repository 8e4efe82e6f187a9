//! The lines of the books.

ghost use Rattle.std.specs.Prelude.{◌++◌, map};
ghost use Rattle.std.specs.Fmt.{decimal};
ghost use lib.Chars.{codes};
ghost use Rattle.script_reader.specs.Programs.{declared_of};
ghost use Rattle.note_book.specs.Books.{notes_of};
ghost use Rattle.run_report.specs.Gatherings.{Adds};
ghost use Rattle.run_report.specs.Texts.{book_text, books_text, item_text};

use crate::gathered::Gathered;
use crate::items::add_item;
use note_book::{Item, Notes};
use script_reader::Channel;

/// Adds the lines of all books, whose tags are counted from 0.
pub(crate) fn add_books(text: &mut Gathered, channels: &[Channel], books: &[Notes])
    ensures { Adds text.old text.new (books_text (map declared_of channels.now) 0 (map notes_of books.now)) }
{
    let mut tag = 0usize;
    for book in books {
        add_book(text, channels, tag, book.items());
        tag += 1;
    }
}

/// Adds the lines of one coroutine.
fn add_book(text: &mut Gathered, channels: &[Channel], tag: usize, book: &[Item])
    ensures { Adds text.old text.new (book_text (map declared_of channels.now) tag book.now) }
{
    for item in book {
        add_line(text, channels, tag, *item);
    }
}

/// Adds the line of an item.
fn add_line(text: &mut Gathered, channels: &[Channel], tag: usize, item: Item)
    ensures { Adds text.old text.new (decimal tag ++ codes " " ++ item_text (map declared_of channels.now) item ++ codes "\n") }
{
    text.add_index(tag);
    text.add(" ");
    add_item(text, channels, item);
    text.add("\n");
}
