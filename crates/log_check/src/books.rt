//! The books that the lines of a log are.

ghost use Rattle.std.specs.Prelude.{◌≡◌, ◌∷◌, ◌++◌, [], IfNone, IfOk, OnOk, map, replicate, true};
ghost use Rattle.note_book.specs.Books.{notes_of};
ghost use Rattle.log_check.specs.Logs.{AreOf, books_in, with_line};

use crate::same::same_items;
use co_base::Memory;
use history_text::Line;
use note_book::{Item, NoteBook, Notes};
use std::alloc::Global;

/// The number, from 1, of the first line that is of none of so many coroutines.
pub(crate) fn first_stranger(lines: &[Line], count: u16) -> Option<usize>
    ensures { IfNone result (AreOf count lines.now) }
{
    let mut rest = lines;
    let mut number = 1usize;
    while let [line, more @ ..] = rest {
        if line.who >= count {
            return Some(number);
        }
        number = number.saturating_add(1);
        rest = more;
    }
    None
}

/// So many books with nothing in them.
fn no_books(alloc: Global, count: u16) -> Result<Vec<Notes>, Memory>
    ensures { IfOk result (λ books. map notes_of books.items ≡ replicate count []) }
{
    let mut books = Vec::with_capacity(alloc, count as usize)?;
    for _ in 0..count {
        books.push(Notes::new(alloc))?;
    }
    Ok(books)
}

/// Writes an item at the end of a book.
fn add(book: &mut Notes, item: Item) -> Result<(), Memory>
    ensures { OnOk result (notes_of book.new ≡ notes_of book.old ++ item ∷ []) }
{
    book.room(1)?;
    book.note(item);
    Ok(())
}

/// Writes a line into the book of its coroutine.
fn write(books: &mut Vec<Notes>, line: &Line) -> Result<(), Memory>
    ensures { OnOk result (map notes_of books.new.items ≡ with_line (map notes_of books.old.items) line.now) }
{
    let place = line.who as usize;
    if place < books.len() {
        add(&mut books[place], line.item)?;
    }
    Ok(())
}

/// The books of so many coroutines that the lines of a log are.
pub(crate) fn books_of(alloc: Global, count: u16, lines: &[Line]) -> Result<Vec<Notes>, Memory>
    ensures { IfOk result (λ books. map notes_of books.items ≡ books_in count lines.now) }
{
    let mut books = no_books(alloc, count)?;
    let mut rest = lines;
    while let [line, more @ ..] = rest {
        write(&mut books, line)?;
        rest = more;
    }
    Ok(books)
}

/// Whether these are the same books.
pub(crate) fn same_books(left: &[Notes], right: &[Notes]) -> bool
    ensures { result ≡ true → map notes_of left.now ≡ map notes_of right.now }
{
    let mut rest = left;
    let mut others = right;
    while let [book, more @ ..] = rest {
        let [other, further @ ..] = others else {
            return false;
        };
        if !same_items(book.items(), other.items()) {
            return false;
        }
        rest = more;
        others = further;
    }
    others.is_empty()
}
