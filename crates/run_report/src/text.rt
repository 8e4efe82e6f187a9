//! The whole report.

ghost use Rattle.std.specs.Prelude.{◌≡◌, ◌<◌, ◌++◌, length, map, IfOk, string_bytes};
ghost use Rattle.note_book.specs.Books.{notes_of};
ghost use Rattle.script_reader.specs.Scripts.{program_of};
ghost use Rattle.script_reader.specs.Programs.{declared_of};
ghost use Rattle.run_report.specs.Jobs.{job_acts_noted, jobs_text};
ghost use Rattle.run_report.specs.Elements.{report_of, report_text, ends_text, elements_text, element_of, channel_acts_noted};

use crate::books::add_books;
use crate::elements::push_elements;
use crate::fates::Known;
use crate::gathered::Gathered;
use crate::job_facts::job_facts_in;
use crate::job_lines::add_jobs;
use co_base::Memory;
use note_book::Notes;
use poll_states::Done;
use script_reader::{Channel, Script};
use std::alloc::Global;

/// The report of a run: a line for each item of each book, a line for each Job, and a line for each element that was not received.
///
/// The time is linear in the number of items, of Jobs and of declared channels.
pub fn report(alloc: Global, script: &Script, done: &Done<Notes>) -> Result<Vec<u8>, Memory>
    ensures { IfOk result (λ text. text.items ≡ report_text (program_of script.now) (map notes_of done.now.books.items)) }
{
    let text = report_of(
        alloc,
        script.channels(),
        script.jobs(),
        done.books.as_slice(),
    )?;
    Ok(text.into_bytes())
}

/// The report of a run with so many Jobs, over these channels, that left these books.
pub fn report_of(
    alloc: Global,
    channels: &[Channel],
    jobs: u16,
    books: &[Notes],
) -> Result<String, Memory>
    requires { length channels.now < 65536 }
    ensures { IfOk result (λ text. string_bytes text ≡ report_of (map declared_of channels.now) jobs (map notes_of books.now)) }
{
    let ends = ends(alloc, channels, jobs, books)?;
    let mut text = Gathered::with_capacity(alloc, about_len(books))?;
    add_books(&mut text, channels, books);
    text.add(ends.as_str());
    let report = text.whole()?;
    Ok(report)
}

/// The lines behind those of the books.
fn ends(alloc: Global, channels: &[Channel], jobs: u16, books: &[Notes]) -> Result<String, Memory>
    requires { length channels.now < 65536 }
    ensures { IfOk result (λ text. string_bytes text ≡ jobs_text jobs (job_acts_noted (map notes_of books.now))
        ++ elements_text (element_of (channel_acts_noted (map notes_of books.now))) 0 (map declared_of channels.now)) }
{
    let elements = elements_of(alloc, channels, books)?;
    let table = job_facts_in(alloc, jobs, books)?;
    let mut text = Gathered::with_capacity(alloc, elements.len())?;
    add_jobs(&mut text, table.as_slice());
    text.add(elements.as_str());
    let lines = text.whole()?;
    Ok(lines)
}

/// The end of the report of a run with these books: a line for each Job, and a line for each element that was not received.
pub fn ends_of(alloc: Global, script: &Script, books: &[Notes]) -> Result<String, Memory>
    ensures { IfOk result (λ text. string_bytes text ≡ ends_text (program_of script.now) (map notes_of books.now)) }
{
    ends(alloc, script.channels(), script.jobs(), books)
}

/// About how many bytes a line of a book has.
const LINE: usize = 24;

/// About how many bytes the lines of these books have. A text that grows to its length would be copied, and keep the memory that it had.
fn about_len(books: &[Notes]) -> usize {
    let mut bytes = 0usize;
    for book in books {
        bytes = bytes.saturating_add(book.items().len().saturating_mul(LINE));
    }
    bytes
}

/// The lines of the elements. What these take to be found is let go of here, before the books are written.
fn elements_of(alloc: Global, channels: &[Channel], books: &[Notes]) -> Result<String, Memory>
    requires { length channels.now < 65536 }
    ensures { IfOk result (λ text. string_bytes text
        ≡ elements_text (element_of (channel_acts_noted (map notes_of books.now))) 0 (map declared_of channels.now)) }
{
    let known = Known::from_books(alloc, books)?;
    let mut out = String::new(alloc);
    push_elements(&mut out, channels, &known)?;
    Ok(out)
}
