//! The summary of a run.

ghost use Rattle.std.specs.Prelude.{◌≡◌, ◌<◌, ◌++◌, length, map, IfOk, OnOk, Some, string_bytes};
ghost use lib.Chars.{codes};
ghost use Rattle.note_book.specs.Books.{notes_of};
ghost use Rattle.script_reader.specs.Scripts.{program_of};
ghost use Rattle.script_reader.specs.Programs.{declared_of};
ghost use Rattle.run_report.specs.JobFacts.{facts_at};
ghost use Rattle.run_report.specs.Gatherings.{Adds};
ghost use Rattle.run_report.specs.Summaries.{element_counts_text, first_counts_text, second_counts_text, job_counts_text, result_text, summary_line, summary_of, summary_text};

use crate::counts::{ElementCounts, JobCounts, count_elements, count_jobs};
use crate::fates::Known;
use crate::gathered::Gathered;
use crate::job_facts::{JobFacts, job_facts_in};
use co_base::Memory;
use job_model::End;
use note_book::Notes;
use poll_states::Done;
use script_reader::{Channel, Script};
use std::alloc::{AllocError, Global};
use std::fmt;

/// The summary of a run: one line with the counts of its Jobs and of the elements of its declared channels, and with the root's result.
///
/// The time is linear in the number of items, of Jobs and of declared places.
pub fn summary(alloc: Global, script: &Script, done: &Done<Notes>) -> Result<Vec<u8>, Memory>
    ensures { IfOk result (λ text. text.items ≡ summary_text (program_of script.now) (map notes_of done.now.books.items)) }
{
    let text = summary_of(
        alloc,
        script.version(),
        script.channels(),
        script.jobs(),
        done.books.as_slice(),
    )?;
    Ok(text.into_bytes())
}

/// The summary of a run of a script of this version with so many Jobs, over these channels, that left these books.
pub(crate) fn summary_of(
    alloc: Global,
    version: u8,
    channels: &[Channel],
    jobs: u16,
    books: &[Notes],
) -> Result<String, Memory>
    requires channels { length channels.now < 65536 }
    requires root { 0 < jobs }
    ensures { IfOk result (λ text. string_bytes text ≡ summary_of version (map declared_of channels.now) jobs (map notes_of books.now)) }
{
    let table = job_facts_in(alloc, jobs, books)?;
    let known = Known::from_books(alloc, books)?;
    let text = line(
        alloc,
        version,
        count_jobs(table.as_slice()),
        count_elements(channels, &known),
        root_end(table.as_slice()),
    )?;
    Ok(text)
}

/// How the root's Job has ended, if it has.
fn root_end(table: &[JobFacts]) -> Option<End>
    ensures { result ≡ (facts_at table.now 0).end }
{
    match table {
        [root, ..] => root.end,
        [] => None,
    }
}

/// The line.
fn line(
    alloc: Global,
    version: u8,
    jobs: JobCounts,
    elements: ElementCounts,
    root: Option<End>,
) -> Result<String, AllocError>
    ensures { IfOk result (λ text. string_bytes text ≡ summary_line version jobs elements root) }
{
    let mut text = Gathered::with_capacity(alloc, 0)?;
    add_job_counts(&mut text, jobs);
    add_element_counts(&mut text, version, elements);
    let mut out = text.whole()?;
    push_result(&mut out, root)?;
    Ok(out)
}

fn add_job_counts(text: &mut Gathered, jobs: JobCounts)
    ensures { Adds text.old text.new (job_counts_text jobs) }
{
    text.add("jobs ");
    text.add_number(jobs.attached as u64);
    text.add(" completed ");
    text.add_number(jobs.completed as u64);
    text.add(" cancelled ");
    text.add_number(jobs.cancelled as u64);
    text.add(" ");
}

fn add_element_counts(text: &mut Gathered, version: u8, elements: ElementCounts)
    ensures { Adds text.old text.new (element_counts_text version elements) }
{
    if version == 2 {
        add_second_counts(text, elements)
    } else {
        add_first_counts(text, elements)
    }
}

fn add_second_counts(text: &mut Gathered, elements: ElementCounts)
    ensures { Adds text.old text.new (second_counts_text elements) }
{
    text.add("received ");
    text.add_number(elements.received);
    text.add(" undelivered ");
    text.add_number(elements.undelivered);
    text.add(" dropped ");
    text.add_number(elements.dropped);
    text.add(" spurned ");
    text.add_number(elements.spurned);
    text.add(" withdrawn ");
    text.add_number(elements.withdrawn);
    text.add(" held ");
    text.add_number(elements.held);
    text.add(" ");
}

fn add_first_counts(text: &mut Gathered, elements: ElementCounts)
    ensures { Adds text.old text.new (first_counts_text elements) }
{
    text.add("received ");
    text.add_number(elements.received);
    text.add(" undelivered ");
    text.add_number(elements.undelivered);
    text.add(" dropped ");
    text.add_number(elements.dropped);
    text.add(" withdrawn ");
    text.add_number(elements.withdrawn);
    text.add(" held ");
    text.add_number(elements.held);
    text.add(" ");
}

/// Writes the last part of a summary: the root's result, and the end of the line.
pub fn push_result(out: &mut String, root: Option<End>) -> Result<(), AllocError>
    ensures { OnOk result (string_bytes out.new ≡ string_bytes out.old ++ (codes "result " ++ result_text root ++ codes "\n")) }
{
    let result = ShownResult(root);
    write!(out, "result {result}\n")
}

/// The root's result, as it is printed.
#[derive(Clone, Copy)]
struct ShownResult(Option<End>);

impl fmt::Display for ShownResult {
    ghost output = { λ s. Some (result_text s.0) };

    fn fmt<W: fmt::Write>(&self, f: &mut fmt::Formatter<W>) -> fmt::Result {
        match self.0 {
            Some(End::Completed(value)) => write!(f, "{value}"),
            Some(End::Cancelled(_)) | None => write!(f, "none"),
        }
    }
}
