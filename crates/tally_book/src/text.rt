//! The line.

ghost use Rattle.std.specs.Prelude.{◌≡◌, ◌+◌, ◌≤◌, ◌++◌, List, IfOk, OnOk, length, string_bytes};
ghost use Rattle.channel_model.specs.declared.acts.Entry.{Entry};
ghost use Rattle.job_model.specs.declared.acts.JobEntry.{JobEntry};
ghost use Rattle.script_reader.specs.Scripts.{program_of};
ghost use Rattle.run_laws.specs.Ends.{IsRunAtRest};
ghost use Rattle.run_report.specs.Summaries.{summary_text};
ghost use Rattle.tally_laws.specs.TallyTexts.{first_numbers_text, numbers_text, second_numbers_text};
ghost use Rattle.tally_laws.specs.LinesTold.{job_numbers_text, line_of_books};
ghost use Rattle.tally_book.specs.Totals.{AreJobsOf, line_of};

use crate::counted::{Fates, fates_of};
use crate::tally::Tally;
use crate::totals::{JobTotals, act_totals, job_totals};
use co_base::Memory;
use job_model::End;
use run_report::push_result;
use script_reader::Script;
use std::alloc::{AllocError, Global};

/// The summary of a run of the script whose coroutines kept these tallies, and whose root has ended so, if it has: if the run came to rest,
/// the text that `run_report` makes of the notes.
pub fn summary(
    alloc: Global,
    script: &Script,
    tallies: &[Tally],
    root: Option<End>,
) -> Result<Vec<u8>, Memory>
    requires few { length tallies.now ≤ 65536 }
    ensures { IfOk result (λ text. (channels : List Entry) (jobs : List JobEntry)
        → IsRunAtRest (program_of script.now) tallies.now channels jobs root
        → text.items ≡ summary_text (program_of script.now) tallies.now) }
{
    bytes_of(alloc, script.version(), tallies, root)
}

/// The bytes of the line of these tallies, of a script of this version.
fn bytes_of(
    alloc: Global,
    version: u8,
    tallies: &[Tally],
    root: Option<End>,
) -> Result<Vec<u8>, Memory>
    requires few { length tallies.now ≤ 65536 }
    ensures { IfOk result (λ text. text.items ≡ line_of_books version tallies.now root) }
{
    let text = line_of(alloc, version, tallies, root)?;
    Ok(text.into_bytes())
}

/// The line of these tallies, of a script of this version.
pub fn line_of(
    alloc: Global,
    version: u8,
    tallies: &[Tally],
    root: Option<End>,
) -> Result<String, AllocError>
    requires few { length tallies.now ≤ 65536 }
    ensures { IfOk result (λ text. string_bytes text ≡ line_of_books version tallies.now root) }
{
    let acts = act_totals(tallies);
    let jobs = job_totals(tallies);
    line(alloc, version, &jobs, &fates_of(&acts), root)
}

fn line(
    alloc: Global,
    version: u8,
    jobs: &JobTotals,
    fates: &Fates,
    root: Option<End>,
) -> Result<String, AllocError>
    requires few { AreJobsOf 65536 jobs.now }
    ensures { IfOk result (λ text. string_bytes text ≡ line_of version jobs.now fates.now root) }
{
    let mut out = String::new(alloc);
    push_jobs(&mut out, jobs)?;
    push_fates(&mut out, version, fates)?;
    push_result(&mut out, root)?;
    Ok(out)
}

fn push_jobs(out: &mut String, jobs: &JobTotals) -> Result<(), AllocError>
    requires few { AreJobsOf 65536 jobs.now }
    ensures { OnOk result (string_bytes out.new
        ≡ string_bytes out.old ++ job_numbers_text (1 + jobs.now.attached) jobs.now.completed jobs.now.cancelled) }
{
    let attached = 1 + jobs.attached;
    let completed = jobs.completed;
    let cancelled = jobs.cancelled;
    write!(
        out,
        "jobs {attached} completed {completed} cancelled {cancelled} "
    )
}

/// Of elements that were spurned it tells in version 2.
fn push_fates(out: &mut String, version: u8, fates: &Fates) -> Result<(), AllocError>
    ensures { OnOk result (string_bytes out.new ≡ string_bytes out.old
        ++ numbers_text version fates.now.received fates.now.undelivered fates.now.dropped fates.now.spurned
        fates.now.withdrawn fates.now.held) }
{
    if version == 2 {
        push_second_fates(out, fates)
    } else {
        push_first_fates(out, fates)
    }
}

fn push_first_fates(out: &mut String, fates: &Fates) -> Result<(), AllocError>
    ensures { OnOk result (string_bytes out.new ≡ string_bytes out.old
        ++ first_numbers_text fates.now.received fates.now.undelivered fates.now.dropped fates.now.withdrawn fates.now.held) }
{
    let Fates {
        received,
        undelivered,
        dropped,
        withdrawn,
        held,
        ..
    } = *fates;
    write!(
        out,
        "received {received} undelivered {undelivered} dropped {dropped} withdrawn {withdrawn} held {held} "
    )
}

fn push_second_fates(out: &mut String, fates: &Fates) -> Result<(), AllocError>
    ensures { OnOk result (string_bytes out.new ≡ string_bytes out.old
        ++ second_numbers_text fates.now.received fates.now.undelivered fates.now.dropped fates.now.spurned
        fates.now.withdrawn fates.now.held) }
{
    let Fates {
        received,
        undelivered,
        dropped,
        spurned,
        withdrawn,
        held,
    } = *fates;
    write!(
        out,
        "received {received} undelivered {undelivered} dropped {dropped} spurned {spurned} "
    )?;
    write!(out, "withdrawn {withdrawn} held {held} ")?;
    Ok(())
}
