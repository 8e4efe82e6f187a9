//! The lines of the Jobs.

ghost use Rattle.std.specs.Prelude.{◌≡◌, ◌++◌, length};
ghost use lib.Chars.{codes};
ghost use Rattle.std.specs.Fmt.{decimal};
ghost use Rattle.run_report.specs.Gatherings.{Adds};
ghost use Rattle.run_report.specs.JobFacts.{is_attached_by, job_line_by, job_text_by, lines_by, open_text_by};
ghost use Rattle.run_report.specs.Jobs.{line_of_job};

use crate::gathered::Gathered;
use crate::job_facts::JobFacts;
use crate::job_items::add_end;

/// Adds the lines of the Jobs of the rows of a table.
pub(crate) fn add_jobs(text: &mut Gathered, table: &[JobFacts])
    ensures { Adds text.old text.new (lines_by (length table.now) table.now) }
{
    for (row, facts) in table.iter().enumerate() {
        add_row(text, row, *facts);
    }
}

/// Adds the line of a row, if it is attached.
fn add_row(text: &mut Gathered, row: usize, facts: JobFacts)
    ensures { Adds text.old text.new (job_line_by row facts) }
{
    if is_attached(row, facts) {
        add_line(text, row, facts);
    }
}

/// Adds the line of a row.
fn add_line(text: &mut Gathered, row: usize, facts: JobFacts)
    ensures { Adds text.old text.new (line_of_job row (job_text_by facts)) }
{
    text.add("job ");
    text.add_index(row);
    text.add(" ");
    add_state(text, facts);
    text.add("\n");
}

/// Whether the row is the root's, or was attached.
pub(crate) fn is_attached(row: usize, facts: JobFacts) -> bool
    ensures { result ≡ is_attached_by row facts }
{
    row == 0 || facts.attached
}

/// Adds how a Job ended, or how far it is.
fn add_state(text: &mut Gathered, facts: JobFacts)
    ensures { Adds text.old text.new (job_text_by facts) }
{
    match facts.end {
        Some(end) => add_end(text, end),
        None => text.add(open_word(facts)),
    }
}

/// How far a Job is that has not ended.
fn open_word(facts: JobFacts) -> &'static str
    ensures { result.now ≡ open_text_by facts }
{
    if facts.cancelled {
        "cancelling"
    } else if facts.body_ended {
        "completing"
    } else if facts.lazy && !facts.started {
        "new"
    } else {
        "active"
    }
}
