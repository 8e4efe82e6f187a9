//! What the summary says follows from the tallies of the books.

ghost use Rattle.std.specs.Prelude.{◌≡◌, ℕ, List, ◌<◌, Option};
ghost use Rattle.channel_model.specs.Histories.{replay, acts_in};
ghost use Rattle.channel_model.specs.declared.acts.Entry.{Entry};
ghost use Rattle.job_model.specs.declared.acts.End.{End};
ghost use Rattle.job_model.specs.declared.acts.JobEntry.{JobEntry};
ghost use Rattle.note_book.specs.declared.book.Item.{Item};
ghost use Rattle.script_grammar.specs.Programs.{Program};
ghost use Rattle.script_grammar.specs.Tags.{job_count, coroutine_count};
ghost use Rattle.script_meaning.specs.Books.{BooksOf};
ghost use Rattle.run_laws.specs.Ends.{IsRunAtRest};
ghost use Rattle.run_report.specs.Elements.{channel_acts_noted, element_of};
ghost use Rattle.run_report.specs.Jobs.{end_noted, job_acts_noted};
ghost use Rattle.run_report.specs.Summaries.{jobs_counted, job_counts_text, summary_text};
ghost use Rattle.tally_laws.specs.LinesTold.{line_of_books};
ghost use Rattle.tally_laws.specs.TallyTexts.{line_of_tallies};
ghost use Rattle.tally_laws.specs.Settlings.{ResolvedAreSettled};
ghost use Rattle.tally_laws.specs.Tallies.{tallied};

/// Where each wait that was resolved is settled, and the elements and their fates are in the joined books as in the history, the summary of
/// a run is the line with the counts that the added tallies of all books give.
pub fn tallies_give_the_elements_of_the_summary()
    ensures { (p : Program) (books : List (List Item)) (channels : List Entry) (jobs : List JobEntry)
        → BooksOf p books channels jobs → ResolvedAreSettled (replay channels)
        → ((c q : ℕ) → element_of (acts_in channels) c q ≡ element_of (channel_acts_noted books) c q)
        → summary_text p books
        ≡ line_of_tallies p.version (job_counts_text (jobs_counted (job_acts_noted books) (job_count p))) (tallied books)
        (end_noted 0 (job_acts_noted books)) }
{}

/// After a run that came to rest its summary is the line with the numbers that the tallies of all books give, added, and with how the root
/// has ended.
pub fn the_summary_of_a_run_is_told_by_its_tallies()
    ensures { (p : Program) (books : List (List Item)) (channels : List Entry) (jobs : List JobEntry) (root : Option End)
        → 0 < coroutine_count p → IsRunAtRest p books channels jobs root → summary_text p books ≡ line_of_books p.version books root }
{}
