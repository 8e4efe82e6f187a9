//! What tallies say of a run.

ghost use Rattle.std.specs.Prelude.{List};
ghost use Rattle.channel_model.specs.declared.acts.Entry.{Entry};
ghost use Rattle.channel_model.specs.Histories.{replay, acts_in};
ghost use Rattle.job_model.specs.declared.acts.JobEntry.{JobEntry};
ghost use Rattle.note_book.specs.declared.book.Item.{Item};
ghost use Rattle.script_grammar.specs.Programs.{Program, shape_of};
ghost use Rattle.script_meaning.specs.Books.{BooksOf};
ghost use Rattle.tally_laws.specs.Elements.{AreFatesOf};
ghost use Rattle.tally_laws.specs.Settlings.{ResolvedAreSettled, AreBooks};
ghost use Rattle.tally_laws.specs.Tallies.{tallied};

/// The books of a run are those of its history of channels, and each coroutine had one wait at a time.
pub fn a_coroutine_has_one_wait_at_a_time()
    ensures { (p : Program) (books : List (List Item)) (channels : List Entry) (jobs : List JobEntry)
        → BooksOf p books channels jobs → AreBooks books channels }
{}

/// Where each wait that was resolved is settled, the tallies of all books of a run, added, tell how many elements there are on the declared
/// channels, and of which fate.
pub fn a_run_is_tallied_book_by_book()
    ensures { (p : Program) (books : List (List Item)) (channels : List Entry) (jobs : List JobEntry)
        → BooksOf p books channels jobs → ResolvedAreSettled (replay channels)
        → AreFatesOf (shape_of p) (acts_in channels) (tallied books) }
{}
