//! What follows from the books of a run alone, whatever the floors and the engine.

ghost use Rattle.std.specs.Prelude.{ℕ, ◌<◌, List, Option};
ghost use Rattle.channel_model.specs.declared.acts.Entry.{Entry};
ghost use Rattle.channel_model.specs.Histories.{replay, Legal};
ghost use Rattle.channel_model.specs.Owing.{OwesNothing};
ghost use Rattle.job_model.specs.declared.acts.End.{End};
ghost use Rattle.job_model.specs.declared.acts.JobEntry.{JobEntry};
ghost use Rattle.job_model.specs.Histories.{replay as replay_jobs};
ghost use Rattle.note_book.specs.declared.book.Item.{Item};
ghost use Rattle.call_meaning.specs.Stories.{Moment};
ghost use Rattle.script_grammar.specs.Programs.{Program};
ghost use Rattle.script_grammar.specs.Tags.{coroutine_count};
ghost use Rattle.script_meaning.specs.Shapes.{floor_shape};
ghost use Rattle.script_meaning.specs.Configs.{Config};
ghost use Rattle.script_meaning.specs.Books.{Runs, BooksOf, book_at};
ghost use Rattle.script_meaning.specs.Idle.{IsIdle};
ghost use Rattle.script_meaning.specs.Rest.{AtRest};
ghost use Rattle.script_meaning.specs.Laws.{GivesUpAfterSaw};
ghost use Rattle.script_laws.specs.GoingOn.{GoesOn};

/// At the end of a run the tree of Jobs is at rest.
pub fn a_run_is_at_rest()
    ensures { (p : Program) (books : List (List Item)) (channels : List Entry) (jobs : List JobEntry)
        → BooksOf p books channels jobs → AtRest (replay_jobs jobs) }
{}

/// At the end of a run no channel owes anything.
pub fn nothing_is_owed_at_the_end()
    ensures { (p : Program) (books : List (List Item)) (channels : List Entry) (jobs : List JobEntry)
        → BooksOf p books channels jobs → OwesNothing (floor_shape p) (replay channels) }
{}

/// An element is given up, and a wait that was neither withdrawn nor voided ends as cancelled, only after the note that a Job was seen
/// Cancelling, with at most the withdrawal of that wait, or the note that this was too late, between.
pub fn a_wait_is_given_up_behind_a_cancellation()
    ensures { (p : Program) (k : ℕ) (now : Moment) (book : List Item) (x : Config)
        → Legal (floor_shape p) now.channels → Runs p k now book x → GivesUpAfterSaw (replay now.channels) book }
{}

/// Where a run came to rest, no coroutine goes on: none has a move that is true of the two histories as they are, or with its own
/// entries added.
pub fn nobody_goes_on()
    ensures { (p : Program) (books : List (List Item)) (channels : List Entry) (jobs : List JobEntry)
        (of : BooksOf p books channels jobs) (root : Option End) → IsIdle p books channels jobs of root
        → (k : ℕ) → k < coroutine_count p
        → GoesOn p k (of.ends_at k) (book_at k books) (record { channels = channels; jobs = jobs }) → ⊥ }
{}
