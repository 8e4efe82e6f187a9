//! How a book goes on, and what one book tells of its waits and of how it began.

ghost use Rattle.std.specs.Prelude.{◌≡◌, ◌≢◌, ◌<◌, ℕ, List, [], ◌++◌, length, Some};
ghost use Rattle.co_base.specs.declared.names.WaitId.{WaitId};
ghost use Rattle.channel_model.specs.Histories.{replay, acts_of, Legal};
ghost use Rattle.job_model.specs.Histories.{Legal as LegalJobs};
ghost use Rattle.note_book.specs.declared.book.Item.{Item};
ghost use Rattle.note_book.specs.Items.{channel_acts_in};
ghost use Rattle.call_meaning.specs.Telling.{Told, items_in};
ghost use Rattle.call_meaning.specs.Stories.{Moment, IsBy, IsTrue};
ghost use Rattle.script_grammar.specs.Programs.{Program};
ghost use Rattle.script_meaning.specs.Shapes.{floor_shape, job_shape};
ghost use Rattle.script_meaning.specs.Configs.{Config};
ghost use Rattle.script_meaning.specs.Books.{story, Runs};
ghost use Rattle.script_meaning.specs.Polls.{Turned};
ghost use Rattle.script_meaning.specs.Laws.{wait_of, HasJustTheWait, BeginsAsAttached};

/// What a poll told of moments since the book was written, put after that book, is again a book.
pub fn a_book_goes_on()
    ensures { (p : Program) (k : ℕ) (between now : Moment) (book : List Item) (x y : Config) (told : List Told)
        → IsBy between now → Runs p k between book x → Turned p k x told y → IsTrue (story p k now) book between told
        → Runs p k now (book ++ items_in told) y }
{}

/// If a coroutine waits, that wait is its own and not settled, at a channel of the floor, and each other wait of its own is settled;
/// if it does not wait, each is.
pub fn an_open_wait_is_the_one_unsettled()
    ensures one { (p : Program) (k : ℕ) (now : Moment) (book : List Item) (x : Config)
        → Legal (floor_shape p) now.channels → acts_of k now.channels ≡ channel_acts_in book → Runs p k now book x
        → HasJustTheWait k x.stage (replay now.channels) }
    ensures on_floor { (p : Program) (k : ℕ) (now : Moment) (book : List Item) (x : Config) (w : WaitId)
        → Legal (floor_shape p) now.channels → acts_of k now.channels ≡ channel_acts_in book → Runs p k now book x
        → wait_of x.stage ≡ Some w → w.channel < length (floor_shape p) }
{}

/// The Job of a coroutine that noted something was attached, except for the root's; if it was attached as cancelled, or is lazy and was
/// never started, the first note is that it was seen Cancelling.
pub fn a_coroutine_begins_as_it_was_attached()
    ensures { (p : Program) (k : ℕ) (now : Moment) (book : List Item) (x : Config)
        → LegalJobs (job_shape p) now.jobs → k ≢ 0 → book ≢ [] → Runs p k now book x → BeginsAsAttached k now.jobs book }
{}
