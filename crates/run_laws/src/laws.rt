//! What follows from the books of a run before it is known whether it rests.

ghost use Rattle.std.specs.Prelude.{◌≡◌, ℕ, List, false, true};
ghost use Rattle.std.specs.List.{All, list_any};
ghost use mathlib.Core.List.{IsPrefix};
ghost use Rattle.channel_model.specs.declared.acts.Entry.{Entry};
ghost use Rattle.channel_model.specs.Floors.{Floor as ChannelFloor};
ghost use Rattle.channel_model.specs.Histories.{Legal};
ghost use Rattle.job_model.specs.declared.acts.JobEntry.{JobEntry};
ghost use Rattle.job_model.specs.Floors.{Floor};
ghost use Rattle.job_model.specs.Histories.{Legal as LegalJobs};
ghost use Rattle.note_book.specs.declared.book.Item.{Item};
ghost use Rattle.call_meaning.specs.Endings.{ClosesAtOnce};
ghost use Rattle.call_meaning.specs.Stories.{Moment, IsBy};
ghost use Rattle.call_meaning.specs.Calls.{seen_by};
ghost use Rattle.script_grammar.specs.Programs.{Program};
ghost use Rattle.script_grammar.specs.WellFormed.{IsProgram};
ghost use Rattle.script_meaning.specs.Shapes.{base_of, floor_shape, job_shape};
ghost use Rattle.script_meaning.specs.Configs.{Config};
ghost use Rattle.script_meaning.specs.Books.{book_at, is_refusal, Runs};
ghost use Rattle.script_meaning.specs.Polls.{Frame, StandsOn, Polled};
ghost use Rattle.script_laws.specs.Owners.{AreClaimed, AllNoted};
ghost use Rattle.co_base.specs.Orders.{Side};
ghost use Rattle.run_laws.specs.Orders.{RunsAlong, StandsAlong};
ghost use Rattle.run_laws.specs.Parts.{AreParts};
ghost use Rattle.run_laws.specs.Refusals.{RefusedSo};
ghost use Rattle.run_laws.specs.Sights.{Sight};
ghost use Rattle.run_laws.specs.Ends.{IsBroughtTo, HaveOneOrder};

/// Right after each Finish that a coroutine noted stands the Close of its done channel, with its result.
pub fn a_done_channel_is_closed_at_once()
    ensures { (p : Program) (books : List (List Item)) (channels : List Entry) (jobs : List JobEntry)
        → IsProgram p → AreParts p books channels jobs → (k : ℕ) → ClosesAtOnce (base_of p) (book_at k books) }
{}

/// If all that was claimed and all that was done on channels is that of coroutines that stand on these floors, no book has a refusal.
pub fn no_refusal_stands_in_a_book()
    ensures { (p : Program) (c : ChannelFloor) (j : Floor) (f : Frame)
        → IsProgram p → Legal (floor_shape p) c.seen → LegalJobs (job_shape p) j.seen
        → StandsOn p c j f → AreClaimed p c j → AllNoted p c j → RefusedSo p j f
        → list_any (is_refusal (base_of p)) f.book ≡ false }
{}

/// A book that a coroutine may write along an order of both histories is one that it may write in them.
pub fn a_story_along_an_order_is_true()
    ensures { (p : Program) (k : ℕ) (now : Moment) (order : List Side) (book : List Item) (x : Config)
        → RunsAlong p k now order book x → Runs p k now book x }
{}

/// Who stands at a point of the order of both histories stands at a later one after a poll, and told its story along the order up to there.
pub fn a_poll_goes_on_along_the_order()
    ensures { (p : Program) (c : ChannelFloor) (after_channels : ChannelFloor) (j : Floor) (after_jobs : Floor) (f : Frame) (g : Frame)
        → j.joint ≡ true → StandsAlong p c j f → Polled p c after_channels j after_jobs f g → StandsAlong p after_channels after_jobs g }
{}

/// Who stands at a point told its story along the order of both whole histories, which begins with what its floor of channels knows of it.
pub fn a_story_up_to_a_point_is_along_the_whole_order()
    ensures { (p : Program) (c : ChannelFloor) (j : Floor) (f : Frame) (now : Moment) (order : List Side)
        → IsPrefix c.order order → IsBy (seen_by c j) now → StandsAlong p c j f → RunsAlong p f.tag now order f.book f.config }
{}

/// Coroutines whose floors were brought together told their stories along one order of both whole histories, if each of their floors knew
/// what it had seen of one.
pub fn coroutines_brought_together_have_one_order()
    ensures { (p : Program) (c : ChannelFloor) (j : Floor) (sights : List Sight)
        → All (IsBroughtTo p c j) sights → All (λ s. s.jobs.joint ≡ true) sights → HaveOneOrder p c j sights }
{}
