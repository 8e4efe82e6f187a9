//! How what was told goes on to hold.

ghost use Rattle.std.specs.Prelude.{ℕ, List, ◌++◌};
ghost use Rattle.note_book.specs.declared.book.Item.{Item};
ghost use Rattle.channel_model.specs.Channels.{Shape};
ghost use Rattle.call_meaning.specs.Telling.{Told, items_in};
ghost use Rattle.call_meaning.specs.Stories.{Moment, IsBy, Story, IsTrue, story_of};

/// What was true is true of longer histories.
pub fn what_was_told_can_be_told_of_later()
    ensures { (shape : Shape) (k : ℕ) (now later : Moment) (items : List Item) (earlier : Moment) (told : List Told)
        → IsBy now later → IsTrue (story_of shape k now) items earlier told → IsTrue (story_of shape k later) items earlier told }
{}

/// What was true from a moment on is true from any earlier one on.
pub fn what_was_told_can_be_told_since_earlier()
    ensures { (s : Story) (items : List Item) (earliest earlier : Moment) (told : List Told)
        → IsBy earliest earlier → IsTrue s items earlier told → IsTrue s items earliest told }
{}

/// One call after another: the second tells of moments that are not before the histories at which the first returned.
pub fn what_was_told_goes_on()
    ensures { (shape : Shape) (k : ℕ) (between now : Moment) (items : List Item) (earlier : Moment) (xs ys : List Told)
        → IsBy earlier between → IsBy between now → IsTrue (story_of shape k between) items earlier xs
        → IsTrue (story_of shape k now) (items ++ items_in xs) between ys → IsTrue (story_of shape k now) items earlier (xs ++ ys) }
{}
