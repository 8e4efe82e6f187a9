//! Room for what a call may add, and whom it wakes.

ghost use Rattle.std.specs.Prelude.{◌≡◌, ◌≤◌, OnOk, OnErr};
ghost use Rattle.channel_model.specs.Floors.{HasRoom};

use channel_model::ChannelFloor;
use co_base::{Memory, Tag, Wakes};
use note_book::NoteBook;

/// Makes room for so many entries and as many notes.
pub fn make_room<F: ChannelFloor, B: NoteBook>(
    floor: &mut F,
    book: &mut B,
    n: u32,
) -> Result<(), Memory>
    ensures anchor { F.anchor floor.new ≡ F.anchor floor.old }
    ensures items { B.items book.new ≡ B.items book.old }
    ensures floor { OnOk result (HasRoom n (F.view floor.old) (F.view floor.new)) }
    ensures book { OnOk result (n ≤ B.spare book.new) }
    ensures same { OnErr result (F.view floor.new ≡ F.view floor.old) }
{
    if let Err(memory) = book.room(n) {
        return Err(memory);
    }
    if let Err(memory) = floor.room(n) {
        return Err(memory);
    }
    Ok(())
}

/// Wakes whoever waits with an element, if somebody does.
pub fn wake_some<W: Wakes>(wakes: &mut W, sender: Option<Tag>) {
    if let Some(sender) = sender {
        wakes.wake(sender);
    }
}
