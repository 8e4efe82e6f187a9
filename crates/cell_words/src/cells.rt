//! The words of cells and of waits, as steps on them.
ghost use Rattle.std.specs.Prelude.{◌≡◌, ◌<◌, ◌+◌, ◌*◌, length};
ghost use Rattle.channel_model.specs.Channels.{kind_at, places_at};
ghost use Rattle.word_rules.specs.Codes.{packed_cell, packed_wait, IsNarrowCell, IsNarrowWait};
ghost use Rattle.word_rules.specs.Words.{number, IsCell};
ghost use Rattle.cell_words.specs.Hubs.{shape_of, seen_by, IsOwn};
ghost use Rattle.cell_words.specs.Seen.{Sees};
ghost use Rattle.cell_words.specs.Answers.{IsNumber, IsCellWord, IsNumberedCell, IsNumberedWait, MayTurn, CellAnswer, WaitAnswer};

use crate::hub::Hub;
use crate::pass::Pass;
use crate::steps::{exchange_word, load_word};
use channel_model::{Entry, Kind};
use co_base::{ChannelId, Place, Tag};
use word_rules::{CellWord, WaitWord};

/// The number of a cell.
pub(crate) fn number_of(hub: &Hub, c: ChannelId, place: Place) -> usize
    requires { IsCell (shape_of hub.now) c place }
    ensures { result ≡ number (shape_of hub.now) c place }
{
    hub.firsts[c as usize] as usize + place as usize
}

/// How many places the channel has.
pub fn places_of(hub: &Hub, c: ChannelId) -> Place
    requires { c < length (shape_of hub.now) }
    ensures { result ≡ places_at (shape_of hub.now) c }
{
    hub.kinds[c as usize].1
}

/// How the channel keeps elements.
pub fn kind_of(hub: &Hub, c: ChannelId) -> Kind
    requires { c < length (shape_of hub.now) }
    ensures { result ≡ kind_at (shape_of hub.now) c }
{
    hub.kinds[c as usize].0
}

/// The word of a cell, by the cell's number.
#[inline(always)]
pub(crate) fn load_numbered_cell(hub: &Hub, pass: &mut Pass, who: Tag, cell: usize) -> CellWord
    requires own { IsOwn hub.now pass.old who }
    requires number { IsNumber (shape_of hub.now) cell }
    ensures own { IsOwn hub.now pass.new who }
    ensures sees { Sees (seen_by pass.old) (seen_by pass.new) }
    ensures word { IsNumberedCell (shape_of hub.now) cell (seen_by pass.new).seen result }
{
    let number = load_word(hub, pass, who, 2 * cell);
    match CellWord::unpack(number) {
        Some(word) => word,
        None => unreachable!(),
    }
}

/// The word of a cell.
#[inline(always)]
pub fn load_cell(hub: &Hub, pass: &mut Pass, who: Tag, c: ChannelId, place: Place) -> CellWord
    requires own { IsOwn hub.now pass.old who }
    requires at { IsCell (shape_of hub.now) c place }
    ensures own { IsOwn hub.now pass.new who }
    ensures sees { Sees (seen_by pass.old) (seen_by pass.new) }
    ensures word { IsCellWord (shape_of hub.now) c place (seen_by pass.new).seen result }
{
    let cell = number_of(hub, c, place);
    load_numbered_cell(hub, pass, who, cell)
}

/// The word of the wait that began at the cell of this number.
pub(crate) fn load_wait(hub: &Hub, pass: &mut Pass, who: Tag, cell: usize) -> WaitWord
    requires own { IsOwn hub.now pass.old who }
    requires number { IsNumber (shape_of hub.now) cell }
    ensures own { IsOwn hub.now pass.new who }
    ensures sees { Sees (seen_by pass.old) (seen_by pass.new) }
    ensures word { IsNumberedWait (shape_of hub.now) cell (seen_by pass.new).seen result }
{
    let number = load_word(hub, pass, who, 2 * cell + 1);
    match WaitWord::unpack(number) {
        Some(word) => word,
        None => unreachable!(),
    }
}

/// Makes the entry by turning a cell from `old` into `new`; or the word that was found instead.
#[inline(always)]
pub(crate) fn exchange_cell(
    hub: &Hub,
    pass: &mut Pass,
    who: Tag,
    c: ChannelId,
    place: Place,
    old: CellWord,
    new: CellWord,
    entry: &Entry,
) -> Option<CellWord>
    requires own { IsOwn hub.now pass.old who }
    requires at { IsCell (shape_of hub.now) c place }
    requires narrow { IsNarrowCell old × IsNarrowCell new }
    requires may { MayTurn (shape_of hub.now)
        (2 * number (shape_of hub.now) c place) (packed_cell old) (packed_cell new) entry.now (seen_by pass.old) }
    ensures own { IsOwn hub.now pass.new who }
    ensures told { CellAnswer (shape_of hub.now) c place old entry.now (seen_by pass.old) (seen_by pass.new) result }
{
    let word = 2 * number_of(hub, c, place);
    let number = old.pack();
    let found = exchange_word(hub, pass, who, word, number, new.pack(), entry);
    if found == number {
        return None;
    }
    match CellWord::unpack(found) {
        Some(word) => Some(word),
        None => unreachable!(),
    }
}

/// Makes the entry by turning the wait that began at the cell of this number from `old` into `new`; or the word that was found
/// instead.
#[inline(always)]
pub(crate) fn exchange_wait(
    hub: &Hub,
    pass: &mut Pass,
    who: Tag,
    cell: usize,
    old: WaitWord,
    new: WaitWord,
    entry: &Entry,
) -> Option<WaitWord>
    requires own { IsOwn hub.now pass.old who }
    requires number { IsNumber (shape_of hub.now) cell }
    requires narrow { IsNarrowWait old × IsNarrowWait new }
    requires may { MayTurn (shape_of hub.now) (2 * cell + 1) (packed_wait old) (packed_wait new) entry.now (seen_by pass.old) }
    ensures own { IsOwn hub.now pass.new who }
    ensures told { WaitAnswer (shape_of hub.now) cell old entry.now (seen_by pass.old) (seen_by pass.new) result }
{
    let word = 2 * cell + 1;
    let number = old.pack();
    let found = exchange_word(hub, pass, who, word, number, new.pack(), entry);
    if found == number {
        return None;
    }
    match WaitWord::unpack(found) {
        Some(word) => Some(word),
        None => unreachable!(),
    }
}
