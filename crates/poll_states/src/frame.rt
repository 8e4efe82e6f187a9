//! A coroutine as engines keep it, and what is left of a run.

ghost use Rattle.std.specs.Prelude.{◌≡◌, ◌<◌, ◌∷◌, [], length, IfOk};
ghost use Rattle.script_meaning.specs.Configs.{fresh};
ghost use Rattle.poll_states.specs.Frames.{config_of, items_of, acts_in, IsInRun};

use crate::book::Book;
use crate::coroutine::Coroutine;
use channel_model::ChannelNote;
use co_base::{Memory, Tag};
use job_model::{End, JobNote};
use note_book::{Item, Notes};
use script_reader::Script;
use std::alloc::Global;
use std::marker::Model;

/// A coroutine between two polls. Contracts see it with its notes in place of its book, whatever book it has.
#[derive(Drop)]
pub struct Frame<B: Book> {
    pub(crate) coroutine: Coroutine<B>,
}

impl<B: Book> Model for Frame<B> {
    ghost use Rattle.poll_states.specs.Frames.{Frame, noted};

    ghost Value = { Frame };

    ghost view = { λ f. noted B.items f.coroutine };
}

/// What is left of a run: the books in order of their tags, and how the root's Job ended, if it did.
#[derive(Drop)]
pub struct Done<B> {
    pub books: Vec<B>,
    /// Whether the root's Job has not ended.
    pub idle: bool,
    pub end: Option<End>,
}

impl<B: Book> Frame<B> {
    /// A coroutine of the script that has not begun. What it launches has the tags after its own.
    pub fn new(alloc: Global, script: &Script, tag: Tag) -> Result<Frame<B>, Memory>
        requires tag { IsInRun script.now tag }
        ensures tag { IfOk result (λ frame. frame.tag ≡ tag) }
        ensures config { IfOk result (λ frame. config_of frame ≡ fresh tag) }
        ensures book { IfOk result (λ frame. items_of frame ≡ []) }
    {
        let coroutine = Coroutine::new(alloc, script, tag)?;
        Ok(Frame { coroutine })
    }

    /// The coroutine's tag.
    pub fn tag(&self) -> Tag
        ensures { result ≡ self.now.tag }
    {
        self.coroutine.tag
    }

    /// How many notes its book has. A poll noted something exactly if this rose.
    pub fn notes(&self) -> u64
        ensures { result ≡ length (items_of self.now) }
    {
        self.coroutine.book.count()
    }

    /// The book alone. Takes no memory.
    pub fn into_book(self) -> B
        ensures { B.items result ≡ items_of self }
    {
        let Frame { coroutine } = self;
        let Coroutine {
            tag: _,
            line: _,
            stage: _,
            entered: _,
            result: _,
            rows: _,
            free: _,
            it: _,
            sum: _,
            book,
        } = coroutine;
        book
    }
}

/// 1 for the note of an act, and 0 for any other.
fn acts_of_item(item: &Item) -> u64
    ensures { result ≡ acts_in (item.now ∷ []) }
{
    match item {
        Item::Channel(ChannelNote::Made(_)) | Item::Job(JobNote::Made(_)) => 1,
        Item::Channel(_) | Item::Job(_) => 0,
    }
}

/// How many of so many notes are of acts.
fn count_acts(items: &[Item], notes: usize) -> u64
    requires notes { notes ≡ length items.now }
    ensures { result ≡ acts_in items.now }
{
    let mut acts = 0u64;
    for item in items {
        acts += acts_of_item(item);
    }
    acts
}

impl Frame<Notes> {
    /// How many acts its book has, as the models count them: entries that it made, and not what it saw. A poll added an entry exactly
    /// where this rose.
    pub fn acts(&self) -> u64
        ensures { result ≡ acts_in (items_of self.now) }
    {
        let items = self.coroutine.book.items();
        count_acts(items, items.len())
    }
}
