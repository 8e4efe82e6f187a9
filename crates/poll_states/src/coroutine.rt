//! A coroutine between two moves.

ghost use Rattle.std.specs.Prelude.{◌≡◌, ◌+◌, ◌^◌, ◌<◌, ◌++◌, ◌∷◌, [], vec_len, vec_capacity, IfOk};
ghost use Rattle.note_book.specs.declared.book.Item.TheVariants as item;
ghost use Rattle.job_model.specs.declared.acts.JobNote.TheVariants as known;
ghost use Rattle.script_meaning.specs.declared.stage.Stage.TheVariants.{Waiting, Unwinding};
ghost use Rattle.script_meaning.specs.Configs.{at_stage, at_line, next, set_row, named, operand, received, fresh};
ghost use Rattle.poll_states.specs.Frames.{config_of, IsInRun};

use crate::book::Book;
use crate::entered::Entered;
use co_base::{Memory, Row, Tag, Value, WaitId};
use job_model::JobNote;
use note_book::{Item, NoteBook};
use script_meaning::Stage;
use script_reader::{Operand, Script};
use std::alloc::Global;

/// A coroutine between two moves.
#[derive(Drop)]
pub struct Coroutine<B> {
    pub(crate) tag: Tag,
    /// The line at which it is, numbered from 0 in its block.
    pub(crate) line: usize,
    pub(crate) stage: Stage,
    /// What it has entered and not left, the innermost last.
    pub(crate) entered: Vec<Entered>,
    /// What its Job will have as its result.
    pub(crate) result: Value,
    /// The rows of the Jobs that its lines named, in the order of the names.
    pub(crate) rows: Vec<Row>,
    /// The tag of what it launches next.
    pub(crate) free: u32,
    /// The element that it received last.
    pub(crate) it: Value,
    /// All elements that it received, added up modulo 2^32.
    pub(crate) sum: Value,
    pub(crate) book: B,
}

impl<B: Book> Coroutine<B> {
    /// A coroutine of the script that has not begun. What it launches has the tags after its own.
    pub(crate) fn new(alloc: Global, script: &Script, tag: Tag) -> Result<Coroutine<B>, Memory>
        requires tag { IsInRun script.now tag }
        ensures tag { IfOk result (λ frame. frame.tag ≡ tag) }
        ensures config { IfOk result (λ frame. config_of frame ≡ fresh tag) }
        ensures book { IfOk result (λ frame. B.items frame.book ≡ []) }
    {
        Ok(Coroutine {
            tag,
            line: 0,
            stage: Stage::Fresh,
            entered: Vec::new(alloc),
            result: 0,
            rows: Vec::new(alloc),
            free: u32::from(tag) + 1,
            it: 0,
            sum: 0,
            book: B::empty(alloc)?,
        })
    }
}

impl<B: NoteBook> Coroutine<B> {
    /// The number that an operand stands for.
    pub(crate) fn value_of(&self, given: Operand) -> Value
        ensures { result ≡ operand (config_of self.now) given }
    {
        match given {
            Operand::Number(value) => value,
            Operand::It => self.it,
            Operand::Sum => self.sum,
        }
    }

    /// Receives an element.
    pub(crate) fn take_in(&mut self, value: Value)
        ensures tag { self.new.tag ≡ self.old.tag }
        ensures config { config_of self.new ≡ received value (config_of self.old) }
        ensures entered { self.new.entered ≡ self.old.entered }
        ensures items { B.items self.new.book ≡ B.items self.old.book }
    {
        self.it = value;
        self.sum = self.sum.wrapping_add(value);
    }

    /// Waits at its line.
    pub(crate) fn wait_for(&mut self, w: WaitId)
        ensures tag { self.new.tag ≡ self.old.tag }
        ensures config { config_of self.new ≡ at_stage (Waiting w) (config_of self.old) }
        ensures items { B.items self.new.book ≡ B.items self.old.book }
    {
        self.stage = Stage::Waiting(w);
    }

    /// Goes on with this line.
    pub(crate) fn at_line(&mut self, line: usize)
        ensures tag { self.new.tag ≡ self.old.tag }
        ensures config { config_of self.new ≡ at_line line (config_of self.old) }
        ensures items { B.items self.new.book ≡ B.items self.old.book }
    {
        self.stage = Stage::Running;
        self.line = line;
    }

    /// Goes on with the next line.
    pub(crate) fn next_line(&mut self)
        requires { self.old.line < usize.MAX }
        ensures tag { self.new.tag ≡ self.old.tag }
        ensures config { config_of self.new ≡ next (config_of self.old) }
        ensures items { B.items self.new.book ≡ B.items self.old.book }
    {
        self.stage = Stage::Running;
        self.line += 1;
    }

    /// Notes that this Job was seen Cancelling, and unwinds. Takes no memory.
    pub(crate) fn see_cancelling(&mut self, row: Row)
        requires { 0 < B.spare self.old.book }
        ensures tag { self.new.tag ≡ self.old.tag }
        ensures config { config_of self.new ≡ at_stage (Unwinding None) (config_of self.old) }
        ensures items { B.items self.new.book ≡ B.items self.old.book ++ item.Job (known.Saw row) ∷ [] }
    {
        self.book.note(Item::Job(JobNote::Saw { row }));
        self.stage = Stage::Unwinding(None);
    }

    /// Breaks the body off by its own failure.
    pub(crate) fn fail(&mut self)
        ensures tag { self.new.tag ≡ self.old.tag }
        ensures config { config_of self.new ≡ at_stage (Unwinding (Some self.old.tag)) (config_of self.old) }
        ensures items { B.items self.new.book ≡ B.items self.old.book }
    {
        self.stage = Stage::Unwinding(Some(self.tag));
    }

    /// Gives the row of the next tag this name. Takes no memory.
    fn name_row(&mut self, job: u16)
        requires free { self.old.free < 2 ^ 16 }
        requires room { vec_len self.old.rows < vec_capacity self.old.rows }
        ensures tag { self.new.tag ≡ self.old.tag }
        ensures config { config_of self.new ≡ record (config_of self.old) { rows = set_row job self.old.free self.old.rows.items } }
        ensures items { B.items self.new.book ≡ B.items self.old.book }
    {
        let row = self.free as Row;
        if (job as usize) < self.rows.len() {
            self.rows[job as usize] = row;
        } else {
            self.rows.push_reserved(row);
        }
    }

    /// Gives the row of a launched Job its name, if it gets one, and passes over the tags of its instance. Takes no memory.
    pub(crate) fn skip_launched(&mut self, job: Option<u16>, size: u16)
        requires line { self.old.line < usize.MAX }
        requires free { self.old.free + size < 2 ^ 16 }
        requires room { vec_len self.old.rows < vec_capacity self.old.rows }
        ensures tag { self.new.tag ≡ self.old.tag }
        ensures config { config_of self.new
            ≡ next (record (config_of self.old) { rows = named job self.old.free self.old.rows.items; free = self.old.free + size }) }
        ensures items { B.items self.new.book ≡ B.items self.old.book }
    {
        if let Some(job) = job {
            self.name_row(job);
        }
        self.free += u32::from(size);
        self.next_line();
    }
}
