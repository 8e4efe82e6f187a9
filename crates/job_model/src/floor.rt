//! The one contract between Jobs and all above.

ghost use Rattle.std.specs.Prelude.{◌≡◌, ◌≢◌, ◌<◌, true, OnOk, OnErr};
ghost use Rattle.job_model.specs.Trees.{IsShape};
ghost use Rattle.job_model.specs.Needs.{MayEndBody, MayTell, Holds};
ghost use Rattle.job_model.specs.Histories.{replay, Legal};
ghost use Rattle.job_model.specs.Floors.{Floor, HasRoom, MayCall, HasClaims};
ghost use Rattle.job_model.specs.Answers.{AttachAnswer, StartAnswer, EndBodyAnswer, CancelAnswer, FinishAnswer, GoneAnswer, LookAnswer, LinkAnswer};

use crate::acts::{Cause, End, JobKind, JobState, Reason};
use co_base::{Memory, Row, Tag, Value};

/// A new child: its row, and whether it is Cancelling at once.
#[derive(Clone, Copy, PartialEq)]
pub struct Attached {
    pub row: Row,
    pub cancelled: bool,
}

/// Why no child was attached.
#[derive(Clone, Copy, PartialEq)]
pub enum AttachError {
    /// All rows for scopes are claimed.
    NoRow,
    /// The coroutine's row is claimed.
    Used,
    /// The parent has ended. The row that was claimed for the child stays claimed, and is never attached.
    ParentEnded,
}

/// What is left to do for a Job whose body ended, or whose child is gone.
#[derive(Clone, Copy, PartialEq)]
pub enum Ended {
    /// Its Finish.
    Owes,
    /// Nothing yet.
    Waits,
}

/// What a cancel came to.
#[derive(Clone, Copy, PartialEq)]
pub enum CancelledNow {
    Now,
    /// The Job was Cancelling or ended before.
    Already,
}

/// What the end of a Job came to.
#[derive(Clone, Copy, PartialEq)]
pub enum Finished {
    Now(End),
    /// The Job had ended.
    Already,
    /// Its body had not ended, or a child of it lived.
    NotYet,
}

/// A Job at one moment.
#[derive(Clone, Copy, PartialEq)]
pub struct JobView {
    pub state: JobState,
    pub kind: JobKind,
    pub cause: Cause,
    pub body_ended: bool,
    /// How many children were not told gone.
    pub living: u16,
    /// The newest child, whether it lives or not.
    pub first_child: Option<Row>,
    /// The result in Completing and Completed, else 0.
    pub value: Value,
}

/// Where a Job stands in the tree.
#[derive(Clone, Copy, PartialEq)]
pub struct Link {
    pub parent: Row,
    /// The child of the same parent that was attached before it.
    pub next: Option<Row>,
    pub tag: Tag,
}

/// A floor of Jobs, seen as what its callers have seen of it.
///
/// The row of a coroutine's Job is its tag; scopes draw the rows after the last coroutine's. Row 0 is the root,
/// attached and Active from the start. Each call makes at most one entry of its caller, and needs room for it.
/// Between two calls of one caller, and within a call, others may make entries too, unless the floor is alone. An
/// answer without an entry speaks of a moment of its call.
pub trait JobFloor {
    ghost view: { Self → Floor };

    /// What tells one floor from another, and no call changes. No value of it is made.
    type Anchor;

    ghost anchor: { Self → Self.Anchor };

    /// Makes room for so many entries.
    fn room(&mut self, n: u32) -> Result<(), Memory>
        ensures anchor { anchor self.new ≡ anchor self.old }
        ensures ok { OnOk result (HasRoom n (view self.old) (view self.new)) }
        ensures err { OnErr result (view self.new ≡ view self.old) };

    /// How many rows there are.
    fn rows(&self) -> u16
        ensures { result ≡ (view self.now).shape.rows };

    /// Claims a row, and attaches it as the newest child of the parent: the row of the tag, or for a scope one that
    /// no scope has claimed.
    fn attach(
        &mut self,
        who: Tag,
        parent: Row,
        kind: JobKind,
        tag: Tag,
    ) -> Result<Attached, AttachError>
        requires can { MayCall who parent (view self.old) }
        requires room { 0 < (view self.old).spare }
        requires tag { tag < (view self.old).shape.coroutines }
        requires scope { kind.scoped ≡ true → tag ≡ who }
        ensures anchor { anchor self.new ≡ anchor self.old }
        ensures answer { AttachAnswer who parent kind tag (view self.old) (view self.new) result };

    /// Starts the Job, if it is New.
    fn start(&mut self, who: Tag, row: Row) -> bool
        requires can { MayCall who row (view self.old) }
        requires room { 0 < (view self.old).spare }
        ensures anchor { anchor self.new ≡ anchor self.old }
        ensures answer { StartAnswer who row (view self.old) (view self.new) result };

    /// Ends the body of the caller's own Job.
    fn end_body(&mut self, who: Tag, row: Row, value: Value) -> Ended
        requires can { MayCall who row (view self.old) }
        requires room { 0 < (view self.old).spare }
        requires own { MayEndBody who (replay (view self.old).seen row) }
        ensures anchor { anchor self.new ≡ anchor self.old }
        ensures answer { EndBodyAnswer who row value (view self.old) (view self.new) result };

    /// Cancels the Job alone, where it is not Cancelling or ended, for a reason that was seen to hold.
    fn cancel_one(&mut self, who: Tag, row: Row, reason: Reason) -> CancelledNow
        requires can { MayCall who row (view self.old) }
        requires room { 0 < (view self.old).spare }
        requires reason { Holds (view self.old).shape (replay (view self.old).seen) who row reason }
        ensures anchor { anchor self.new ≡ anchor self.old }
        ensures answer { CancelAnswer who row reason (view self.old) (view self.new) result };

    /// Ends the Job, if its body has ended and none of its children lives.
    fn finish(&mut self, who: Tag, row: Row) -> Finished
        requires can { MayCall who row (view self.old) }
        requires room { 0 < (view self.old).spare }
        ensures anchor { anchor self.new ≡ anchor self.old }
        ensures answer { FinishAnswer who row (view self.old) (view self.new) result };

    /// Tells the parent of a Job that the caller finished that it is gone.
    fn gone(&mut self, who: Tag, row: Row) -> Ended
        requires can { MayCall who row (view self.old) }
        requires room { 0 < (view self.old).spare }
        requires untold { MayTell who row (replay (view self.old).seen) }
        ensures anchor { anchor self.new ≡ anchor self.old }
        ensures answer { GoneAnswer who row (view self.old) (view self.new) result };

    /// The Job of a row, if it is attached. Makes no entry.
    fn look(&mut self, who: Tag, row: Row) -> Option<JobView>
        requires caller { (view self.old).callers who ≡ true }
        requires row { row < (view self.old).shape.rows }
        ensures anchor { anchor self.new ≡ anchor self.old }
        ensures answer { LookAnswer who row (view self.old) (view self.new) result };

    /// Where a Job stands in the tree. Makes no entry.
    fn link(&mut self, who: Tag, row: Row) -> Link
        requires can { MayCall who row (view self.old) }
        requires child { row ≢ 0 }
        ensures anchor { anchor self.new ≡ anchor self.old }
        ensures answer { LinkAnswer who row (view self.old) (view self.new) result };

    ghost shaped: { (s : Self) → IsShape (view s).shape };

    ghost legal: { (s : Self) → Legal (view s).shape (view s).seen };

    ghost claimed: { (s : Self) → HasClaims (view s) };
}
