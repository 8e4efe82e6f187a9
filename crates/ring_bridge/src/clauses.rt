//! The clauses of a select over rings.
ghost use Rattle.std.specs.Prelude.{◌≡◌, ℕ, ◌<◌, Some};
ghost use Rattle.ring_channel.specs.Passes.{IsOf};

use crate::bells::Bells;
use ring_channel::{Ring, RingPass};

/// What a clause comes to.
#[derive(Drop)]
pub enum ClauseTurn<X> {
    /// It answers for good.
    Done(X),
    /// It stands on its ring: its tag is named once it may go on.
    Waits,
    /// It does not stand: others came first all the time.
    Again,
}

/// Which of two clauses answered.
#[derive(Clone, Copy, Debug, PartialEq)]
pub enum Chosen<X, Y> {
    First(X),
    Second(Y),
}

/// A clause of a select: it is tried, and stands where it has to wait; and it is left where another was chosen.
pub trait RingClause {
    /// What it answers for good.
    type Answer;

    ghost use Rattle.ring_bridge.specs.declared.clauses.ClauseTurn.{ClauseTurn};

    // Its passes have this tag.
    ghost tagged: { Self → ℕ → Type 0 };

    // What a turn comes to: before, after, and its answer.
    ghost turns: { Self → Self → ClauseTurn Self.Answer → Type 0 };

    // It waits no more: before and after.
    ghost leaves: { Self → Self → Type 0 };

    // It is a clause of the same rings, with the same tags.
    ghost stays: { Self → Self → Type 0 };

    /// Tries, and stands if it has to wait. Whom it names is woken.
    fn attempt(&mut self, bells: &Bells, tag: u32) -> ClauseTurn<Self::Answer>
        requires tag { tagged self.old tag × (tag < 64) }
        ensures tag { tagged self.new tag }
        ensures still { stays self.old self.new }
        ensures turn { turns self.old self.new result };

    /// Waits no more. Who is named in its place is woken.
    fn leave(&mut self, bells: &Bells, tag: u32)
        requires tag { tagged self.old tag × (tag < 64) }
        ensures tag { tagged self.new tag }
        ensures still { stays self.old self.new }
        ensures left { leaves self.old self.new };

    ghost stays_self: { (a : Self) → stays a a };

    ghost stays_on: { (a b c : Self) → stays a b → stays b c → stays a c };
}

/// Receives from a ring.
#[derive(Drop)]
pub struct ReceiveClause<'a, T> {
    pub(crate) ring: &'a Ring<T>,
    pub(crate) pass: RingPass<T>,
    pub ghost of: { IsOf ring.now pass },
}

impl<'a, T> ReceiveClause<'a, T> {
    /// A clause that did nothing yet.
    pub fn new(ring: &'a Ring<T>, pass: RingPass<T>) -> ReceiveClause<'a, T>
        requires of { IsOf ring.now pass }
        ensures new { (result.ring.now ≡ ring.now) × (result.pass ≡ pass) }
    {
        ReceiveClause { ring, pass }
    }

    /// The pass. After a select it waits no more.
    pub fn into_pass(self) -> RingPass<T>
        ensures pass { result ≡ self.entry.pass }
        ensures of { IsOf self.entry.ring.now result }
    {
        let ReceiveClause { ring: _, pass } = self;
        pass
    }
}

/// Sends a value to a ring.
#[derive(Drop)]
pub struct SendClause<'a, T> {
    pub(crate) ring: &'a Ring<T>,
    pub(crate) pass: RingPass<T>,
    pub(crate) value: Option<T>,
    pub ghost of: { IsOf ring.now pass },
}

impl<'a, T> SendClause<'a, T> {
    /// A clause that did nothing yet.
    pub fn new(ring: &'a Ring<T>, pass: RingPass<T>, value: T) -> SendClause<'a, T>
        requires of { IsOf ring.now pass }
        ensures new { (result.ring.now ≡ ring.now) × (result.pass ≡ pass) × (result.value ≡ Some value) }
    {
        SendClause {
            ring,
            pass,
            value: Some(value),
        }
    }

    /// The pass, which after a select waits no more; and the value, if the clause was not chosen.
    pub fn into_pass(self) -> (RingPass<T>, Option<T>)
        ensures parts { (result.0 ≡ self.entry.pass) × (result.1 ≡ self.entry.value) }
        ensures of { IsOf self.entry.ring.now result.0 }
    {
        let SendClause {
            ring: _,
            pass,
            value,
        } = self;
        (pass, value)
    }
}

/// Two clauses: the first is tried before the second. Either may be two clauses again.
#[derive(Drop)]
pub struct InOrder<A, B> {
    pub first: A,
    pub second: B,
}
