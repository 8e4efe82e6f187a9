//! The one contract between channels and all above.

ghost use Rattle.std.specs.Prelude.{◌≡◌, ◌<◌, true, false, OnOk, OnErr};
ghost use Rattle.channel_model.specs.Channels.{IsShape, kind_at, is_signal, suspends};
ghost use Rattle.channel_model.specs.Histories.{Legal};
ghost use Rattle.channel_model.specs.Floors.{Floor, HasRoom, MayCall};
ghost use Rattle.channel_model.specs.Answers.{OfferAnswer, TriedOfferAnswer, GotAnswer, TriedGotAnswer, CloseAnswer, WakeAnswer, VoidAnswer, DrainAnswer, LookAnswer, SettleAnswer, WithdrawAnswer, MarkAnswer, AdmitAnswer, TrimAnswer, SpurnAnswer, IsOwn, IsReady, HasPut, IsSeenClosed, IsSeenVoided};
ghost use Rattle.channel_model.specs.Registers.{MayRegister, RegisterOfferAnswer, RegisterReceiveAnswer};

use crate::acts::{Settled, Why};
use co_base::{ChannelId, Memory, Place, Tag, Value, WaitId};

/// What an offer came to. The places are those of the acts that were made.
#[derive(Clone, Copy, Debug, PartialEq, Eq)]
pub enum Offered {
    /// Handed to the first receiver, at its place; the coroutine is the receiver's.
    Handed(Place, Tag),
    Put(Place),
    /// The offer waits; its wait has the name of the channel and this place.
    Held(Place),
    Closed(Value),
    /// The channel has no place left.
    Spent,
}

/// What an offer that never waits came to.
#[derive(Clone, Copy, Debug, PartialEq, Eq)]
pub enum TriedOffer {
    Handed(Place, Tag),
    Put(Place),
    Full,
    Closed(Value),
    Spent,
}

/// What a receive came to.
#[derive(Clone, Copy, Debug, PartialEq, Eq)]
pub enum Got {
    /// The place and the element, and the coroutine of the sender that waited with it, if one did.
    Taken(Place, Value, Option<Tag>),
    /// The receive waits; its wait has the name of the channel and this place.
    Waiting(Place),
    Closed(Value),
    /// The channel has no place left.
    Spent,
}

/// What a receive that never waits came to.
#[derive(Clone, Copy, Debug, PartialEq, Eq)]
pub enum TriedGot {
    Taken(Place, Value, Option<Tag>),
    Empty,
    Closed(Value),
}

/// What the placing of a select's clause came to.
#[derive(Clone, Copy, Debug, PartialEq, Eq)]
pub enum Registered {
    /// The clause took this place, and stands there unless the select's wait was resolved meanwhile.
    Stands(Place),
    /// The other side stands at this place.
    Partner(Place),
    Closed(Value),
    Spent,
    /// The select's wait was resolved already.
    Resolved,
}

/// The channel was closed before, with this value.
#[derive(Clone, Copy, Debug, PartialEq, Eq)]
pub struct AlreadyClosed {
    pub v: Value,
}

/// What a withdraw came to.
#[derive(Clone, Copy, Debug, PartialEq, Eq)]
pub enum Withdrawn {
    /// Done; the coroutine is that of the wait.
    Done(Tag),
    /// The wait was resolved before.
    Late,
}

/// How far a wait is.
#[derive(Clone, Copy, Debug, PartialEq, Eq)]
pub enum WaitState {
    Standing,
    Resolved,
    Settled,
}

/// A floor of channels, seen as what its callers have seen of it.
///
/// Each call makes at most one entry of its caller, and needs room for it. Between two calls of one caller, and within a
/// call, others may make entries too, unless the floor is alone. An answer without an entry speaks of a moment
/// of its call.
pub trait ChannelFloor {
    ghost view: { Self → Floor };

    /// What tells one floor from another, and no call changes. No value of it is made.
    type Anchor;

    ghost anchor: { Self → Self.Anchor };

    /// Makes room for so many entries.
    fn room(&mut self, n: u32) -> Result<(), Memory>
        ensures anchor { anchor self.new ≡ anchor self.old }
        ensures ok { OnOk result (HasRoom n (view self.old) (view self.new)) }
        ensures err { OnErr result (view self.new ≡ view self.old) };

    /// Offers an element, and waits if the channel keeps no more.
    fn offer(&mut self, who: Tag, c: ChannelId, value: Value) -> Offered
        requires can { MayCall who c (view self.old) }
        requires room { 0 < (view self.old).spare }
        requires kind { is_signal (kind_at (view self.old).shape c) ≡ false }
        ensures anchor { anchor self.new ≡ anchor self.old }
        ensures answer { OfferAnswer who c value (view self.old) (view self.new) result };

    /// Offers an element as `offer` does, but never waits. `Full` comes only of a channel on which a send may wait.
    fn try_offer(&mut self, who: Tag, c: ChannelId, value: Value) -> TriedOffer
        requires can { MayCall who c (view self.old) }
        requires room { 0 < (view self.old).spare }
        requires kind { is_signal (kind_at (view self.old).shape c) ≡ false }
        ensures anchor { anchor self.new ≡ anchor self.old }
        ensures answer { TriedOfferAnswer who c value (view self.old) (view self.new) result };

    /// Receives the first offer, or waits for one.
    fn receive(&mut self, who: Tag, c: ChannelId) -> Got
        requires can { MayCall who c (view self.old) }
        requires room { 0 < (view self.old).spare }
        ensures anchor { anchor self.new ≡ anchor self.old }
        ensures answer { GotAnswer who c (view self.old) (view self.new) result };

    /// Receives the first offer, and never waits.
    fn try_receive(&mut self, who: Tag, c: ChannelId) -> TriedGot
        requires can { MayCall who c (view self.old) }
        requires room { 0 < (view self.old).spare }
        ensures anchor { anchor self.new ≡ anchor self.old }
        ensures answer { TriedGotAnswer who c (view self.old) (view self.new) result };

    /// Places a select's clause that offers an element. It waits even if the channel would keep the element, and hands
    /// it to nobody.
    ///
    /// `main` is the select's wait, or `None` where none of its clauses was placed yet: then a wait begins here, with the
    /// name of the channel and the place.
    fn register_offer(
        &mut self,
        who: Tag,
        main: Option<WaitId>,
        clause: u8,
        c: ChannelId,
        value: Value,
    ) -> Registered
        requires can { MayCall who c (view self.old) }
        requires room { 0 < (view self.old).spare }
        requires kind { suspends (kind_at (view self.old).shape c) ≡ true }
        requires joins { MayRegister who clause c main (view self.old) }
        ensures anchor { anchor self.new ≡ anchor self.old }
        ensures answer { RegisterOfferAnswer who main clause c value (view self.old) (view self.new) result };

    /// Places a select's clause that receives. It takes nothing; `main` is as in `register_offer`.
    fn register_receive(
        &mut self,
        who: Tag,
        main: Option<WaitId>,
        clause: u8,
        c: ChannelId,
    ) -> Registered
        requires can { MayCall who c (view self.old) }
        requires room { 0 < (view self.old).spare }
        requires joins { MayRegister who clause c main (view self.old) }
        ensures anchor { anchor self.new ≡ anchor self.old }
        ensures answer { RegisterReceiveAnswer who main clause c (view self.old) (view self.new) result };

    /// Closes the channel with a value. What stands there still stands, and no place is given out any more.
    fn close(&mut self, who: Tag, c: ChannelId, v: Value) -> Result<(), AlreadyClosed>
        requires can { MayCall who c (view self.old) }
        requires room { 0 < (view self.old).spare }
        ensures anchor { anchor self.new ≡ anchor self.old }
        ensures answer { CloseAnswer who c v (view self.old) (view self.new) result };

    /// Tells the first receiver of a channel that was seen closed: its place, and its coroutine.
    fn wake_closed(&mut self, who: Tag, c: ChannelId) -> Option<(Place, Tag)>
        requires can { MayCall who c (view self.old) }
        requires room { 0 < (view self.old).spare }
        requires closed { IsSeenClosed c (view self.old) }
        ensures anchor { anchor self.new ≡ anchor self.old }
        ensures answer { WakeAnswer who c (view self.old) (view self.new) result };

    /// Cancels a channel that was seen closed, unless it was cancelled before. What stands in its queue still stands.
    fn void(&mut self, who: Tag, c: ChannelId) -> bool
        requires can { MayCall who c (view self.old) }
        requires room { 0 < (view self.old).spare }
        requires closed { IsSeenClosed c (view self.old) }
        ensures anchor { anchor self.new ≡ anchor self.old }
        ensures answer { VoidAnswer who c (view self.old) (view self.new) result };

    /// Removes the first offer of a channel that was seen cancelled: its place and its element, and the coroutine that
    /// waited with it, if one did.
    fn drain(&mut self, who: Tag, c: ChannelId) -> Option<(Place, Value, Option<Tag>)>
        requires can { MayCall who c (view self.old) }
        requires room { 0 < (view self.old).spare }
        requires voided { IsSeenVoided c (view self.old) }
        ensures anchor { anchor self.new ≡ anchor self.old }
        ensures answer { DrainAnswer who c (view self.old) (view self.new) result };

    /// How far the caller's own wait is. Makes no entry.
    fn look(&mut self, who: Tag, w: WaitId) -> WaitState
        requires can { MayCall who w.channel (view self.old) }
        requires own { IsOwn who w (view self.old) }
        ensures anchor { anchor self.new ≡ anchor self.old }
        ensures answer { LookAnswer who w (view self.old) (view self.new) result };

    /// Ends the caller's own wait, which was seen resolved. `cancelled` says that its Job was cancelled before.
    fn settle(&mut self, who: Tag, w: WaitId, cancelled: bool) -> Settled
        requires can { MayCall who w.channel (view self.old) }
        requires room { 0 < (view self.old).spare }
        requires ready { IsReady who w (view self.old) }
        ensures anchor { anchor self.new ≡ anchor self.old }
        ensures answer { SettleAnswer who w cancelled (view self.old) (view self.new) result };

    /// Takes the caller's own wait back, wherever it stands, unless it was resolved before.
    fn withdraw(&mut self, who: Tag, w: WaitId, why: Why) -> Withdrawn
        requires can { MayCall who w.channel (view self.old) }
        requires room { 0 < (view self.old).spare }
        requires own { IsOwn who w (view self.old) }
        ensures anchor { anchor self.new ≡ anchor self.old }
        ensures answer { WithdrawAnswer who w why (view self.old) (view self.new) result };

    /// The place that the channel gives out next, above all that it gave out before. Makes no entry.
    fn mark(&mut self, who: Tag, c: ChannelId) -> Place
        requires can { MayCall who c (view self.old) }
        ensures anchor { anchor self.new ≡ anchor self.old }
        ensures answer { MarkAnswer who c (view self.old) (view self.new) result };

    /// Lets a held offer below the mark be kept, which has fewer offers before it than the channel keeps: its place, and
    /// the coroutine that waits with it.
    fn admit(&mut self, who: Tag, c: ChannelId, mark: Place) -> Option<(Place, Tag)>
        requires can { MayCall who c (view self.old) }
        requires room { 0 < (view self.old).spare }
        ensures anchor { anchor self.new ≡ anchor self.old }
        ensures answer { AdmitAnswer who c mark (view self.old) (view self.new) result };

    /// Drops the first offer of a channel that drops its oldest, if more stand up to the place that an own Put took
    /// than it keeps: its place, and its element. On a channel of another kind it answers `None`.
    fn trim(&mut self, who: Tag, c: ChannelId, mine: Place) -> Option<(Place, Value)>
        requires can { MayCall who c (view self.old) }
        requires room { 0 < (view self.old).spare }
        requires own { HasPut who c mine (view self.old) }
        ensures anchor { anchor self.new ≡ anchor self.old }
        ensures answer { TrimAnswer who c mine (view self.old) (view self.new) result };

    /// Removes the offer at the place that an own Put took, of a channel that does not keep its latest, if at least as many
    /// stand before it as the channel keeps: its element. On a channel of another kind it answers `None`.
    fn spurn(&mut self, who: Tag, c: ChannelId, mine: Place) -> Option<Value>
        requires can { MayCall who c (view self.old) }
        requires room { 0 < (view self.old).spare }
        requires own { HasPut who c mine (view self.old) }
        ensures anchor { anchor self.new ≡ anchor self.old }
        ensures answer { SpurnAnswer who c mine (view self.old) (view self.new) result };

    ghost legal: { (s : Self) → Legal (view s).shape (view s).seen };

    ghost shaped: { (s : Self) → IsShape (view s).shape };
}
