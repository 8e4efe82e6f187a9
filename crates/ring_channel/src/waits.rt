//! One function for each kind of step about those who wait.
ghost use Rattle.std.specs.Prelude.{◌≡◌, ℕ, ◌+◌, ◌-◌, ◌*◌, ◌/◌, ◌%◌, ◌^◌, ◌==◌, ◌<◌, ◌≤◌, ltb, leb, true, [], ◌∷◌};
ghost use Rattle.std.specs.Int.{bit_at};
ghost use Rattle.ring_channel.specs.declared.act.RingSide.{RingSide as Side};
ghost use Rattle.ring_channel.specs.declared.act.RingSide.TheVariants.{Receive, Send};
ghost use Rattle.ring_channel.specs.declared.act.WaitStep.TheVariants.{Stand, Leave, Call, CallAll, NoneWaits, NothingThere, GoesOn};
ghost use Rattle.ring_channel.specs.Rings.{cleared};
ghost use Rattle.ring_channel.specs.Tables.{wait_word as word_of};
ghost use Rattle.ring_channel.specs.Seen.{IsTable, IsSeated, own_tag, now_in};
ghost use Rattle.ring_channel.specs.Answers.{AtMoment};
ghost use Rattle.ring_channel.specs.Served.{MayGo};
ghost use Rattle.ring_channel.specs.Looks.{Does, Made, MadeIf, seen_if};

use crate::act::{RingEntry, RingSide};
use crate::rule::{RingSeat, RingWords};
use crate::steps::{SLOTS, TAIL};
use atomic_table::Play;
use std::marker::PhantomData;
use worded::View;

/// The word of who waits on a side.
pub(crate) fn wait_word(side: RingSide) -> usize
    ensures word { result ≡ word_of side }
{
    match side {
        RingSide::Receive => 8,
        RingSide::Send => 24,
    }
}

/// The bit of a tag.
#[tactic(auto, using(crate::proofs::Bits::one_bit))]
pub(crate) fn bit_of(tag: u32) -> u64
    requires few { tag < 64 }
    ensures bit { result ≡ 2 ^ tag }
{
    1u64 << tag
}

// It waits.
struct Standing<T> {
    marker: PhantomData<T>,
}

impl<T> Play<Option<T>, View<RingEntry<T>, u32>> for Standing<T> {
    ghost then = { λ s m n r. (d : Side) → s.word ≡ word_of d → s.first ≡ 2 ^ own_tag m.0 → Made m.0.key s.word n d Stand m r };
}

/// The bit of the own tag is set.
pub(crate) fn stand<T>(words: &RingWords<T>, seat: &mut RingSeat<T>, side: RingSide, tag: u32)
    requires table { IsTable words.now.table_id words.now.key × (seat.old.table_id ≡ words.now.table_id) }
    requires seat { IsSeated words.now.key seat.old.me }
    requires tag { (tag ≡ own_tag seat.old.me.0) × (tag < 64) }
    ensures same { (seat.new.table_id ≡ seat.old.table_id) × (seat.new.id ≡ seat.old.id) }
    ensures seat { IsSeated words.now.key seat.new.me }
    ensures did { Does words.now.key side (Stand ∷ []) seat.old.me seat.new.me }
{
    words.fetch_or::<Standing<T>>(seat, wait_word(side), bit_of(tag));
}

// It waits no more.
struct Leaving<T> {
    marker: PhantomData<T>,
}

impl<T> Play<Option<T>, View<RingEntry<T>, u32>> for Leaving<T> {
    ghost then = { λ s m n r. (d : Side) → s.word ≡ word_of d → s.first ≡ 2 ^ 64 - 1 - 2 ^ own_tag m.0
        → Made m.0.key s.word n d Leave m r };
}

/// The bit of the own tag is cleared. Returns the word as it was.
pub(crate) fn leave<T>(
    words: &RingWords<T>,
    seat: &mut RingSeat<T>,
    side: RingSide,
    tag: u32,
) -> u64
    requires table { IsTable words.now.table_id words.now.key × (seat.old.table_id ≡ words.now.table_id) }
    requires seat { IsSeated words.now.key seat.old.me }
    requires tag { (tag ≡ own_tag seat.old.me.0) × (tag < 64) }
    ensures same { (seat.new.table_id ≡ seat.old.table_id) × (seat.new.id ≡ seat.old.id) }
    ensures seat { IsSeated words.now.key seat.new.me }
    ensures did { Does words.now.key side (Leave ∷ []) seat.old.me seat.new.me }
{
    words.fetch_and::<Leaving<T>>(seat, wait_word(side), u64::MAX - bit_of(tag))
}

// All who waited are called.
struct CallingAll<T> {
    marker: PhantomData<T>,
}

impl<T> Play<Option<T>, View<RingEntry<T>, u32>> for CallingAll<T> {
    ghost then = { λ s m n r. (d : Side) → s.word ≡ word_of d → s.first ≡ 0 → Made m.0.key s.word n d CallAll m r };
}

/// All who waited are called. Returns the word as it was.
pub(crate) fn call_all<T>(words: &RingWords<T>, seat: &mut RingSeat<T>, side: RingSide) -> u64
    requires table { IsTable words.now.table_id words.now.key × (seat.old.table_id ≡ words.now.table_id) }
    requires seat { IsSeated words.now.key seat.old.me }
    ensures same { (seat.new.table_id ≡ seat.old.table_id) × (seat.new.id ≡ seat.old.id) }
    ensures seat { IsSeated words.now.key seat.new.me }
    ensures did { Does words.now.key side (CallAll ∷ []) seat.old.me seat.new.me }
    ensures found { AtMoment words.now.key (λ s. (s.lines side).mask ≡ result) seat.old.me.0 seat.new.me.0 }
{
    words.swap::<CallingAll<T>>(seat, wait_word(side), 0)
}

// One who waited is called; or the word is another.
struct Calling<T> {
    marker: PhantomData<T>,
}

impl<T> Play<Option<T>, View<RingEntry<T>, u32>> for Calling<T> {
    ghost then = { λ s m n r. (d : Side) (t : ℕ) → s.word ≡ word_of d → t < 64 → bit_at s.first t ≡ 1 → s.second ≡ cleared t s.first
        → MadeIf (n == s.first) m.0.key s.word n d (Call t) m r };
}

/// Calls the pass of this tag, if the word is still the same. Returns the word as it was.
pub(crate) fn call<T>(
    words: &RingWords<T>,
    seat: &mut RingSeat<T>,
    side: RingSide,
    mask: u64,
    tag: u32,
) -> u64
    requires table { IsTable words.now.table_id words.now.key × (seat.old.table_id ≡ words.now.table_id) }
    requires seat { IsSeated words.now.key seat.old.me }
    requires waits { (tag < 64) × (bit_at mask tag ≡ 1) }
    ensures same { (seat.new.table_id ≡ seat.old.table_id) × (seat.new.id ≡ seat.old.id) }
    ensures seat { IsSeated words.now.key seat.new.me }
    ensures did { Does words.now.key side (seen_if (result == mask) (Call tag)) seat.old.me seat.new.me }
{
    let others = mask & (u64::MAX - bit_of(tag));
    words.compare_exchange::<Calling<T>>(seat, wait_word(side), mask, others)
}

// It was seen that nobody waits; or one waits.
struct Alone<T> {
    marker: PhantomData<T>,
}

impl<T> Play<Option<T>, View<RingEntry<T>, u32>> for Alone<T> {
    ghost then = { λ s m n r. (d : Side) → s.word ≡ word_of d → MadeIf (n == 0) m.0.key s.word n d NoneWaits m r };
}

/// Looks who waits.
pub(crate) fn look_who<T>(words: &RingWords<T>, seat: &mut RingSeat<T>, side: RingSide) -> u64
    requires table { IsTable words.now.table_id words.now.key × (seat.old.table_id ≡ words.now.table_id) }
    requires seat { IsSeated words.now.key seat.old.me }
    ensures same { (seat.new.table_id ≡ seat.old.table_id) × (seat.new.id ≡ seat.old.id) }
    ensures seat { IsSeated words.now.key seat.new.me }
    ensures did { Does words.now.key side (seen_if (result == 0) NoneWaits) seat.old.me seat.new.me }
{
    words.load::<Alone<T>>(seat, wait_word(side))
}

// The ring is open, as was seen for those who wait to receive; or it is closed.
struct OpenToReceive<T> {
    marker: PhantomData<T>,
}

impl<T> Play<Option<T>, View<RingEntry<T>, u32>> for OpenToReceive<T> {
    ghost then = { λ s m n r. MadeIf (n % 2 == 0) m.0.key s.word n Receive GoesOn m r };
}

/// Looks whether the ring is open, for those who wait to receive. Returns the tail.
pub(crate) fn look_open_to_receive<T>(words: &RingWords<T>, seat: &mut RingSeat<T>) -> u64
    requires table { IsTable words.now.table_id words.now.key × (seat.old.table_id ≡ words.now.table_id) }
    requires seat { IsSeated words.now.key seat.old.me }
    ensures same { (seat.new.table_id ≡ seat.old.table_id) × (seat.new.id ≡ seat.old.id) }
    ensures seat { IsSeated words.now.key seat.new.me }
    ensures did { Does words.now.key Receive (seen_if (result % 2 == 0) GoesOn) seat.old.me seat.new.me }
    ensures ended { result % 2 ≡ 1 → AtMoment words.now.key (λ s. MayGo words.now.key s Receive) seat.old.me.0 seat.new.me.0 }
    ensures tail { result / 2 ≡ (now_in words.now.key seat.new.me.0).puts }
{
    words.load::<OpenToReceive<T>>(seat, TAIL)
}

// The same for those who wait to send.
struct OpenToSend<T> {
    marker: PhantomData<T>,
}

impl<T> Play<Option<T>, View<RingEntry<T>, u32>> for OpenToSend<T> {
    ghost then = { λ s m n r. MadeIf (n % 2 == 0) m.0.key s.word n Send GoesOn m r };
}

/// Looks whether the ring is open, for those who wait to send. Returns the tail.
pub(crate) fn look_open_to_send<T>(words: &RingWords<T>, seat: &mut RingSeat<T>) -> u64
    requires table { IsTable words.now.table_id words.now.key × (seat.old.table_id ≡ words.now.table_id) }
    requires seat { IsSeated words.now.key seat.old.me }
    ensures same { (seat.new.table_id ≡ seat.old.table_id) × (seat.new.id ≡ seat.old.id) }
    ensures seat { IsSeated words.now.key seat.new.me }
    ensures did { Does words.now.key Send (seen_if (result % 2 == 0) GoesOn) seat.old.me seat.new.me }
    ensures ended { result % 2 ≡ 1 → AtMoment words.now.key (λ s. MayGo words.now.key s Send) seat.old.me.0 seat.new.me.0 }
    ensures tail { result / 2 ≡ (now_in words.now.key seat.new.me.0).puts }
{
    words.load::<OpenToSend<T>>(seat, TAIL)
}

// The first value was not moved in; or it was, or is no longer the first one.
struct Bare<T> {
    marker: PhantomData<T>,
}

impl<T> Play<Option<T>, View<RingEntry<T>, u32>> for Bare<T> {
    ghost then = { λ s m n r. MadeIf (leb n (2 * (now_in m.0.key m.0).takes)) m.0.key s.word n Receive NothingThere m r };
}

/// Looks at the slot of the first place, as it was seen last. Returns its stamp.
pub(crate) fn look_first<T>(
    words: &RingWords<T>,
    seat: &mut RingSeat<T>,
    slots: u32,
    place: u64,
) -> u64
    requires table { IsTable words.now.table_id words.now.key × (seat.old.table_id ≡ words.now.table_id) × (slots ≡ words.now.key) }
    requires seat { IsSeated words.now.key seat.old.me }
    requires place { place ≡ (now_in words.now.key seat.old.me.0).takes }
    ensures same { (seat.new.table_id ≡ seat.old.table_id) × (seat.new.id ≡ seat.old.id) }
    ensures seat { IsSeated words.now.key seat.new.me }
    ensures did { Does words.now.key Receive (seen_if (leb result (2 * place)) NothingThere) seat.old.me seat.new.me }
    ensures came { 2 * place < result → AtMoment words.now.key (λ s. MayGo words.now.key s Receive) seat.old.me.0 seat.new.me.0 }
{
    words.load::<Bare<T>>(seat, SLOTS + (place % slots as u64) as usize)
}

// The slot of the next place is not free; or it is, or is no longer the next one.
struct Full<T> {
    marker: PhantomData<T>,
}

impl<T> Play<Option<T>, View<RingEntry<T>, u32>> for Full<T> {
    ghost then = { λ s m n r. MadeIf (ltb n (2 * (now_in m.0.key m.0).puts)) m.0.key s.word n Send NothingThere m r };
}

/// Looks at the slot of the next place, as it was seen last. Returns its stamp.
pub(crate) fn look_next<T>(
    words: &RingWords<T>,
    seat: &mut RingSeat<T>,
    slots: u32,
    place: u64,
) -> u64
    requires table { IsTable words.now.table_id words.now.key × (seat.old.table_id ≡ words.now.table_id) × (slots ≡ words.now.key) }
    requires seat { IsSeated words.now.key seat.old.me }
    requires place { place ≡ (now_in words.now.key seat.old.me.0).puts }
    ensures same { (seat.new.table_id ≡ seat.old.table_id) × (seat.new.id ≡ seat.old.id) }
    ensures seat { IsSeated words.now.key seat.new.me }
    ensures did { Does words.now.key Send (seen_if (ltb result (2 * place)) NothingThere) seat.old.me seat.new.me }
    ensures came { 2 * place ≤ result → AtMoment words.now.key (λ s. MayGo words.now.key s Send) seat.old.me.0 seat.new.me.0 }
{
    words.load::<Full<T>>(seat, SLOTS + (place % slots as u64) as usize)
}
