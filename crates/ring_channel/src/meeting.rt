//! How a ring is made, and its passes are split, met and ended.
ghost use Rattle.std.specs.Prelude.{◌≡◌, ℕ, ◌+◌, ◌<◌, ◌≤◌, ◌^◌, IfOk, false, [], ◌∷◌, length, slice_index};
ghost use Rattle.worded.specs.Histories.{entries_of};
ghost use Rattle.worded.specs.Views.{has_tag};
ghost use Rattle.ring_channel.specs.Rings.{maker};
ghost use Rattle.ring_channel.specs.Tables.{first_word};
ghost use Rattle.ring_channel.specs.Answers.{MeetAnswer, EndAnswer};
ghost use Rattle.ring_channel.specs.Passes.{IsOf, IsFirst, IsEmpty, SamePass, seen_by, tag_of, NewAnswer};

use crate::answers::RingFault;
use crate::ring::{Ring, RingPass, RingTable};
use crate::seats::{join_to, meet_with, split_off};
use co_base::{Memory, Tag};
use std::alloc::Global;

/// How many slots a ring may have.
const MOST_SLOTS: u32 = 1048576;

/// How many values may be put on a ring in all.
const MOST_PLACES: u64 = 4611686018427387904;

/// The words of an empty ring.
fn first_words(alloc: Global, slots: u32) -> Result<Vec<u64>, Memory>
    requires few { slots ≤ 1048576 }
    ensures count { IfOk result (λ v. length v.items ≡ 32 + slots) }
    ensures words { IfOk result (λ v. (i : ℕ) → i < 32 + slots → slice_index v.items i ≡ first_word i) }
{
    let count = 32 + slots as usize;
    let mut words = Vec::with_capacity(alloc, count)?;
    let mut i = 0;
    while i < count {
        words.push_reserved(2 * i.saturating_sub(32) as u64);
        i += 1;
    }
    Ok(words)
}

/// An empty ring, and its first pass.
fn lay<T>(alloc: Global, slots: u32, places: u64) -> Result<(Ring<T>, RingPass<T>), Memory>
    requires slots { (1 ≤ slots) × (slots ≤ 1048576) }
    requires places { places ≤ 2 ^ 62 }
    ensures empty { IfOk result (λ r. IsEmpty slots places r.0 r.1) }
{
    let words = first_words(alloc, slots)?;
    let room = Vec::with_capacity(alloc, slots as usize)?;
    match RingTable::<T>::vacant(alloc, words.as_slice(), slots as usize, &slots) {
        Ok((table, seat)) => Ok((
            Ring {
                table,
                slots,
                places,
                room,
            },
            RingPass { seat },
        )),
        Err(_) => {
            room.destroy_empty();
            Err(Memory)
        }
    }
}

impl<T> Ring<T> {
    /// A ring of so many slots, 1 to 1,048,576, on which 2^62 values may be put; and the pass of tag 0, which gives out the other tags.
    pub fn new(alloc: Global, slots: u32) -> Result<(Ring<T>, RingPass<T>), RingFault>
        ensures answer { NewAnswer slots (2 ^ 62) result }
    {
        Ring::with_places(alloc, slots, MOST_PLACES)
    }

    /// The same, but a ring on which only so many values may be put.
    pub fn with_places(
        alloc: Global,
        slots: u32,
        places: u64,
    ) -> Result<(Ring<T>, RingPass<T>), RingFault>
        requires places { places ≤ 2 ^ 62 }
        ensures answer { NewAnswer slots places result }
    {
        if slots == 0 {
            return Err(RingFault::NoSlots);
        }
        if slots > MOST_SLOTS {
            return Err(RingFault::TooManySlots);
        }
        match lay(alloc, slots, places) {
            Ok(made) => Ok(made),
            Err(_) => Err(RingFault::Memory),
        }
    }

    /// A pass of a tag that was not given out before. It has seen what the first pass has seen, and has made no entry.
    pub fn split(&self, pass: &mut RingPass<T>, tag: Tag) -> RingPass<T>
        requires of { IsOf self.now pass.old }
        requires first { IsFirst pass.old }
        requires new { has_tag tag (seen_by pass.old).given ≡ false }
        ensures of { IsOf self.now pass.new × IsOf self.now result }
        ensures first { IsFirst pass.new × ((seen_by pass.new).given ≡ tag ∷ (seen_by pass.old).given) }
        ensures tags { ((seen_by pass.new).tags ≡ (seen_by pass.old).tags) × ((seen_by result).tags ≡ tag ∷ []) }
        ensures seen { ((seen_by pass.new).seen ≡ (seen_by pass.old).seen) × ((seen_by result).seen ≡ (seen_by pass.old).seen) }
        ensures none { entries_of maker tag (seen_by result).seen ≡ [] }
    {
        let seat = split_off(&self.table.shared, &mut pass.seat, tag as u64);
        RingPass { seat }
    }

    /// Afterwards `a` has seen all that `b` had seen.
    pub fn meet(&self, a: &mut RingPass<T>, b: &mut RingPass<T>)
        requires a { IsOf self.now a.old }
        requires b { IsOf self.now b.old }
        ensures a { IsOf self.now a.new }
        ensures b { IsOf self.now b.new }
        ensures same { SamePass a.old a.new × (seen_by b.new ≡ seen_by b.old) }
        ensures met { MeetAnswer (seen_by a.old) (seen_by b.old) (seen_by a.new) }
    {
        meet_with(&self.table.shared, &mut a.seat, &mut b.seat)
    }

    /// `main` takes in what another pass has seen, and its tags.
    pub fn end(&self, main: &mut RingPass<T>, pass: RingPass<T>)
        requires main { IsOf self.now main.old }
        requires pass { IsOf self.now pass }
        ensures main { IsOf self.now main.new }
        ensures tag { tag_of main.new ≡ tag_of main.old }
        ensures first { IsFirst main.old → IsFirst main.new }
        ensures ended { EndAnswer (seen_by main.old) (seen_by pass) (seen_by main.new) }
    {
        let RingPass { seat } = pass;
        join_to(&self.table.shared, &mut main.seat, seat)
    }
}
