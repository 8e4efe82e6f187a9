//! How a channel of owned values is made, and its passes are split, met and ended.
ghost use Rattle.std.specs.Prelude.{◌≡◌, ℕ, ◌≤◌, IfOk, false, [], ◌∷◌, length, slice_index};
ghost use Rattle.worded.specs.Histories.{entries_of};
ghost use Rattle.worded.specs.Views.{has_tag};
ghost use Rattle.cell_words.specs.Hubs.{shape_of};
ghost use Rattle.cell_words.specs.Meetings.{MeetAnswer as NumbersMeet, EndAnswer as NumbersEnd};
ghost use Rattle.parcel_channel.specs.Parcels.{maker};
ghost use Rattle.parcel_channel.specs.Answers.{MeetAnswer, EndAnswer};
ghost use Rattle.parcel_channel.specs.Numbers.{KeepsAll};
ghost use Rattle.parcel_channel.specs.Hubs.{IsOf, IsFirst, SamePass, seen_by, numbers_by};

use crate::hub::{ParcelHub, ParcelPass, ParcelTable};
use crate::seats::{join_to, meet_with, split_off};
use cell_words::Hub;
use channel_model::Kind;
use co_base::{Memory, Tag};
use std::alloc::{AllocError, Global};

/// So many words of 0.
fn zeros(alloc: Global, n: usize) -> Result<Vec<u64>, AllocError>
    ensures count { IfOk result (λ v. length v.items ≡ n) }
    ensures words { IfOk result (λ v. (i : ℕ) → slice_index v.items i ≡ 0) }
{
    Vec::from_elem(alloc, 0u64, n)
}

impl<T> ParcelHub<T> {
    /// A channel of this kind, with so many places and parcel numbers, and the pass of tag 0, which gives out the other tags.
    ///
    /// Example: `three_texts` in `docs/LIBRARY.md`.
    pub fn new(
        alloc: Global,
        kind: Kind,
        places: u32,
        parcels: u32,
    ) -> Result<(ParcelHub<T>, ParcelPass<T>), Memory>
        requires kind { KeepsAll kind }
        requires places { (1 ≤ places) × (places ≤ 1048576) }
        requires parcels { (1 ≤ parcels) × (parcels ≤ 1048576) }
        ensures of { IfOk result (λ r. IsOf r.0 r.1) }
        ensures shape { IfOk result (λ r. shape_of r.0.hub ≡ (kind, places) ∷ []) }
        ensures parcels { IfOk result (λ r. r.0.parcels ≡ parcels) }
        ensures first { IfOk result (λ r. IsFirst r.1 × ((seen_by r.1).given ≡ 0 ∷ []) × ((seen_by r.1).tags ≡ 0 ∷ [])) }
        ensures tag { IfOk result (λ r. r.1.tag ≡ 0) }
        ensures seen { IfOk result (λ r. ((seen_by r.1).seen ≡ []) × ((numbers_by r.1).seen ≡ [])) }
    {
        let kinds = [(kind, places)];
        let (hub, pass) = Hub::new(alloc, &kinds)?;
        let words = zeros(alloc, 1 + parcels as usize)?;
        let room = Vec::with_capacity(alloc, parcels as usize)?;
        match ParcelTable::<T>::vacant(alloc, words.as_slice(), parcels as usize, &parcels) {
            Ok((table, seat)) => Ok((
                ParcelHub {
                    table,
                    parcels,
                    hub,
                    room,
                },
                ParcelPass { seat, pass, tag: 0 },
            )),
            Err(_) => {
                room.destroy_empty();
                Err(Memory)
            }
        }
    }

    /// A pass of a tag that was not given out before. It has seen what the first pass has seen, and has made no entry.
    ///
    /// Example: `three_texts` in `docs/LIBRARY.md`.
    pub fn split(&self, pass: &mut ParcelPass<T>, tag: Tag) -> ParcelPass<T>
        requires of { IsOf self.now pass.old }
        requires first { IsFirst pass.old }
        requires new { has_tag tag (seen_by pass.old).given ≡ false }
        ensures of { IsOf self.now pass.new × IsOf self.now result }
        ensures first { IsFirst pass.new × ((seen_by pass.new).given ≡ tag ∷ (seen_by pass.old).given) }
        ensures tags { (pass.new.tag ≡ pass.old.tag) × (result.tag ≡ tag) }
        ensures callers { ((seen_by pass.new).tags ≡ (seen_by pass.old).tags) × ((seen_by result).tags ≡ tag ∷ []) }
        ensures same { ((seen_by pass.new).seen ≡ (seen_by pass.old).seen) × ((numbers_by pass.new).seen ≡ (numbers_by pass.old).seen) }
        ensures sees { ((seen_by result).seen ≡ (seen_by pass.old).seen) × ((numbers_by result).seen ≡ (numbers_by pass.old).seen) }
        ensures none { entries_of maker tag (seen_by result).seen ≡ [] }
    {
        let seat = split_off(&self.table.shared, &mut pass.seat, tag as u64);
        let other = self.hub.split(&mut pass.pass, tag);
        ParcelPass {
            seat,
            pass: other,
            tag,
        }
    }

    /// Afterwards `a` has seen all that `b` had seen, of values and of numbers.
    pub fn meet(&self, a: &mut ParcelPass<T>, b: &mut ParcelPass<T>)
        requires a { IsOf self.now a.old }
        requires b { IsOf self.now b.old }
        ensures a { IsOf self.now a.new }
        ensures b { IsOf self.now b.new }
        ensures same { SamePass a.old a.new × SamePass b.old b.new }
        ensures values { MeetAnswer (seen_by a.old) (seen_by b.old) (seen_by a.new) }
        ensures numbers { NumbersMeet (numbers_by a.old) (numbers_by b.old) (numbers_by a.new) }
        ensures other { (seen_by b.new ≡ seen_by b.old) × (numbers_by b.new ≡ numbers_by b.old) }
    {
        meet_with(&self.table.shared, &mut a.seat, &mut b.seat);
        self.hub.meet(&mut a.pass, &mut b.pass)
    }

    /// `main` takes in what another pass has seen of values and of numbers, and its tags.
    ///
    /// Example: `left_over` in `docs/LIBRARY.md`.
    pub fn end(&self, main: &mut ParcelPass<T>, pass: ParcelPass<T>)
        requires main { IsOf self.now main.old }
        requires pass { IsOf self.now pass }
        ensures main { IsOf self.now main.new }
        ensures same { main.new.tag ≡ main.old.tag }
        ensures first { IsFirst main.old → IsFirst main.new }
        ensures values { EndAnswer (seen_by main.old) (seen_by pass) (seen_by main.new) }
        ensures numbers { NumbersEnd (numbers_by main.old) (numbers_by pass) (numbers_by main.new) }
    {
        let ParcelPass {
            seat,
            pass: other,
            tag: _,
        } = pass;
        join_to(&self.table.shared, &mut main.seat, seat);
        self.hub.end(&mut main.pass, other)
    }
}
