//! A held offer is admitted: its element is kept from now on, and its wait is resolved. A walk finds one that may be.
ghost use Rattle.std.specs.Prelude.{◌≡◌, ◌<◌, ◌≤◌, true, false, length};
ghost use Rattle.channel_model.specs.declared.acts.Kind.TheVariants as kinds;
ghost use Rattle.channel_model.specs.Channels.{kind_at, suspends, is_full};
ghost use Rattle.channel_model.specs.Laws.{NoneBelow};
ghost use Rattle.word_rules.specs.Cells.{gather};
ghost use Rattle.word_rules.specs.Words.{IsCell};
ghost use Rattle.cell_words.specs.Hubs.{shape_of, seen_by, IsOwn};
ghost use Rattle.cell_words.specs.Seen.{at_channel};
ghost use Rattle.cell_words.specs.Answers.{stands, Offers, SenderAt, AdmitAt, HereAnswer, SearchAnswer, AdmitBelowAnswer};

use crate::cells::{exchange_wait, kind_of, load_cell, load_wait, places_of};
use crate::counters::{first_not_kept, kept_run, raise_run, receives_from};
use crate::counting::stands_at;
use crate::decided::{begun_at, decided_up_to, lower_of};
use crate::found::{Admission, At, Here, Search, Waiter};
use crate::hub::Hub;
use crate::looks::{admission_found, found_by_receiver, is_used, standing_wait};
use crate::pass::Pass;
use crate::resolving::{owner_of, wait_cell};
use channel_model::{Act, Entry, Kind};
use co_base::{ChannelId, Place, Tag};
use word_rules::{ResolvedBy, WaitWord};

/// What is at a place, for one who looks for offers, also behind others, and receives nothing.
pub fn sender_at(hub: &Hub, pass: &mut Pass, who: Tag, c: ChannelId, place: Place) -> At
    requires own { IsOwn hub.now pass.old who }
    requires at { IsCell (shape_of hub.now) c place }
    requires given { place ≤ (at_channel (seen_by pass.old).seen c).next }
    ensures own { IsOwn hub.now pass.new who }
    ensures at { SenderAt (shape_of hub.now) c place (seen_by pass.old) (seen_by pass.new) result }
{
    let word = load_cell(hub, pass, who, c, place);
    if is_used(word) {
        return found_by_receiver(word);
    }
    At::Open
}

/// Lets the offer at a place be kept, before which fewer offers stand than the channel keeps, unless its wait was resolved.
pub fn admit_at(
    hub: &Hub,
    pass: &mut Pass,
    who: Tag,
    c: ChannelId,
    place: Place,
    waiter: Waiter,
) -> Admission
    requires own { IsOwn hub.now pass.old who }
    requires at { IsCell (shape_of hub.now) c place }
    requires room { is_full (kind_at (shape_of hub.now) c) (length (gather (stands (seen_by pass.old).seen c) place)) ≡ false }
    requires held { Offers (shape_of hub.now) c place waiter (seen_by pass.old).seen }
    ensures own { IsOwn hub.now pass.new who }
    ensures admitted { AdmitAt (shape_of hub.now) who c place waiter (seen_by pass.old) (seen_by pass.new) result }
{
    let cell = wait_cell(hub, c, place, waiter.holder);
    let owner = match owner_of(hub, pass, who, c, place, waiter) {
        Some(owner) => owner,
        // The wait was resolved: its word says whether at this clause.
        None => {
            let word = load_wait(hub, pass, who, cell);
            return admission_found(word, waiter.clause);
        }
    };
    let entry = Entry {
        who,
        act: Act::Admit { c, place },
    };
    let new = WaitWord {
        by: ResolvedBy::Admit,
        clause: waiter.clause,
        settled: false,
        cancelled: false,
        value: 0,
    };
    match exchange_wait(hub, pass, who, cell, standing_wait(), new, &entry) {
        None => Admission::Done(owner),
        Some(found) => admission_found(found, waiter.clause),
    }
}

// Admits the offer at a place, if one waits there.
fn admit_here(hub: &Hub, pass: &mut Pass, who: Tag, c: ChannelId, place: Place) -> Here
    requires own { IsOwn hub.now pass.old who }
    requires at { IsCell (shape_of hub.now) c place }
    requires kind { suspends (kind_at (shape_of hub.now) c) ≡ true }
    requires given { place ≤ (at_channel (seen_by pass.old).seen c).next }
    requires room { is_full (kind_at (shape_of hub.now) c) (length (gather (stands (seen_by pass.old).seen c) place)) ≡ false }
    ensures own { IsOwn hub.now pass.new who }
    ensures here { HereAnswer who c place (seen_by pass.old) (seen_by pass.new) result }
{
    match sender_at(hub, pass, who, c, place) {
        At::Waiting(waiter) => match admit_at(hub, pass, who, c, place, waiter) {
            Admission::Done(owner) => Here::Done(owner),
            Admission::Kept => Here::Kept,
            Admission::Gone => Here::Gone,
        },
        At::Kept(_) => Here::Kept,
        At::Gone => Here::Gone,
        At::Open => Here::End,
        At::Closed(_) => Here::End,
        At::Spent => unreachable!(),
        At::Placed => unreachable!(),
        At::Put => unreachable!(),
    }
}

// The same while an offer stands at the first place. The places of which is decided whether their element was kept are not looked at.
fn admit_decided(
    hub: &Hub,
    pass: &mut Pass,
    who: Tag,
    c: ChannelId,
    low: Place,
    mark: Place,
    most: u32,
) -> Search
    requires own { IsOwn hub.now pass.old who }
    requires at { IsCell (shape_of hub.now) c low }
    requires kind { kind_at (shape_of hub.now) c ≡ kinds.Buffered most }
    requires some { 0 < most }
    requires before { low < mark }
    requires low { NoneBelow 0 low (at_channel (seen_by pass.old).seen c) }
    ensures own { IsOwn hub.now pass.new who }
    ensures search { SearchAnswer (shape_of hub.now) who c low mark (seen_by pass.old) (seen_by pass.new) result }
{
    let places = places_of(hub, c);
    let known = decided_up_to(hub, pass, who, c, low, lower_of(mark, places));
    let begun = begun_at(known, low, most);
    let mut count = begun.count;
    for place in begun.to..mark {
        if count == most {
            // While the first still stands, so do the others that were counted.
            if stands_at(hub, pass, who, c, low) {
                return Search::Nothing;
            }
            return Search::Passed;
        }
        match admit_here(hub, pass, who, c, place) {
            Here::Done(owner) => return Search::Done(place, owner),
            Here::Kept => count += 1,
            Here::Gone => {}
            Here::End => return Search::Nothing,
        }
    }
    Search::Nothing
}

// The same behind a gap that an offer left. Where the first place has none any more, the walk begins anew behind it.
fn admit_past(
    hub: &Hub,
    pass: &mut Pass,
    who: Tag,
    c: ChannelId,
    low: Place,
    mark: Place,
    most: u32,
) -> Search
    requires own { IsOwn hub.now pass.old who }
    requires at { IsCell (shape_of hub.now) c low }
    requires kind { kind_at (shape_of hub.now) c ≡ kinds.Buffered most }
    requires some { 0 < most }
    requires before { low < mark }
    requires given { low < (at_channel (seen_by pass.old).seen c).next }
    requires low { NoneBelow 0 low (at_channel (seen_by pass.old).seen c) }
    ensures own { IsOwn hub.now pass.new who }
    ensures search { SearchAnswer (shape_of hub.now) who c low mark (seen_by pass.old) (seen_by pass.new) result }
{
    if stands_at(hub, pass, who, c, low) {
        return admit_decided(hub, pass, who, c, low, mark, most);
    }
    Search::Passed
}

// Looks for an offer to admit from a place on, below which none stands. The places of the run of kept ones are not looked at.
fn admit_from(
    hub: &Hub,
    pass: &mut Pass,
    who: Tag,
    c: ChannelId,
    low: Place,
    mark: Place,
    most: u32,
) -> Search
    requires own { IsOwn hub.now pass.old who }
    requires channel { c < length (shape_of hub.now) }
    requires kind { kind_at (shape_of hub.now) c ≡ kinds.Buffered most }
    requires some { 0 < most }
    requires before { low < mark }
    requires low { NoneBelow 0 low (at_channel (seen_by pass.old).seen c) }
    ensures own { IsOwn hub.now pass.new who }
    ensures search { SearchAnswer (shape_of hub.now) who c low mark (seen_by pass.old) (seen_by pass.new) result }
{
    let mut run = kept_run(hub, pass, who, c);
    let first = first_not_kept(run, low, most);
    let mut count = first - low;
    for place in first..mark {
        if count == most {
            // While the first still stands, so do the others that were counted.
            if stands_at(hub, pass, who, c, low) {
                return Search::Nothing;
            }
            return Search::Passed;
        }
        match admit_here(hub, pass, who, c, place) {
            Here::Done(owner) => {
                raise_run(hub, pass, who, c, run, low, place);
                return Search::Done(place, owner);
            }
            Here::Kept => {
                count += 1;
                run = raise_run(hub, pass, who, c, run, low, place);
            }
            Here::Gone => return admit_past(hub, pass, who, c, low, mark, most),
            Here::End => return Search::Nothing,
        }
    }
    Search::Nothing
}

/// Lets the first held offer below the mark be kept that may be: its place, and the coroutine that waits with it.
pub fn admit_below(
    hub: &Hub,
    pass: &mut Pass,
    who: Tag,
    c: ChannelId,
    mark: Place,
) -> Option<(Place, Tag)>
    requires own { IsOwn hub.now pass.old who }
    requires channel { c < length (shape_of hub.now) }
    ensures own { IsOwn hub.now pass.new who }
    ensures admitted { AdmitBelowAnswer (shape_of hub.now) who c mark (seen_by pass.old) (seen_by pass.new) result }
{
    let most = match kind_of(hub, c) {
        Kind::Buffered(most) => most,
        Kind::Rendezvous => return None,
        Kind::Unlimited => return None,
        Kind::Conflated => return None,
        Kind::DropOldest(_) => return None,
        Kind::DropLatest(_) => return None,
        Kind::Signal => return None,
    };
    if most == 0 {
        return None;
    }
    let from = receives_from(hub, pass, who, c);
    for low in from..mark {
        match admit_from(hub, pass, who, c, low, mark, most) {
            Search::Done(place, owner) => return Some((place, owner)),
            Search::Nothing => return None,
            Search::Passed => {}
        }
    }
    None
}
