//! What a coroutine does with its own wait: it looks, takes it back, or settles it.
ghost use Rattle.std.specs.Prelude.{◌≡◌, Some};
ghost use Rattle.channel_model.specs.declared.acts.Act.TheVariants.{Settle};
ghost use Rattle.channel_model.specs.Histories.{replay};
ghost use Rattle.channel_model.specs.Answers.{IsOwnWait, IsReadyWait, outcome_at, state_of_wait};
ghost use Rattle.word_rules.specs.Words.{IsCell};
ghost use Rattle.cell_words.specs.Hubs.{shape_of, seen_by, IsOwn};
ghost use Rattle.cell_words.specs.Seen.{Sees, Makes};
ghost use Rattle.cell_words.specs.Answers.{IsWaitWord, WithdrawAt};

use crate::cells::{exchange_wait, load_wait, number_of};
use crate::hub::Hub;
use crate::looks::{
    is_cancelled_end, resolution_found, standing_wait, state_found, withdrawn_wait,
};
use crate::pass::Pass;
use channel_model::{Act, Entry, Settled, WaitState, Why, outcome};
use co_base::{Tag, WaitId};
use word_rules::WaitWord;

/// How far the own wait is.
pub fn look_at(hub: &Hub, pass: &mut Pass, who: Tag, w: WaitId) -> WaitState
    requires own { IsOwn hub.now pass.old who }
    requires at { IsCell (shape_of hub.now) w.channel w.place }
    requires mine { IsOwnWait who ((replay (seen_by pass.old).seen).waits w) }
    ensures own { IsOwn hub.now pass.new who }
    ensures sees { Sees (seen_by pass.old) (seen_by pass.new) }
    ensures state { state_of_wait ((replay (seen_by pass.new).seen).waits w) ≡ Some result }
{
    let cell = number_of(hub, w.channel, w.place);
    let word = load_wait(hub, pass, who, cell);
    state_found(word)
}

/// The word of a wait.
pub fn wait_word_at(hub: &Hub, pass: &mut Pass, who: Tag, w: WaitId) -> WaitWord
    requires own { IsOwn hub.now pass.old who }
    requires at { IsCell (shape_of hub.now) w.channel w.place }
    ensures own { IsOwn hub.now pass.new who }
    ensures sees { Sees (seen_by pass.old) (seen_by pass.new) }
    ensures word { IsWaitWord w (seen_by pass.new).seen result }
{
    let cell = number_of(hub, w.channel, w.place);
    load_wait(hub, pass, who, cell)
}

/// Takes the own wait back, unless it was resolved.
pub fn withdraw_at(hub: &Hub, pass: &mut Pass, who: Tag, w: WaitId, why: Why) -> bool
    requires own { IsOwn hub.now pass.old who }
    requires at { IsCell (shape_of hub.now) w.channel w.place }
    requires mine { IsOwnWait who ((replay (seen_by pass.old).seen).waits w) }
    ensures own { IsOwn hub.now pass.new who }
    ensures done { WithdrawAt who w why (seen_by pass.old) (seen_by pass.new) result }
{
    let entry = Entry {
        who,
        act: Act::Withdraw { w, why },
    };
    let cell = number_of(hub, w.channel, w.place);
    match exchange_wait(
        hub,
        pass,
        who,
        cell,
        standing_wait(),
        withdrawn_wait(why),
        &entry,
    ) {
        None => true,
        Some(_) => false,
    }
}

/// Settles the own wait, which was resolved.
pub fn settle_at(hub: &Hub, pass: &mut Pass, who: Tag, w: WaitId, cancelled: bool) -> Settled
    requires own { IsOwn hub.now pass.old who }
    requires at { IsCell (shape_of hub.now) w.channel w.place }
    requires ready { IsReadyWait who ((replay (seen_by pass.old).seen).waits w) }
    ensures own { IsOwn hub.now pass.new who }
    ensures settled { Makes (seen_by pass.old) (record { who = who; act = Settle w result }) (seen_by pass.new) }
    ensures outcome { outcome_at cancelled ((replay (seen_by pass.old).seen).waits w) ≡ Some result }
{
    let cell = number_of(hub, w.channel, w.place);
    let old = load_wait(hub, pass, who, cell);
    let settled = outcome(resolution_found(old), cancelled);
    let entry = Entry {
        who,
        act: Act::Settle {
            w,
            outcome: settled,
        },
    };
    let new = WaitWord {
        by: old.by,
        clause: old.clause,
        settled: true,
        cancelled: is_cancelled_end(settled),
        value: old.value,
    };
    // Nobody else settles the wait, so the exchange goes through.
    exchange_wait(hub, pass, who, cell, old, new, &entry);
    settled
}
