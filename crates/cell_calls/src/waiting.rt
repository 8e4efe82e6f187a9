//! What a coroutine does with its own wait.
ghost use Rattle.channel_model.specs.Floors.{MayCall};
ghost use Rattle.channel_model.specs.Answers.{LookAnswer, SettleAnswer, WithdrawAnswer, IsOwn, IsReady};
ghost use Rattle.cell_words.specs.Hubs.{IsOf, SameGiving};
ghost use Rattle.cell_calls.specs.HubFloors.{hub_floor};

use cell_words::{Hub, Pass, look_at, settle_at, withdraw_at};
use channel_model::{Settled, WaitState, Why, Withdrawn};
use co_base::{Tag, WaitId};

/// How far the own wait is.
pub fn look(hub: &Hub, pass: &mut Pass, who: Tag, w: WaitId) -> WaitState
    requires of { IsOf hub.now pass.old }
    requires can { MayCall who w.channel (hub_floor hub.now pass.old) }
    requires own { IsOwn who w (hub_floor hub.now pass.old) }
    ensures of { IsOf hub.now pass.new }
    ensures giving { SameGiving pass.old pass.new }
    ensures answer { LookAnswer who w (hub_floor hub.now pass.old) (hub_floor hub.now pass.new) result }
{
    look_at(hub, pass, who, w)
}

/// Settles the own wait, which was seen resolved.
pub fn settle(hub: &Hub, pass: &mut Pass, who: Tag, w: WaitId, cancelled: bool) -> Settled
    requires of { IsOf hub.now pass.old }
    requires can { MayCall who w.channel (hub_floor hub.now pass.old) }
    requires ready { IsReady who w (hub_floor hub.now pass.old) }
    ensures of { IsOf hub.now pass.new }
    ensures giving { SameGiving pass.old pass.new }
    ensures answer { SettleAnswer who w cancelled (hub_floor hub.now pass.old) (hub_floor hub.now pass.new) result }
{
    settle_at(hub, pass, who, w, cancelled)
}

/// Takes the own wait back.
pub fn withdraw(hub: &Hub, pass: &mut Pass, who: Tag, w: WaitId, why: Why) -> Withdrawn
    requires of { IsOf hub.now pass.old }
    requires can { MayCall who w.channel (hub_floor hub.now pass.old) }
    requires own { IsOwn who w (hub_floor hub.now pass.old) }
    ensures of { IsOf hub.now pass.new }
    ensures giving { SameGiving pass.old pass.new }
    ensures answer { WithdrawAnswer who w why (hub_floor hub.now pass.old) (hub_floor hub.now pass.new) result }
{
    if withdraw_at(hub, pass, who, w, why) {
        Withdrawn::Done(who)
    } else {
        Withdrawn::Late
    }
}
