//! What holds in every legal history.

ghost use Rattle.std.specs.Prelude.{◌+◌, is_some, ◌≡◌, ◌++◌, ◌∷◌, ◌≤◌, ◌↔◌, ◌<◌, ℕ, List, Some, length, true};
ghost use Rattle.channel_model.specs.declared.acts.Entry.{Entry};
ghost use Rattle.channel_model.specs.declared.acts.Settled.{Settled};
ghost use Rattle.channel_model.specs.declared.standing.Resolution.{Resolution};
ghost use Rattle.channel_model.specs.Channels.{Shape, State, kind_at, spurns};
ghost use Rattle.channel_model.specs.Effects.{after};
ghost use Rattle.channel_model.specs.Histories.{replay, replay_from, Legal, LegalFrom};
ghost use Rattle.channel_model.specs.declared.floor.WaitState.TheVariants.{Standing};
ghost use Rattle.channel_model.specs.Answers.{IsResolvedWait, IsSettledWait, IsFullAt, IsAdmittedBelow, state_of_wait};
ghost use Rattle.channel_model.specs.PlainOffers.{plain_offer};
ghost use Rattle.channel_model.specs.Laws.{closings_of, voidings_of, StandsInOrder, StoodAll, ClausesFit, NoneBelow, NoOffer, IsResolvedAs, IsSettledAs, AllStandOpen, AllStandOnce, resolutions_of, settlements_of, is_plain_history, IsPlain, keeps_none};
ghost use Rattle.channel_model.specs.Needs.{Needs};
ghost use Rattle.channel_model.specs.Owing.{OwesNothing, owes_spurn_at};
ghost use Rattle.channel_model.specs.Steps.{step, steps};
ghost use Rattle.co_base.specs.declared.names.WaitId.{WaitId};

/// A history that goes on leaves what its rest makes of the state before, and is legal exactly if its beginning is and its
/// rest is from there.
pub fn appended_histories()
    ensures replayed { (xs ys : List Entry) → replay (xs ++ ys) ≡ replay_from (replay xs) ys }
    ensures legal { (shape : Shape) (xs ys : List Entry) → Legal shape (xs ++ ys) ↔ (Legal shape xs × LegalFrom shape (replay xs) ys) }
{}

/// A step leaves what its entry makes of the state, and is taken exactly if the entry may come; all steps of a history are
/// taken exactly if it is legal.
pub fn a_step_is_taken_exactly_where_its_entry_may_come()
    ensures one { (shape : Shape) (s t : State) (e : Entry)
        → (step shape s e ≡ Some t) ↔ (Needs shape s e.who e.act × (after s e.who e.act ≡ t)) }
    ensures all { (shape : Shape) (s t : State) (history : List Entry)
        → (steps shape s history ≡ Some t) ↔ (LegalFrom shape s history × (replay_from s history ≡ t)) }
{}

/// In a legal history at most one entry resolves a wait, and at most one settles it.
pub fn a_wait_is_resolved_and_settled_at_most_once()
    ensures resolved { (shape : Shape) (history : List Entry) (w : WaitId) → Legal shape history → resolutions_of w history ≤ 1 }
    ensures settled { (shape : Shape) (history : List Entry) (w : WaitId) → Legal shape history → settlements_of w history ≤ 1 }
{}

/// After a legal history a wait is resolved exactly if one entry resolved it, and has ended exactly if one entry ended it.
pub fn a_wait_is_resolved_exactly_where_one_entry_resolves_it()
    ensures resolved { (shape : Shape) (history : List Entry) (w : WaitId) → Legal shape history
        → (resolutions_of w history ≡ 1) ↔ IsResolvedWait ((replay history).waits w) }
    ensures settled { (shape : Shape) (history : List Entry) (w : WaitId) → Legal shape history
        → (settlements_of w history ≡ 1) ↔ IsSettledWait ((replay history).waits w) }
{}

/// After a legal history a channel is closed exactly if one entry closed it, and cancelled exactly if one entry cancelled
/// it; so at most two entries end a channel.
pub fn a_channel_is_closed_exactly_where_one_entry_closes_it()
    ensures closed { (shape : Shape) (history : List Entry) (c : ℕ) → Legal shape history
        → (closings_of c history ≡ 1) ↔ (is_some ((replay history).channels c).closed ≡ true) }
    ensures voided { (shape : Shape) (history : List Entry) (c : ℕ) → Legal shape history
        → (voidings_of c history ≡ 1) ↔ (((replay history).channels c).voided ≡ true) }
    ensures two { (shape : Shape) (history : List Entry) (c : ℕ) → Legal shape history
        → closings_of c history + voidings_of c history ≤ 2 }
{}

/// After a legal history each offer that waits and each receiver that stands at a channel has a wait that nobody resolved,
/// with a clause at that channel.
pub fn whoever_stands_has_an_open_wait()
    ensures { (shape : Shape) (history : List Entry) → Legal shape history → AllStandOpen (replay history) }
{}

/// After a legal history a wait stands at most once at a channel, among its offers and receivers together.
pub fn a_wait_stands_at_most_once_at_a_channel()
    ensures { (shape : Shape) (history : List Entry) → Legal shape history → AllStandOnce (replay history) }
{}

/// After a legal history the offers and the receivers of a channel stand at ascending places that were given out, and never
/// both.
pub fn those_who_stand_stand_in_order()
    ensures { (shape : Shape) (history : List Entry) (c : ℕ) → Legal shape history → StandsInOrder ((replay history).channels c) }
{}

/// After a legal history an offer has at most so many before it as stood when it was placed, and that number stays. So an offer before
/// which too many stand was one too many when it was placed.
pub fn an_offer_has_no_more_before_it_than_stood_as_it_was_placed()
    ensures few { (shape : Shape) (history : List Entry) (c : ℕ) → Legal shape history
        → StoodAll ((replay history).stood c) 0 ((replay history).channels c).queue }
    ensures over { (shape : Shape) (history : List Entry) (c p : ℕ) → Legal shape history
        → owes_spurn_at (kind_at shape c) p 0 ((replay history).channels c).queue ≡ true
        → spurns (kind_at shape c) ((replay history).stood c p) ≡ true }
    ensures stays { (shape : Shape) (xs ys : List Entry) (c p : ℕ) → Legal shape (xs ++ ys) → p < ((replay xs).channels c).next
        → (replay (xs ++ ys)).stood c p ≡ (replay xs).stood c p }
{}

/// After a legal history a wait has one clause, or is that of a select with at most seven, whose numbers are among 1 to 7, and
/// no number and no channel comes twice.
pub fn a_wait_has_at_most_seven_clauses()
    ensures { (shape : Shape) (history : List Entry) (w : WaitId) → Legal shape history → ClausesFit ((replay history).waits w) }
{}

/// Whoever is gone from a channel never stands there again, however the history goes on: where nobody stands below a place, or no
/// offer at a place that was given out, it stays so.
pub fn who_is_gone_never_stands_again()
    ensures below { (shape : Shape) (xs ys : List Entry) (c n m : ℕ) → Legal shape (xs ++ ys)
        → NoneBelow n m ((replay xs).channels c) → NoneBelow n m ((replay (xs ++ ys)).channels c) }
    ensures here { (shape : Shape) (xs ys : List Entry) (c p : ℕ) → Legal shape (xs ++ ys) → NoOffer p ((replay xs).channels c)
        → NoOffer p ((replay (xs ++ ys)).channels c) }
{}

/// However a legal history goes on, no place is taken back, a closed channel keeps its first close value, a cancelled one stays
/// so, and a wait keeps how it was resolved and how it ended.
pub fn what_was_done_stays_done()
    ensures given { (shape : Shape) (xs ys : List Entry) (c : ℕ) → Legal shape (xs ++ ys)
        → ((replay xs).channels c).next ≤ ((replay (xs ++ ys)).channels c).next }
    ensures closed { (shape : Shape) (xs ys : List Entry) (c v : ℕ) → Legal shape (xs ++ ys)
        → ((replay xs).channels c).closed ≡ Some v → ((replay (xs ++ ys)).channels c).closed ≡ Some v }
    ensures voided { (shape : Shape) (xs ys : List Entry) (c : ℕ) → Legal shape (xs ++ ys) → ((replay xs).channels c).voided ≡ true
        → ((replay (xs ++ ys)).channels c).voided ≡ true }
    ensures resolved { (shape : Shape) (xs ys : List Entry) (w : WaitId) (how : Resolution) → Legal shape (xs ++ ys)
        → IsResolvedAs how ((replay xs).waits w) → IsResolvedAs how ((replay (xs ++ ys)).waits w) }
    ensures settled { (shape : Shape) (xs ys : List Entry) (w : WaitId) (outcome : Settled) → Legal shape (xs ++ ys)
        → IsSettledAs outcome ((replay xs).waits w) → IsSettledAs outcome ((replay (xs ++ ys)).waits w) }
{}

/// If all acts offer, receive or end a wait, every channel stays open, and a wait is resolved by an exchange alone. If
/// no channel keeps elements either, nothing is owed to anybody.
pub fn plain_histories_owe_nothing()
    ensures plain { (history : List Entry) → is_plain_history history ≡ true → IsPlain (replay history) }
    ensures owing { (shape : Shape) (history : List Entry) → is_plain_history history ≡ true → ((c : ℕ) → c < length shape
        → keeps_none (kind_at shape c) ≡ true) → OwesNothing shape (replay history) }
{}

/// If a send's own offer still waits, and no offer below a mark above its place may be admitted, at least as many offers as the
/// channel keeps stood there when it was placed.
pub fn a_send_that_waits_was_placed_in_a_full_channel()
    ensures { (shape : Shape) (xs ys : List Entry) (who c p v mark : ℕ) → Legal shape (xs ++ plain_offer who c p v ∷ ys) → p < mark
        → IsAdmittedBelow shape c mark (replay (xs ++ plain_offer who c p v ∷ ys))
        → state_of_wait ((replay (xs ++ plain_offer who c p v ∷ ys)).waits (record { channel = c; place = p })) ≡ Some Standing
        → IsFullAt shape c (replay xs) }
{}
