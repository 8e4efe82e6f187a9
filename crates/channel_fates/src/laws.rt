//! What holds of the elements in every legal history.

ghost use Rattle.std.specs.Prelude.{◌≡◌, ◌≤◌, ◌↔◌, ℕ, List, Some};
ghost use Rattle.channel_model.specs.declared.acts.Entry.{Entry};
ghost use Rattle.channel_model.specs.declared.acts.Fate.TheVariants as fate;
ghost use Rattle.channel_model.specs.Channels.{Shape};
ghost use Rattle.channel_model.specs.Fates.{element_at, fate_at};
ghost use Rattle.channel_model.specs.Histories.{replay, acts_in, Legal};
ghost use Rattle.channel_model.specs.Laws.{how_many};
ghost use Rattle.channel_fates.specs.Places.{is_of_place};
ghost use Rattle.channel_fates.specs.OneFate.{IsAtMostOneFate, deliveries_of, StandsOrIsUnsettled};

/// In a legal history at most one of received, undelivered, dropped, spurned and withdrawn applies to the element of a place.
pub fn an_element_has_at_most_one_fate()
    ensures { (shape : Shape) (history : List Entry) (c p : ℕ) → Legal shape history → IsAtMostOneFate c p (acts_in history) }
{}

/// In a legal history the element of a place is given to a receiver at most once.
pub fn an_element_is_delivered_at_most_once()
    ensures { (shape : Shape) (history : List Entry) (c p : ℕ) → Legal shape history → deliveries_of c p (acts_in history) ≤ 1 }
{}

/// A legal history has at most four entries for each place.
pub fn a_place_has_at_most_four_entries()
    ensures { (shape : Shape) (history : List Entry) (c p : ℕ) → Legal shape history → how_many (is_of_place c p) (acts_in history) ≤ 4 }
{}

/// After a legal history none of the five applies to the element of a place, which is then held, exactly if it stands in
/// the queue of its channel or was handed to a wait that is not settled yet.
pub fn an_element_without_a_fate_is_held()
    ensures { (shape : Shape) (history : List Entry) (c p v : ℕ) → Legal shape history → element_at c p (acts_in history) ≡ Some v
        → (fate_at c p (acts_in history) ≡ fate.Held) ↔ StandsOrIsUnsettled c p v (acts_in history) (replay history) }
{}
