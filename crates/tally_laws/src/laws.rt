//! What became of how many elements, by how many acts of each kind there are.

ghost use Rattle.std.specs.Prelude.{◌≡◌, List, map, ◌++◌};
ghost use Rattle.channel_model.specs.declared.acts.Entry.{Entry};
ghost use Rattle.channel_model.specs.Channels.{Shape};
ghost use Rattle.channel_model.specs.Histories.{replay, acts_in, Legal};
ghost use Rattle.note_book.specs.declared.book.Item.{Item};
ghost use Rattle.tally_laws.specs.Counts.{counts_of};
ghost use Rattle.tally_laws.specs.Elements.{AreSignals, AreFatesOf};
ghost use Rattle.tally_laws.specs.Examples.{examples, told};
ghost use Rattle.tally_laws.specs.Settlings.{ResolvedAreSettled, AreBooks};
ghost use Rattle.tally_laws.specs.Tallies.{tallied};

/// After a legal history in which each wait that was resolved is settled, how many elements there are on the declared channels, and of
/// which fate, is told by how many acts there are of each kind on all channels. All that stand behind the declared ones are signals.
pub fn fates_are_counted_by_kinds_of_acts()
    ensures { (declared signals : Shape) (history : List Entry) → AreSignals signals → Legal (declared ++ signals) history
        → ResolvedAreSettled (replay history) → AreFatesOf declared (acts_in history) (counts_of (acts_in history)) }
{}

/// So it is told by the tallies of all books, added, where each caller had one wait at a time. A tally is kept act by act; of the wait that
/// is not settled it knows no more than how many offers it has, and how many of them a plain send made.
pub fn tallies_of_books_give_the_counts_of_fates()
    ensures { (declared signals : Shape) (history : List Entry) (books : List (List Item)) → AreSignals signals
        → Legal (declared ++ signals) history → ResolvedAreSettled (replay history) → AreBooks books history
        → AreFatesOf declared (acts_in history) (tallied books) }
{}

/// What the tallies of some runs tell.
pub fn tallies_of_examples()
    ensures { map (λ x. told x.0) examples ≡ map (λ x. x.1) examples }
{}
