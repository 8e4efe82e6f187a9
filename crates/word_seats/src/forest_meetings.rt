//! How seats at a forest are split, met and ended.

ghost use Rattle.std.specs.Prelude.{◌≡◌, false, ◌∷◌};
ghost use Rattle.job_words.specs.Forests.{seen_by};
ghost use Rattle.job_words.specs.Passes.{floor_seen};
ghost use Rattle.word_seats.specs.Seats.{forest_anchor, forest_may_act, IsNewJobFloor};

use crate::forest_seat::ForestSeat;
use crate::names::TableName;
use co_base::Tag;
use shared_floors::SharedJobs;
use std::marker::PhantomData;

impl<'a, N: TableName> ForestSeat<'a, N> {
    /// A seat of a tag under which nobody could act before. It has seen what this one has seen.
    pub fn split(&mut self, tag: Tag) -> ForestSeat<'a, N>
        requires { forest_may_act (forest_anchor self.old.forest.now self.old.pass) tag ≡ false }
        ensures same { floor_seen (seen_by self.new.pass) ≡ floor_seen (seen_by self.old.pass) }
        ensures gives { forest_anchor self.new.forest.now self.new.pass ≡ record (forest_anchor self.old.forest.now self.old.pass) {
          given = tag ∷ (forest_anchor self.old.forest.now self.old.pass).given;
        } }
        ensures seat { IsNewJobFloor tag (floor_seen (seen_by self.old.pass)) (floor_seen (seen_by result.pass)) }
    {
        ForestSeat {
            forest: self.forest,
            pass: self.forest.split(&mut self.pass, tag),
            name: PhantomData,
        }
    }
}

impl<N: TableName> SharedJobs for ForestSeat<'_, N> {
    ghost use Rattle.word_seats.specs.Seats.{forest_may_act};

    ghost may_act = { forest_may_act };

    fn meet(&mut self, other: &mut Self) {
        self.forest.meet(&mut self.pass, &mut other.pass);
    }

    fn end(&mut self, other: Self) {
        let ForestSeat {
            forest: _,
            pass,
            name: _,
        } = other;
        self.forest.end(&mut self.pass, pass);
    }
}
