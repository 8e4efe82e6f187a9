//! The floor of Jobs over words, for a pass of its own.
ghost use Rattle.std.proofs.Props.{props};
ghost use Rattle.job_words.specs.Forests.{IsOf};
ghost use Rattle.word_seats.specs.Names.{IsNamedForest};

use crate::names::TableName;
use co_base::{Memory, Row, Tag, Value};
use job_model::{
    AttachError, Attached, CancelledNow, Ended, Finished, JobFloor, JobKind, JobView, Link, Reason,
};
use job_words::{Forest, JobPass, Ranger};
use std::collections::LinkedList;
use std::marker::PhantomData;

/// What never changes of a seat at a forest. No value of it is made.
pub struct ForestSeatAnchor {
    pub forest: Forest,
    /// Whether the pass gives out tags, and those that it has given out.
    pub chief: bool,
    pub given: LinkedList<u64>,
}

/// A pass with a forest on the table that `N` names: the floor of whoever keeps it.
#[derive(Drop)]
pub struct ForestSeat<'a, N: TableName> {
    pub forest: &'a Forest,
    pub pass: JobPass,
    pub name: PhantomData<N>,
    pub ghost of: { IsOf forest.now pass } by { Prim.hlevel props },
    pub ghost named: { IsNamedForest N.table N.table_key forest.now } by { Prim.hlevel props },
}

/// Lends the forest and the pass of a seat to a `Ranger` for one call.
macro_rules! ranger {
    ($seat:ident) => {
        Ranger {
            forest: $seat.forest,
            pass: &mut $seat.pass,
        }
    };
}

impl<N: TableName> JobFloor for ForestSeat<'_, N> {
    ghost use Rattle.std.specs.Prelude.{◌≡◌, OnOk, OnErr, IsOk};
    ghost use Rattle.job_model.specs.Floors.{HasRoom};
    ghost use Rattle.job_words.specs.Forests.{seen_by};
    ghost use Rattle.job_words.specs.Passes.{floor_seen};
    ghost use Rattle.word_seats.specs.Seats.{forest_anchor};

    ghost view = { λ s. floor_seen (seen_by s.pass) };

    type Anchor = ForestSeatAnchor;

    ghost anchor = { λ s. forest_anchor s.forest.now s.pass };

    // Words need no room, so there always is.
    fn room(&mut self, n: u32) -> Result<(), Memory>
        ensures anchor { forest_anchor self.new.forest.now self.new.pass ≡ forest_anchor self.old.forest.now self.old.pass }
        ensures ok { OnOk result (HasRoom n (floor_seen (seen_by self.old.pass)) (floor_seen (seen_by self.new.pass))) }
        ensures err { OnErr result (floor_seen (seen_by self.new.pass) ≡ floor_seen (seen_by self.old.pass)) }
        ensures always { IsOk result }
    {
        Ok(())
    }

    fn rows(&self) -> u16 {
        self.forest.rows()
    }

    fn attach(
        &mut self,
        who: Tag,
        parent: Row,
        kind: JobKind,
        tag: Tag,
    ) -> Result<Attached, AttachError> {
        ranger!(self).attach(who, parent, kind, tag)
    }

    fn start(&mut self, who: Tag, row: Row) -> bool {
        ranger!(self).start(who, row)
    }

    fn end_body(&mut self, who: Tag, row: Row, value: Value) -> Ended {
        ranger!(self).end_body(who, row, value)
    }

    fn cancel_one(&mut self, who: Tag, row: Row, reason: Reason) -> CancelledNow {
        ranger!(self).cancel_one(who, row, reason)
    }

    fn finish(&mut self, who: Tag, row: Row) -> Finished {
        ranger!(self).finish(who, row)
    }

    fn gone(&mut self, who: Tag, row: Row) -> Ended {
        ranger!(self).gone(who, row)
    }

    fn look(&mut self, who: Tag, row: Row) -> Option<JobView> {
        ranger!(self).look(who, row)
    }

    fn link(&mut self, who: Tag, row: Row) -> Link {
        ranger!(self).link(who, row)
    }

    ghost shaped = { λ r. r.pass.shaped };

    ghost legal = { λ r. r.pass.legal };

    ghost claimed = { λ r. r.pass.claimed };
}
