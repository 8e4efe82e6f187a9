//! The floor of Jobs over words, for one pass.
ghost use Rattle.std.proofs.Props.{props};
ghost use Rattle.job_words.specs.Forests.{IsOf};

use crate::attaching::attach;
use crate::cancelling::cancel_one;
use crate::ending::end_body;
use crate::finishing::finish;
use crate::forest::Forest;
use crate::linking::link;
use crate::looking::look;
use crate::pass::JobPass;
use crate::starting::start;
use crate::telling::gone;
use co_base::{Memory, Row, Tag, Value};
use job_model::{
    AttachError, Attached, CancelledNow, Ended, Finished, JobFloor, JobKind, JobView, Link, Reason,
};
use std::collections::LinkedList;

/// What never changes of a ranger. No value of it is made.
pub struct RangerAnchor {
    pub forest: Forest,
    /// Which pass it is.
    pub name: u64,
    /// Whether the pass gives out tags, and those that it has given out.
    pub chief: bool,
    pub given: LinkedList<u64>,
}

/// The floor of one pass.
#[derive(Drop)]
pub struct Ranger<'a> {
    pub forest: &'a Forest,
    pub pass: &'a mut JobPass,
    pub ghost of: { IsOf forest.now pass.now } by { Prim.hlevel props },
}

impl<'a> JobFloor for Ranger<'a> {
    ghost use Rattle.std.specs.Prelude.{◌≡◌, OnOk, OnErr, IsOk};
    ghost use Rattle.job_model.specs.Floors.{HasRoom};
    ghost use Rattle.job_words.specs.Rangers.{ranger_floor, ranger_anchor};

    ghost view = { ranger_floor };

    type Anchor = RangerAnchor;

    ghost anchor = { ranger_anchor };

    // Words need no room, so there always is.
    fn room(&mut self, n: u32) -> Result<(), Memory>
        ensures anchor { ranger_anchor self.new ≡ ranger_anchor self.old }
        ensures ok { OnOk result (HasRoom n (ranger_floor self.old) (ranger_floor self.new)) }
        ensures err { OnErr result (ranger_floor self.new ≡ ranger_floor self.old) }
        ensures always { IsOk result }
    {
        Ok(())
    }

    fn rows(&self) -> u16 {
        self.forest.size.rows
    }

    fn attach(
        &mut self,
        who: Tag,
        parent: Row,
        kind: JobKind,
        tag: Tag,
    ) -> Result<Attached, AttachError> {
        attach(self.forest, self.pass, who, parent, kind, tag)
    }

    fn start(&mut self, who: Tag, row: Row) -> bool {
        start(self.forest, self.pass, who, row)
    }

    fn end_body(&mut self, who: Tag, row: Row, value: Value) -> Ended {
        end_body(self.forest, self.pass, who, row, value)
    }

    fn cancel_one(&mut self, who: Tag, row: Row, reason: Reason) -> CancelledNow {
        cancel_one(self.forest, self.pass, who, row, reason)
    }

    fn finish(&mut self, who: Tag, row: Row) -> Finished {
        finish(self.forest, self.pass, who, row)
    }

    fn gone(&mut self, who: Tag, row: Row) -> Ended {
        gone(self.forest, self.pass, who, row)
    }

    fn look(&mut self, who: Tag, row: Row) -> Option<JobView> {
        look(self.forest, self.pass, who, row)
    }

    fn link(&mut self, who: Tag, row: Row) -> Link {
        link(self.forest, self.pass, who, row)
    }

    ghost shaped = { λ r. r.pass.now.shaped };

    ghost legal = { λ r. r.pass.now.legal };

    ghost claimed = { λ r. r.pass.now.claimed };
}
