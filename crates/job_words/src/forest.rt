//! The table of a forest.
ghost use Rattle.std.proofs.Props.{props};
ghost use Rattle.word_rules.specs.Deeds.{IsSize};
ghost use Rattle.job_words.specs.JobParts.{IsPlaced};

use word_rules::{ForestSize, SharedTable};

/// The words that a forest stands on, behind those of channels.
pub type ForestTable = SharedTable;

/// A tree of Jobs over words, which many threads change at once, each with a pass of its own.
#[derive(Drop)]
pub struct Forest {
    pub table: ForestTable,
    pub(crate) size: ForestSize,
    /// Which word of the table is the Job word of the root.
    pub(crate) first: usize,
    pub ghost placed: { IsPlaced table.value.shared.table_id.words table.value.shared.key size first } by { Prim.hlevel props },
    pub ghost small: { IsSize size } by { Prim.hlevel props },
}
