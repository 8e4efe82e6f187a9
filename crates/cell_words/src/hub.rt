//! A hub: the channels of a table, and what they were made for.
ghost use Rattle.std.proofs.Props.{props};
ghost use Rattle.cell_words.specs.Sizes.{IsSized};

use channel_model::Kind;
use word_rules::SharedTable;

/// The words of a hub, which are the first part of the table. A forest may stand on the second part.
pub type HubTable = SharedTable;

/// Channels over words, which many threads change at once, each with a pass of its own.
#[derive(Drop)]
pub struct Hub {
    pub table: HubTable,
    pub(crate) kinds: Vec<(Kind, u32)>,
    /// The number of the first cell of each channel.
    pub(crate) firsts: Vec<u32>,
    /// How many cells all channels have.
    pub(crate) cells: u32,
    pub ghost sized: { IsSized table.value.shared.table_id.words table.value.shared.key kinds.items firsts.items cells } by { Prim.hlevel props },
}
