//! The script so far.

use crate::names::Indexed;
use crate::script::{Channel, Coroutine, Spawn};
use script_grammar::Instruction;

/// The block that is open.
#[derive(Drop)]
pub(crate) struct OpenBlock {
    pub(crate) name: String,
    pub(crate) jobs: Indexed<String>,
    /// Whether each of these Jobs may be awaited.
    pub(crate) awaitable: Vec<bool>,
    pub(crate) code: Vec<Instruction>,
    /// Of each repeat, each and scope that is open, the innermost first: how often its lines run.
    pub(crate) nest: Vec<u32>,
    /// The channels of the clauses of the select that is open, if one is.
    pub(crate) clauses: Option<Vec<u16>>,
    pub(crate) weight: u16,
}

/// The version, what the lines so far declare, and the block that is open.
#[derive(Drop)]
pub(crate) struct Reading {
    pub(crate) version: u8,
    pub(crate) channels: Indexed<Channel>,
    /// How many places the channels have together.
    pub(crate) places: u32,
    pub(crate) coroutines: Indexed<Coroutine>,
    pub(crate) spawns: Vec<Spawn>,
    /// Of each block that is closed.
    pub(crate) weights: Vec<u16>,
    pub(crate) current: Option<OpenBlock>,
    /// The weight of main so far, and of all instances of the spawns.
    pub(crate) load: u32,
}
