//! The table of both histories.

use crate::deed::Deed;
use crate::layout::{CellHistory, Layout};
use crate::size::{ForestSize, JobHistory};
use channel_model::Entry;
use either::Either;
use joined_words::{JointHistory, JointSeat, JointTable};
use std::alloc::Global;
use std::sync::Arc;

/// An entry of either history.
pub type RunEntry = Either<Entry, Deed>;

/// What the table was made for.
pub type RunKey = (Layout, ForestSize);

/// The rule of both histories.
pub type RunHistory = JointHistory<CellHistory, JobHistory>;

/// The words of channels and of rows.
pub type RunTable = JointTable<Entry, Layout, CellHistory, Deed, ForestSize, JobHistory, Global>;

/// The same table, as a hub and a forest on it share it.
pub type SharedTable = Arc<RunTable, Global>;

/// What a thread steps with on either part.
pub type RunSeat = JointSeat<Entry, Layout, Deed, ForestSize>;
