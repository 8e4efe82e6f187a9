//! A hub and a forest on one table.

ghost use Rattle.std.specs.Prelude.{◌≡◌, ◌+◌, ◌<◌, ◌≤◌, IfOk, length, [], ◌∷◌};
ghost use Rattle.channel_model.specs.Channels.{IsShape};
ghost use Rattle.word_rules.specs.Words.{cells_in};
ghost use Rattle.cell_words.specs.Hubs.{shape_of, seen_by, beside, IsOwn, GivesTags};

use cell_words::{Hub, Pass};
use channel_model::Kind;
use co_base::Memory;
use job_words::{Forest, ForestSize};
use std::alloc::Global;
use std::sync::Arc;

/// A hub of channels of these kinds, with so many places, and a forest that has the root alone, on one table, with which nothing was done;
/// and the pass of tag 0 of the hub, which gives out the tags of both.
pub fn hub_and_forest(
    alloc: Global,
    kinds: &[(Kind, u32)],
    coroutines: u16,
    scopes: u16,
) -> Result<(Hub, Pass, Forest), Memory>
    requires channels { length kinds.now ≤ 65536 }
    requires shape { IsShape kinds.now }
    requires cells { cells_in kinds.now < 8388608 }
    requires some { 0 < coroutines }
    requires few { coroutines + scopes ≤ 16000 }
    ensures shape { IfOk result (λ r. shape_of r.0 ≡ kinds.now) }
    ensures own { IfOk result (λ r. IsOwn r.0 r.1 0) }
    ensures gives { IfOk result (λ r. GivesTags (0 ∷ []) r.1) }
    ensures seen { IfOk result (λ r. (seen_by r.1).seen ≡ []) }
    ensures beside { IfOk result (λ r. (beside r.1).given ≡ []) }
    ensures rows { IfOk result (λ r. r.2.size ≡ record { coroutines = coroutines; rows = coroutines + scopes }) }
    ensures table { IfOk result (λ r. r.2.table.value ≡ r.0.table.value) }
{
    let size = ForestSize {
        coroutines,
        rows: coroutines + scopes,
    };
    let (hub, pass) = Hub::with_rows(alloc, kinds, size)?;
    let table = Arc::try_clone(&hub.table)?;
    let forest = Forest::on(table, size, hub.first_beside());
    Ok((hub, pass, forest))
}
