//! The channels and Jobs that a script needs.

ghost use Rattle.std.specs.Prelude.{◌≡◌, IfOk};
ghost use Rattle.script_reader.specs.Scripts.{program_of};
ghost use Rattle.script_grammar.specs.Tags.{job_count};
ghost use Rattle.script_meaning.specs.Shapes.{floor_shape};

use channel_model::Kind;
use co_base::Memory;
use script_reader::Script;
use std::alloc::Global;

/// The kinds and places of the channels that the script declares, and of the done channels behind them.
pub fn kinds_of(alloc: Global, script: &Script) -> Result<Vec<(Kind, u32)>, Memory>
    ensures { IfOk result (λ kinds. kinds.items ≡ floor_shape (program_of script.now)) }
{
    let channels = script.channels();
    let mut kinds = Vec::new(alloc);
    for channel in channels {
        kinds.push((channel.kind, channel.places))?;
    }
    for _ in 0..rows_of(script) {
        kinds.push((Kind::Signal, 1))?;
    }
    Ok(kinds)
}

/// How many Jobs there may be.
pub fn rows_of(script: &Script) -> u16
    ensures { result ≡ job_count (program_of script.now) }
{
    script.coroutines() + script.scopes()
}
