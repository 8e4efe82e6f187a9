//! The history that a text has, checked.

ghost use Rattle.std.specs.Prelude.{◌≡◌, ◌≤◌, length, IfOk, map};
ghost use Rattle.script_grammar.specs.Programs.{shape_of};
ghost use Rattle.script_reader.specs.Scripts.{program_of};
ghost use Rattle.history_text.specs.Numbers.{shape_of as job_shape};
ghost use Rattle.history_check.specs.Verdicts.{IsVerdict};

use crate::history::check_history;
use crate::verdict::Judgement;
use channel_model::Kind;
use co_base::Memory;
use history_text::Input;
use script_reader::Channel;
use std::alloc::{AllocError, Global};

/// The kinds of these channels, and their numbers of places.
fn kinds_of(alloc: Global, channels: &[Channel]) -> Result<Vec<(Kind, u32)>, AllocError>
    ensures { IfOk result (λ kinds. kinds.items ≡ map (λ channel. (channel.kind, channel.places)) channels.now) }
{
    let mut kinds = Vec::new(alloc);
    for channel in channels {
        kinds.push((channel.kind, channel.places))?;
    }
    Ok(kinds)
}

/// Checks the history of channels and Jobs that a text has.
pub fn check_input(alloc: Global, input: &Input) -> Result<Judgement, Memory>
    ensures { IfOk result (λ judgement.
        IsVerdict (shape_of (program_of input.now.script)) (job_shape input.now.numbers) input.now.lines.items judgement.verdict) }
{
    let kinds = kinds_of(alloc, input.script.channels())?;
    check_history(
        alloc,
        kinds.as_slice(),
        input.numbers,
        input.lines.as_slice(),
    )
}
