//! The script, after the last line.

ghost use Rattle.std.specs.Prelude.{◌≡◌, ◌≤◌, [], nat_le, true, Some, Ok, IfOk, length, map};
ghost use Rattle.std.specs.List.{list_all};
ghost use Rattle.script_grammar.specs.Programs.{Program};
ghost use Rattle.script_grammar.specs.WellFormed.{IsProgram, whole_load, weights_from};
ghost use Rattle.script_grammar.specs.Tags.{block_named};
ghost use Rattle.script_grammar.specs.Texts.{finish};
ghost use Rattle.script_reader.specs.Answers.{GivesUnless};
ghost use Rattle.script_reader.specs.Programs.{program_from, block_of};
ghost use Rattle.script_reader.specs.Reading.{view};
ghost use Rattle.script_reader.specs.Holding.{Holds, cost};
ghost use Rattle.script_reader.specs.Ending.{MayEnd};
ghost use Rattle.script_reader.specs.Scripts.{program_of};
ghost use lib.Chars.{codes};

use crate::closings::all_closings;
use crate::names::Indexed;
use crate::reading::Reading;
use crate::script::{Channel, Coroutine, Script, Spawn};
use crate::sizes::all_sizes;
use crate::tags::tags_in;
use script_grammar::FaultKind;
use std::alloc::{AllocError, Global};

/// The script of these parts, with its tables. The load is the number of its Jobs.
fn script_from(
    alloc: Global,
    version: u8,
    channels: Vec<Channel>,
    coroutines: Vec<Coroutine>,
    spawns: Vec<Spawn>,
    main: u16,
    load: u32,
) -> Result<Script, AllocError>
    requires program { IsProgram (program_from version channels.items coroutines.items spawns.items) }
    requires main { block_named (codes "main") 0 (map block_of coroutines.items) ≡ Some main }
    requires load { load ≡ whole_load (program_from version channels.items coroutines.items spawns.items) }
    requires short { list_all (λ c. nat_le (length c.code.items) 1048577) coroutines.items ≡ true }
    ensures { IfOk result (λ script. program_of script ≡ program_from version channels.items coroutines.items spawns.items) }
{
    let sizes = all_sizes(alloc, &coroutines)?;
    let tags = tags_in(alloc, &coroutines, &spawns, main)?;
    let closings = all_closings(alloc, &coroutines)?;
    let scopes = load as u16 - tags.len() as u16;
    Ok(Script {
        version,
        channels,
        coroutines,
        spawns,
        sizes,
        tags,
        closings,
        scopes,
    })
}

/// The number of main, where the script may end.
fn main_of(reading: &Reading) -> Result<u16, FaultKind>
    ensures { MayEnd result (view reading.now) }
{
    if reading.current.is_some() {
        return Err(FaultKind::NoEnd);
    }
    match reading.coroutines.place("main") {
        Some(main) => Ok(main),
        None => Err(FaultKind::NoMain),
    }
}

/// The script, after the last line.
pub(crate) fn finished(alloc: Global, reading: Reading) -> Result<Script, FaultKind>
    requires holds { Holds reading }
    requires short { cost (view reading) ≤ 1048577 }
    requires weights { (view reading).weights ≡ weights_from [] (view reading).blocks }
    requires program { (p : Program) → finish (view reading) ≡ Ok p → IsProgram p }
    ensures { GivesUnless program_of result (finish (view reading)) }
{
    let main = main_of(&reading)?;
    let Reading {
        version,
        channels,
        places: _,
        coroutines,
        spawns,
        weights: _,
        current: _,
        load,
    } = reading;
    let Indexed {
        items: channels,
        index: _,
    } = channels;
    let Indexed {
        items: coroutines,
        index: _,
    } = coroutines;
    let script = script_from(alloc, version, channels, coroutines, spawns, main, load)?;
    Ok(script)
}
