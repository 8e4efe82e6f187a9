//! What a line adds to the script so far.

ghost use Rattle.std.specs.Prelude.{◌≡◌, ◌<◌, ◌++◌, ◌∷◌, [], ℕ, List, OnOk, IfOk, Some, if◌then◌else◌, length, map, option_map, string_bytes};
ghost use Rattle.script_grammar.specs.Blocks.{gives_awaitable, listed, opened, with_line};
ghost use Rattle.script_grammar.specs.Programs.{channel_names};
ghost use Rattle.script_grammar.specs.Reads.{after, start, end_is};
ghost use Rattle.script_reader.specs.Programs.{declared_of};
ghost use Rattle.script_reader.specs.Reading.{view, said, open_of, name_in, HasFewJobs};
ghost use Rattle.script_reader.specs.Entering.{IsNewName, IsNewJob, HasRoom, CanEnter, weight_with};
ghost use Rattle.script_reader.specs.Holding.{IsNewBlock};
ghost use Rattle.script_reader.specs.Limits.{open_weight};

use crate::form::Spoken;
use crate::names::Indexed;
use crate::nesting::{enter_clause, enter_nest};
use crate::reading::{OpenBlock, Reading};
use crate::script::{Channel, Coroutine, Spawn};
use channel_model::Kind;
use script_grammar::{Instruction, Launching};
use std::alloc::{AllocError, Global};

/// The script before its first line.
pub(crate) fn empty(alloc: Global) -> Reading
    ensures view { view result ≡ start }
    ensures places { result.places ≡ 0 }
    ensures load { result.load ≡ 0 }
{
    Reading {
        version: 1,
        channels: Indexed::new(alloc),
        places: 0,
        coroutines: Indexed::new(alloc),
        spawns: Vec::new(alloc),
        weights: Vec::new(alloc),
        current: None,
        load: 0,
    }
}

fn gives_awaitable(line: Instruction) -> bool
    ensures { result ≡ gives_awaitable line }
{
    matches!(
        line,
        Instruction::Launch {
            how: Launching::Async | Launching::Lazy,
            ..
        }
    )
}

fn push_name(
    alloc: Global,
    names: &mut Indexed<String>,
    name: Option<&str>,
) -> Result<(), AllocError>
    requires new { IsNewName (map string_bytes names.old.items.items) (name_in name) }
    requires few { length names.old.items.items < 65536 }
    ensures { OnOk result (map string_bytes names.new.items.items ≡ map string_bytes names.old.items.items ++ listed (name_in name.entry)) }
{
    match name {
        Some(name) => {
            let name = String::from_str(alloc, name)?;
            names.push(alloc, name)
        }
        None => Ok(()),
    }
}

fn push_awaitable(
    awaitable: &mut Vec<bool>,
    named: bool,
    line: Instruction,
) -> Result<(), AllocError>
    ensures { OnOk result (awaitable.new.items
        ≡ (if named then awaitable.old.items ++ gives_awaitable line ∷ [] else awaitable.old.items)) }
{
    if named {
        awaitable.push(gives_awaitable(line))?;
    }
    Ok(())
}

/// Adds a line to a block, and the new name of its Job. The weight is that of the block with it.
fn enter_line(
    alloc: Global,
    block: &mut OpenBlock,
    line: Instruction,
    job: Option<&str>,
    weight: u16,
) -> Result<(), AllocError>
    requires new { IsNewName (map string_bytes block.old.jobs.items.items) (name_in job) }
    requires few { length block.old.jobs.items.items < 65536 }
    ensures { OnOk result ((weights : List ℕ)
        → weight ≡ weight_with weights line (open_of block.old)
        → open_of block.new ≡ with_line weights line (name_in job.entry) (open_of block.old)) }
{
    let selecting = block.clauses.is_some();
    enter_nest(&mut block.nest, selecting, line)?;
    enter_clause(alloc, &mut block.clauses, line)?;
    push_awaitable(&mut block.awaitable, job.is_some(), line)?;
    push_name(alloc, &mut block.jobs, job)?;
    block.code.push(line)?;
    block.weight = weight;
    Ok(())
}

/// Adds a line to the block that is open.
fn enter_open(
    alloc: Global,
    current: &mut Option<OpenBlock>,
    line: Instruction,
    job: Option<&str>,
    weight: u16,
) -> Result<(), AllocError>
    requires new { IsNewJob (option_map open_of current.old) (name_in job) }
    requires few { HasFewJobs current.old }
    ensures { OnOk result ((weights : List ℕ)
        → weight ≡ open_weight (option_map (with_line weights line (name_in job.entry)) (option_map open_of current.old))
        → option_map open_of current.new ≡ option_map (with_line weights line (name_in job.entry)) (option_map open_of current.old)) }
{
    match current {
        Some(block) => enter_line(alloc, block, line, job, weight),
        None => Ok(()),
    }
}

/// The block of this name, after its first line.
fn opened(alloc: Global, name: &str) -> Result<OpenBlock, AllocError>
    ensures { IfOk result (λ block. open_of block ≡ opened name.now) }
{
    let name = String::from_str(alloc, name)?;
    Ok(OpenBlock {
        name,
        jobs: Indexed::new(alloc),
        awaitable: Vec::new(alloc),
        code: Vec::new(alloc),
        nest: Vec::new(alloc),
        clauses: None,
        weight: 1,
    })
}

/// Adds a channel of a new name.
#[tactic(auto, using(crate::proofs::NameTexts::names_of_channels))]
fn enter_channel(
    alloc: Global,
    channels: &mut Indexed<Channel>,
    name: &str,
    kind: Kind,
    places: u32,
) -> Result<(), AllocError>
    requires new { IsNewName (channel_names (map declared_of channels.old.items.items)) (Some name.now) }
    requires few { length channels.old.items.items < 65536 }
    ensures { OnOk result (map declared_of channels.new.items.items
        ≡ map declared_of channels.old.items.items ++ record { name = name.now; kind = kind; places = places } ∷ []) }
{
    let name = String::from_str(alloc, name)?;
    channels.push(alloc, Channel { name, kind, places })
}

/// Closes the block that is open.
#[tactic(auto, using(crate::proofs::NameTexts::names_of_blocks))]
fn enter_end(alloc: Global, reading: &mut Reading) -> Result<(), AllocError>
    requires new { IsNewBlock (view reading.old).blocks (view reading.old).current }
    requires few { HasRoom (length reading.old.coroutines.items.items) (view reading.old).current }
    ensures { OnOk result (view reading.new ≡ after end_is (view reading.old)) }
{
    let Some(block) = reading.current.take() else {
        return Ok(());
    };
    let OpenBlock {
        name,
        jobs,
        awaitable: _,
        code,
        nest: _,
        clauses: _,
        weight,
    } = block;
    let Indexed {
        items: jobs,
        index: _,
    } = jobs;
    reading.weights.push(weight)?;
    reading
        .coroutines
        .push(alloc, Coroutine { name, jobs, code })
}

/// Adds a line. The weight is that of the block that is open after it.
pub(crate) fn enter(
    alloc: Global,
    reading: &mut Reading,
    form: Spoken<'_>,
    weight: u16,
) -> Result<(), AllocError>
    requires can { CanEnter (view reading.old) (said form) }
    requires jobs { HasFewJobs reading.old.current }
    requires channels { length reading.old.channels.items.items < 65536 }
    requires blocks { HasRoom (length reading.old.coroutines.items.items) (view reading.old).current }
    requires weight { weight ≡ open_weight (after (said form) (view reading.old)).current }
    ensures view { OnOk result (view reading.new ≡ after (said form.entry) (view reading.old)) }
{
    match form {
        Spoken::Version => {
            reading.version = 2;
            Ok(())
        }
        Spoken::Channel(name, kind, places) => {
            enter_channel(alloc, &mut reading.channels, name, kind, places)
        }
        Spoken::Coroutine(name) => {
            let block = opened(alloc, name)?;
            reading.current = Some(block);
            Ok(())
        }
        Spoken::Spawn(coroutine, count) => {
            reading.spawns.push(Spawn { coroutine, count })?;
            Ok(())
        }
        Spoken::Line(line, job) => enter_open(alloc, &mut reading.current, line, job, weight),
        Spoken::End => enter_end(alloc, reading),
    }
}
