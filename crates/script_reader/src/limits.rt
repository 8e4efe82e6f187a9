//! The limits of a script, and the totals that a line leads to.

ghost use Rattle.std.specs.Prelude.{◌≡◌, ◌+◌, ◌-◌, ◌*◌, ◌≤◌, ℕ, List, Option, None, Some, min, option_map, is_some, length, slice_index_or, string_bytes};
ghost use Rattle.script_grammar.specs.Programs.{Declared};
ghost use Rattle.script_grammar.specs.Blocks.{product, own_weight, nest_after, clauses_after};
ghost use Rattle.script_grammar.specs.Reads.{after, main_weight, version_is, channel_is, coroutine_is, spawn_is, line_is, end_is};
ghost use Rattle.script_grammar.specs.Forms.{clause_count};
ghost use Rattle.script_reader.specs.Limits.{IsUpTo, AreTotals, GivesTotals};
ghost use Rattle.script_reader.specs.Reading.{view, said, open_of};
ghost use Rattle.script_reader.specs.Holding.{Holds, IsSaid};

use crate::form::Spoken;
use crate::place::names_main;
use crate::reading::{OpenBlock, Reading};
use script_grammar::{FaultKind, Instruction};

/// The most channels of a script.
const MOST_CHANNELS: usize = 256;

/// The most places of all its channels together.
const MOST_PLACES: u64 = 4_194_304;

/// The most coroutines and scopes: the most that a block weighs, and `main` with all that is spawned.
pub(crate) const MOST_JOBS: u32 = 16_000;

/// So many turns are more than any limit allows.
pub(crate) const TOO_MANY_TURNS: u32 = MOST_JOBS + 1;

/// The most lines that stand in one another and need an end each.
const MOST_DEPTH: usize = 8;

/// The most clauses of a select.
const MOST_CLAUSES: usize = 7;

/// What is counted of a script: the places of all channels, the weight of the open block, and the load.
#[derive(Clone, Copy)]
pub(crate) struct Totals {
    pub(crate) places: u32,
    pub(crate) weight: u16,
    pub(crate) load: u32,
}

/// How often lines run that stand within lines which run so often, or 16,001 where that is more.
pub(crate) fn turns_within(nest: &[u32]) -> u32
    ensures { result ≡ min (product nest.now) 16001 }
{
    let mut turns = 1u32;
    let mut rest = nest;
    while let [more, outer @ ..] = rest {
        let product = u64::from(turns) * u64::from(*more);
        turns = if product > u64::from(TOO_MANY_TURNS) {
            TOO_MANY_TURNS
        } else {
            product as u32
        };
        rest = outer;
    }
    turns
}

/// The number of a block in a table, or 0 where it has none.
pub(crate) fn number_at(table: &[u16], block: u16) -> u16
    ensures { result ≡ slice_index_or table.now block 0 }
{
    match table.get(block as usize) {
        Some(number) => *number,
        None => 0,
    }
}

/// What a line weighs that runs once, if the blocks before have these weights.
fn own_weight(weights: &[u16], line: Instruction) -> u16
    ensures { result ≡ own_weight weights.now line }
{
    match line {
        Instruction::Launch { block, .. } => number_at(weights, block),
        Instruction::Scope { .. } => 1,
        _ => 0,
    }
}

/// The weight of a block with one more line, or a number above 16,000 where the weight is above it too.
fn grown(block: &OpenBlock, own: u16) -> u32
    requires { block.now.weight ≤ 16000 }
    ensures { IsUpTo 16000 result (block.now.weight + product block.now.nest.items * own) }
{
    if own == 0 {
        return u32::from(block.weight);
    }
    u32::from(block.weight) + turns_within(&block.nest) * u32::from(own)
}

/// How many lines are open that opened others, after this line.
fn depth_after(nest: &[u32], selecting: bool, line: Instruction) -> usize
    requires { length nest.now ≤ 8 }
    ensures { (clauses : Option (List ℕ)) → selecting ≡ is_some clauses → result ≡ length (nest_after clauses nest.now line) }
{
    match line {
        Instruction::End => {
            if selecting || nest.is_empty() {
                nest.len()
            } else {
                nest.len() - 1
            }
        }
        Instruction::Repeat { .. } => nest.len() + 1,
        Instruction::Each { .. } => nest.len() + 1,
        Instruction::Scope { .. } => nest.len() + 1,
        _ => nest.len(),
    }
}

/// How many clauses the select has that is open after this line.
fn clauses_after(clauses: &Option<Vec<u16>>, line: Instruction) -> usize
    requires { clause_count (option_map (λ v. v.items) clauses.now) ≤ 7 }
    ensures { result ≡ clause_count (clauses_after (option_map (λ v. v.items) clauses.now) line) }
{
    match (clauses, line) {
        (_, Instruction::Select) => 0,
        (_, Instruction::End) => 0,
        (None, _) => 0,
        (Some(channels), Instruction::OnSend { .. }) => channels.len() + 1,
        (Some(channels), Instruction::OnReceive { .. }) => channels.len() + 1,
        (Some(channels), _) => channels.len(),
    }
}

/// The totals that stay.
fn same_totals(reading: &Reading) -> Totals
    requires { Holds reading.now }
    ensures { AreTotals result (view reading.now) }
{
    let weight = match &reading.current {
        None => 0,
        Some(block) => block.weight,
    };
    Totals {
        places: reading.places,
        weight,
        load: reading.load,
    }
}

/// The totals of the script as one of version 2.
fn version_totals(reading: &Reading) -> Totals
    requires { Holds reading.now }
    ensures { AreTotals result (after version_is (view reading.now)) }
{
    same_totals(reading)
}

/// The totals with one more channel of so many places.
fn channel_totals(reading: &Reading, places: u32) -> Result<Totals, FaultKind>
    requires { Holds reading.now }
    ensures { (c : Declared) → c.places ≡ places → GivesTotals result (after (channel_is c) (view reading.now)) }
{
    let all = u64::from(reading.places) + u64::from(places);
    if reading.channels.items.len() >= MOST_CHANNELS {
        return Err(FaultKind::TooMany);
    }
    if all > MOST_PLACES {
        return Err(FaultKind::TooMany);
    }
    let old = same_totals(reading);
    Ok(Totals {
        places: all as u32,
        weight: old.weight,
        load: old.load,
    })
}

/// The totals with a new block of this name.
fn block_totals(reading: &Reading, name: &str) -> Result<Totals, FaultKind>
    requires holds { Holds reading.now }
    requires closed { reading.now.current ≡ None }
    ensures { GivesTotals result (after (coroutine_is name.now) (view reading.now)) }
{
    let load = if names_main(name.as_bytes()) {
        reading.load + 1
    } else {
        reading.load
    };
    if load > MOST_JOBS {
        return Err(FaultKind::TooMany);
    }
    Ok(Totals {
        places: reading.places,
        weight: 1,
        load,
    })
}

/// The weight of a closed block.
fn weight_of(reading: &Reading, block: u16) -> u16
    ensures { result ≡ slice_index_or (view reading.now).weights block 0 }
{
    number_at(&reading.weights, block)
}

/// The totals with so many instances of a block more.
fn spawn_totals(reading: &Reading, block: u16, count: u16) -> Result<Totals, FaultKind>
    requires { Holds reading.now }
    ensures { GivesTotals result (after (spawn_is block count) (view reading.now)) }
{
    let load = u64::from(reading.load) + u64::from(count) * u64::from(weight_of(reading, block));
    if load > u64::from(MOST_JOBS) {
        return Err(FaultKind::TooMany);
    }
    let old = same_totals(reading);
    Ok(Totals {
        places: old.places,
        weight: old.weight,
        load: load as u32,
    })
}

/// The load, if the open block grows to this weight.
fn grown_load(reading: &Reading, block: &OpenBlock, weight: u32) -> u32
    requires grown { block.now.weight ≤ weight }
    requires light { weight ≤ 16000 }
    requires loaded { reading.now.load ≤ 16000 }
    ensures { result ≡ reading.now.load + main_weight (string_bytes block.now.name) (weight - block.now.weight) }
{
    if names_main(block.name.as_bytes()) {
        reading.load + (weight - u32::from(block.weight))
    } else {
        reading.load
    }
}

/// The totals with one more line of the open block.
fn line_totals(reading: &Reading, block: &OpenBlock, line: Instruction) -> Result<Totals, FaultKind>
    requires holds { Holds reading.now }
    requires current { (view reading.now).current ≡ Some (open_of block.now) }
    ensures { (job : Option (List ℕ)) → GivesTotals result (after (line_is line job) (view reading.now)) }
{
    if depth_after(&block.nest, block.clauses.is_some(), line) > MOST_DEPTH {
        return Err(FaultKind::TooDeep);
    }
    if clauses_after(&block.clauses, line) > MOST_CLAUSES {
        return Err(FaultKind::TooMany);
    }
    let weight = grown(block, own_weight(&reading.weights, line));
    if weight > MOST_JOBS {
        return Err(FaultKind::TooMany);
    }
    let load = grown_load(reading, block, weight);
    if load > MOST_JOBS {
        return Err(FaultKind::TooMany);
    }
    Ok(Totals {
        places: reading.places,
        weight: weight as u16,
        load,
    })
}

/// The totals with the end of the open block.
fn end_totals(reading: &Reading) -> Totals
    requires { Holds reading.now }
    ensures { AreTotals result (after end_is (view reading.now)) }
{
    Totals {
        places: reading.places,
        weight: 0,
        load: reading.load,
    }
}

/// The totals that a line leads to, or its fault where it leads beyond the limits.
pub(crate) fn totals_after(reading: &Reading, form: &Spoken<'_>) -> Result<Totals, FaultKind>
    requires holds { Holds reading.now }
    requires said { IsSaid (view reading.now) (said form.now) }
    ensures { GivesTotals result (after (said form.now) (view reading.now)) }
{
    match form {
        Spoken::Version => Ok(version_totals(reading)),
        Spoken::Channel(_, _, places) => channel_totals(reading, *places),
        Spoken::Coroutine(name) => block_totals(reading, *name),
        Spoken::Spawn(block, count) => spawn_totals(reading, *block, *count),
        Spoken::Line(line, _) => match &reading.current {
            Some(block) => line_totals(reading, block, *line),
            None => Ok(same_totals(reading)),
        },
        Spoken::End => Ok(end_totals(reading)),
    }
}
