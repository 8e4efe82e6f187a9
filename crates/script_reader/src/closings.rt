//! Where what a line opens is closed.

ghost use Rattle.std.specs.Prelude.{◌≡◌, ◌+◌, ◌<◌, IfOk, length, map, nat_le, true, unwrap_or, if◌then◌else◌};
ghost use Rattle.std.specs.List.{list_all};
ghost use Rattle.script_grammar.specs.Blocks.{is_end, opens_lines};
ghost use Rattle.script_grammar.specs.Nesting.{closing_from};
ghost use Rattle.script_reader.specs.Closings.{closing_places};

use crate::script::Coroutine;
use script_grammar::Instruction;
use std::alloc::{AllocError, Global};

/// Whether the line closes what another opens.
pub fn is_end(line: Instruction) -> bool
    ensures { result ≡ is_end line }
{
    matches!(line, Instruction::End)
}

/// Whether lines stand within this one, up to its `end`.
pub fn opens_lines(line: Instruction) -> bool
    ensures { result ≡ opens_lines line }
{
    matches!(
        line,
        Instruction::Repeat { .. }
            | Instruction::Each { .. }
            | Instruction::Scope { .. }
            | Instruction::Select
    )
}

/// The place of the first line that closes one more than the lines before it open; the first of these lines has this place.
fn closing_in(code: &[Instruction], first: u32) -> Option<u32>
    requires { first + length code.now < 4294967296 }
    ensures { result ≡ closing_from 0 first code.now }
{
    let mut depth = 0u32;
    let mut place = first;
    let mut rest = code;
    while let [line, more @ ..] = rest {
        if is_end(*line) {
            if depth == 0 {
                return Some(place);
            }
            depth -= 1;
        } else if opens_lines(*line) {
            depth += 1;
        }
        place += 1;
        rest = more;
    }
    None
}

/// Where what this line opens is closed by the lines after it, or 0; the first of these has this place.
fn closing_after(line: Instruction, code: &[Instruction], first: u32) -> u32
    requires { first + length code.now < 4294967296 }
    ensures { result ≡ (if opens_lines line then unwrap_or (closing_from 0 first code.now) 0 else 0) }
{
    if opens_lines(line) {
        closing_in(code, first).unwrap_or(0)
    } else {
        0
    }
}

/// Of each line the place of that which closes what it opens, or 0 if it opens nothing.
///
/// Each line is looked at once for each of the lines that are open there, of which there are at most nine.
fn closings_in(alloc: Global, code: &[Instruction]) -> Result<Vec<u32>, AllocError>
    requires { length code.now < 4294967295 }
    ensures { IfOk result (λ places. places.items ≡ closing_places code.now) }
{
    let mut places = Vec::new(alloc);
    let mut place = 0u32;
    let mut rest = code;
    while let [line, more @ ..] = rest {
        place += 1;
        places.push(closing_after(*line, more, place))?;
        rest = more;
    }
    Ok(places)
}

/// The same of each block.
pub(crate) fn all_closings(
    alloc: Global,
    coroutines: &[Coroutine],
) -> Result<Vec<Vec<u32>>, AllocError>
    requires { list_all (λ c. nat_le (length c.code.items) 1048577) coroutines.now ≡ true }
    ensures { IfOk result (λ all. map (λ places. places.items) all.items ≡ map (λ c. closing_places c.code.items) coroutines.now) }
{
    let mut all = Vec::new(alloc);
    let mut rest = coroutines;
    while let [coroutine, more @ ..] = rest {
        let places = closings_in(alloc, &coroutine.code)?;
        all.push(places)?;
        rest = more;
    }
    Ok(all)
}
