//! The word of a cell, field by field.
//!
//! | bits | field |
//! |---|---|
//! | 0 to 2 | the state: 0 Free, 1 Receiver, 2 Offer, 3 Buffered, 4 Emptied, 5 Closed, 6 Voided |
//! | 3 to 5 | the clause: 0 of a plain call, 1 to 7 of a select |
//! | 6 | the cell holds its own wait |
//! | 7 to 29 | the coroutine where bit 6 is set, else the number of the cell that holds the wait |
//! | 30, 31 | 0 |
//! | 32 to 63 | the element, or the close value |

ghost use Rattle.std.specs.Prelude.{◌≡◌, ◌≢◌, MatchOption};
ghost use Rattle.word_rules.specs.Codes.{state_code};

use co_base::Value;

/// What became of a place.
#[derive(Clone, Copy, Debug, PartialEq, Eq)]
pub enum CellState {
    /// It was not given out.
    Free,
    Receiver,
    Offer,
    /// An element was put here.
    Buffered,
    /// The element that was kept here was removed.
    Emptied,
    /// The channel was closed where it ended.
    Closed,
    /// And cancelled.
    Voided,
}

/// A cell word.
#[derive(Clone, Copy, Debug, PartialEq, Eq)]
pub struct CellWord {
    pub state: CellState,
    /// At most 7.
    pub clause: u8,
    pub own_wait: bool,
    /// A coroutine or the number of a cell, below 8,388,608.
    pub holder: u32,
    pub value: Value,
}

fn code_of_state(state: CellState) -> u64
    ensures { result ≡ state_code state }
{
    match state {
        CellState::Free => 0,
        CellState::Receiver => 1,
        CellState::Offer => 2,
        CellState::Buffered => 3,
        CellState::Emptied => 4,
        CellState::Closed => 5,
        CellState::Voided => 6,
    }
}

fn state_of_code(code: u64) -> Option<CellState>
    ensures { MatchOption result ((s : CellState) → state_code s ≢ code) (λ s. state_code s ≡ code) }
{
    match code {
        0 => Some(CellState::Free),
        1 => Some(CellState::Receiver),
        2 => Some(CellState::Offer),
        3 => Some(CellState::Buffered),
        4 => Some(CellState::Emptied),
        5 => Some(CellState::Closed),
        6 => Some(CellState::Voided),
        _ => None,
    }
}

impl CellWord {
    ghost use Rattle.std.specs.Prelude.{◌≡◌, ◌≢◌, MatchOption};
    ghost use Rattle.word_rules.specs.Codes.{packed_cell, IsNarrowCell};

    /// The number of a word.
    pub fn pack(self) -> u64
        requires { IsNarrowCell self }
        ensures { result ≡ packed_cell self }
    {
        code_of_state(self.state)
            + 8 * (self.clause as u64)
            + 64 * (self.own_wait as u64)
            + 128 * (self.holder as u64)
            + 4294967296 * (self.value as u64)
    }

    /// The word of a number, if there is one.
    pub fn unpack(number: u64) -> Option<CellWord>
        ensures { MatchOption result
            ((w : CellWord) → IsNarrowCell w → packed_cell w ≢ number)
            (λ w. (packed_cell w ≡ number) × IsNarrowCell w) }
    {
        let state = state_of_code(number % 8)?;
        if number / 1073741824 % 4 != 0 {
            return None;
        }
        Some(CellWord {
            state,
            clause: (number / 8 % 8) as u8,
            own_wait: number / 64 % 2 == 1,
            holder: (number / 128 % 8388608) as u32,
            value: (number / 4294967296) as Value,
        })
    }
}
