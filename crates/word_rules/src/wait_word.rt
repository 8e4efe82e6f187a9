//! The word of a wait, field by field.
//!
//! | bits | field |
//! |---|---|
//! | 0 to 2 | who resolved it: 0 nobody, 1 Hand, 2 Take, 3 Admit, 4 Close, 5 Cancel, 6 Revoke, 7 Void |
//! | 3 to 5 | the clause at which it was resolved |
//! | 6 | its coroutine has settled it |
//! | 7 | and was cancelled then |
//! | 8 to 31 | 0 |
//! | 32 to 63 | the element that it was handed, or the close value |
//!
//! So the word of a wait that stands is 0.

ghost use Rattle.std.specs.Prelude.{◌≡◌, ◌<◌};
ghost use Rattle.word_rules.specs.Codes.{resolver_code};

use co_base::Value;

/// Which act resolved a wait.
#[derive(Clone, Copy, Debug, PartialEq, Eq)]
pub enum ResolvedBy {
    Nobody,
    Hand,
    Take,
    Admit,
    Close,
    /// Its coroutine withdrew it, since its Job was cancelled.
    Cancel,
    /// Its coroutine withdrew it for another reason.
    Revoke,
    Void,
}

/// A wait word.
#[derive(Clone, Copy, Debug, PartialEq, Eq)]
pub struct WaitWord {
    pub by: ResolvedBy,
    /// At most 7.
    pub clause: u8,
    pub settled: bool,
    pub cancelled: bool,
    pub value: Value,
}

fn code_of_resolver(by: ResolvedBy) -> u64
    ensures { result ≡ resolver_code by }
{
    match by {
        ResolvedBy::Nobody => 0,
        ResolvedBy::Hand => 1,
        ResolvedBy::Take => 2,
        ResolvedBy::Admit => 3,
        ResolvedBy::Close => 4,
        ResolvedBy::Cancel => 5,
        ResolvedBy::Revoke => 6,
        ResolvedBy::Void => 7,
    }
}

fn resolver_of_code(code: u64) -> ResolvedBy
    requires { code < 8 }
    ensures { resolver_code result ≡ code }
{
    match code {
        0 => ResolvedBy::Nobody,
        1 => ResolvedBy::Hand,
        2 => ResolvedBy::Take,
        3 => ResolvedBy::Admit,
        4 => ResolvedBy::Close,
        5 => ResolvedBy::Cancel,
        6 => ResolvedBy::Revoke,
        _ => ResolvedBy::Void,
    }
}

impl WaitWord {
    ghost use Rattle.std.specs.Prelude.{◌≡◌, ◌≢◌, MatchOption};
    ghost use Rattle.word_rules.specs.Codes.{packed_wait, IsNarrowWait};

    /// The number of a word.
    pub fn pack(self) -> u64
        requires { IsNarrowWait self }
        ensures { result ≡ packed_wait self }
    {
        code_of_resolver(self.by)
            + 8 * (self.clause as u64)
            + 64 * (self.settled as u64)
            + 128 * (self.cancelled as u64)
            + 4294967296 * (self.value as u64)
    }

    /// The word of a number, if there is one.
    pub fn unpack(number: u64) -> Option<WaitWord>
        ensures { MatchOption result
            ((w : WaitWord) → IsNarrowWait w → packed_wait w ≢ number)
            (λ w. (packed_wait w ≡ number) × IsNarrowWait w) }
    {
        if number / 256 % 16777216 != 0 {
            return None;
        }
        Some(WaitWord {
            by: resolver_of_code(number % 8),
            clause: (number / 8 % 8) as u8,
            settled: number / 64 % 2 == 1,
            cancelled: number / 128 % 2 == 1,
            value: (number / 4294967296) as Value,
        })
    }
}
