//! The Job word of a row, field by field.
//!
//! | bits | field |
//! |---|---|
//! | 0 to 2 | the state: 1 New, 2 Active, 3 Completing, 4 Cancelling, 5 Cancelled, 6 Completed |
//! | 3 | the body has ended |
//! | 4 to 17 | the newest child, 0 for none |
//! | 18 to 31 | the number of children that live |
//! | 32 to 63 | in Completing and Completed the result; in Cancelling and Cancelled bit 32 says failure, and bits 33 to 46 are its row |
//!
//! The numbers 0 and 7 are no Job words: 0 is a row that nobody claimed, and 7 one that was claimed and has no word yet.

ghost use Rattle.std.specs.Prelude.{◌≡◌, ◌≢◌, MatchOption};
ghost use Rattle.word_rules.specs.Rows.{state_code};

use co_base::Row;
use job_model::JobState;

/// A Job word.
#[derive(Clone, Copy)]
pub struct JobWord {
    pub state: JobState,
    pub body_ended: bool,
    /// The newest child, at most 16,383. 0 is none, since the root is nobody's child.
    pub first_child: Row,
    /// The number of children that live, at most 16,383.
    pub living: u16,
    /// The result in Completing and Completed, the cause in Cancelling and Cancelled, else 0.
    pub rest: u32,
}

fn code_of_state(state: JobState) -> u64
    ensures { result ≡ state_code state }
{
    match state {
        JobState::New => 1,
        JobState::Active => 2,
        JobState::Completing => 3,
        JobState::Cancelling => 4,
        JobState::Cancelled => 5,
        JobState::Completed => 6,
    }
}

fn state_of_code(code: u64) -> Option<JobState>
    ensures { MatchOption result ((s : JobState) → state_code s ≢ code) (λ s. state_code s ≡ code) }
{
    match code {
        1 => Some(JobState::New),
        2 => Some(JobState::Active),
        3 => Some(JobState::Completing),
        4 => Some(JobState::Cancelling),
        5 => Some(JobState::Cancelled),
        6 => Some(JobState::Completed),
        _ => None,
    }
}

impl JobWord {
    ghost use Rattle.std.specs.Prelude.{◌≡◌, ◌≢◌, MatchOption};
    ghost use Rattle.word_rules.specs.Rows.{job_code, IsNarrow};

    /// The number of a word.
    pub fn pack(self) -> u64
        requires { IsNarrow self }
        ensures { result ≡ job_code self }
    {
        code_of_state(self.state)
            + 8 * (self.body_ended as u64)
            + 16 * (self.first_child as u64)
            + 262144 * (self.living as u64)
            + 4294967296 * (self.rest as u64)
    }

    /// The word of a number, if there is one.
    pub fn unpack(number: u64) -> Option<JobWord>
        ensures { MatchOption result ((w : JobWord) → job_code w ≢ number) (λ w. (job_code w ≡ number) × IsNarrow w) }
    {
        let state = state_of_code(number % 8)?;
        Some(JobWord {
            state,
            body_ended: number / 8 % 2 == 1,
            first_child: (number / 16 % 16384) as u16,
            living: (number / 262144 % 16384) as u16,
            rest: (number / 4294967296) as u32,
        })
    }
}
