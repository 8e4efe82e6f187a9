//! The link word of a row, field by field.
//!
//! | bits | field |
//! |---|---|
//! | 0 to 13 | the parent |
//! | 14 to 27 | the child of the same parent that was attached before this one, 0 for none |
//! | 28 to 43 | the tag of the coroutine that the Job is of |
//! | 44, 45, 46 | supervisor, scoped, lazy |
//! | 47 | a hint: the row was attached. It is raised some time after that, and never set before |

use co_base::{Row, Tag};
use job_model::JobKind;

/// A link word.
#[derive(Clone, Copy)]
pub struct LinkWord {
    /// At most 16,383.
    pub parent: Row,
    /// The next older child of the parent, at most 16,383. 0 is none, since the root is nobody's child.
    pub next: Row,
    pub tag: Tag,
    pub kind: JobKind,
    /// The row is attached. Where this is false, it may be attached or not.
    pub disclosed: bool,
}

impl LinkWord {
    ghost use Rattle.std.specs.Prelude.{◌≡◌, ◌≢◌, ◌<◌, ◌≤◌, MatchOption};
    ghost use Rattle.word_rules.specs.Rows.{link_code, IsNarrowLink};

    /// The number of a word.
    pub fn pack(self) -> u64
        requires { IsNarrowLink self }
        ensures { result ≡ link_code self }
    {
        (self.parent as u64)
            + 16384 * (self.next as u64)
            + 268435456 * (self.tag as u64)
            + 17592186044416 * (self.kind.supervisor as u64)
            + 35184372088832 * (self.kind.scoped as u64)
            + 70368744177664 * (self.kind.lazy as u64)
            + 140737488355328 * (self.disclosed as u64)
    }

    /// The word of a number, if there is one.
    pub fn unpack(number: u64) -> Option<LinkWord>
        ensures none { MatchOption result (281474976710656 ≤ number) (λ w. number < 281474976710656) }
        ensures word { MatchOption result ((w : LinkWord) → IsNarrowLink w → link_code w ≢ number)
            (λ w. (link_code w ≡ number) × IsNarrowLink w) }
    {
        if number >= 281474976710656 {
            return None;
        }
        Some(LinkWord {
            parent: (number % 16384) as u16,
            next: (number / 16384 % 16384) as u16,
            tag: (number / 268435456 % 65536) as u16,
            kind: JobKind {
                supervisor: number / 17592186044416 % 2 == 1,
                scoped: number / 35184372088832 % 2 == 1,
                lazy: number / 70368744177664 % 2 == 1,
            },
            disclosed: number / 140737488355328 == 1,
        })
    }
}
