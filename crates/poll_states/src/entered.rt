//! What a coroutine has entered and not left.

ghost use Rattle.poll_states.specs.Frames.{stack_of, IsScopeOf};

use co_base::Row;

/// What a coroutine has entered and not left; each names the line at which it begins.
#[derive(Clone, Copy)]
pub enum Entered {
    /// A repeat, with the number of turns to come after this one.
    InRepeat { head: usize, left: u32 },
    /// An each, in one of its turns.
    InEach { head: usize },
    /// A scope, with its row.
    InScope { head: usize, row: Row },
}

/// A scope that was entered: the line at which it begins, and its row.
#[derive(Clone, Copy)]
pub(crate) struct OpenScope {
    pub(crate) head: usize,
    pub(crate) row: Row,
}

/// The innermost scope of what was entered, the innermost last.
pub(crate) fn scope_of(entered: &[Entered]) -> Option<OpenScope>
    ensures { IsScopeOf (stack_of entered.now) result }
{
    let mut scope = None;
    let mut rest = entered;
    while let [one, more @ ..] = rest {
        if let Entered::InScope { head, row } = *one {
            scope = Some(OpenScope { head, row });
        }
        rest = more;
    }
    scope
}
