//! How a coroutine goes on.

use co_base::{Row, WaitId};

/// How a coroutine goes on.
///
/// | stage | goes on with | then |
/// |---|---|---|
/// | `Fresh` | a look at its own Job | `Running`, or `Unwinding` |
/// | `Running` | its line | `Running`, `Waiting`, `SeesJob`, `Leaving`, `SeesScope`, `Unwinding` or `Ended` |
/// | `Waiting` | the end of its wait | as its line after that answer, or `Unwinding` |
/// | `SeesJob` | a look at the Job that it awaited | `Running` or `Unwinding` |
/// | `Unwinding` | the end of its innermost scope, or of its body | `Leaving`, `SeesScope` or `Unwinding`; `Ended` |
/// | `Leaving` | the end of its wait | `SeesScope` |
/// | `SeesScope` | a look at the Job of its innermost scope | `Running` or `Unwinding` |
/// | `Ended` | nothing | |
#[derive(Clone, Copy, Debug, PartialEq, Eq)]
pub enum Stage {
    /// It has not run a line.
    Fresh,
    /// It goes on with its line.
    Running,
    /// The call of its line waits.
    Waiting(WaitId),
    /// Its `await` met the closed done channel, and has to see how the Job ended.
    SeesJob,
    /// It unwinds: by the failure of this row, or as cancelled.
    Unwinding(Option<Row>),
    /// It waits at the end of its innermost scope.
    Leaving(WaitId),
    /// The done channel of its innermost scope is closed, and it has to see how the scope ended.
    SeesScope,
    /// Its body has ended.
    Ended,
}
