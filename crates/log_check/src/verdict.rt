//! What is said of an input.

use job_model::End;
use script_grammar::ScriptFault;

/// What is said of a log. Its lines are numbered from 1.
#[derive(Clone, Copy)]
pub enum LogVerdict {
    /// It is the log of a run that came to rest, and the root's Job ended so, if it did.
    Stands(Option<End>),
    /// The act of this line may not come.
    MayNotCome(usize),
    /// What this line says does not hold.
    NotSo(usize),
    /// This line is no item of a coroutine.
    NoItem(u32),
    /// No order of whole polls was found in which this line is written. Nothing is claimed.
    NotShown(usize),
}

/// What is said of a report. Its lines are numbered from 1.
#[derive(Clone, Copy)]
pub enum ReportVerdict {
    /// It is the report of a run that came to rest, and the root's Job ended so, if it did.
    Stands(Option<End>),
    /// No order of whole polls was found in which this line is written. Nothing is claimed.
    NotFound(usize),
}

/// What is said of a script, and of what is judged by it.
#[derive(Clone, Copy)]
pub enum ScriptVerdict {
    Log(LogVerdict),
    Report(ReportVerdict),
    /// The script has this fault.
    Fault(ScriptFault),
}

/// The log of a run that was made.
#[derive(Drop)]
pub enum Logged {
    /// This is its text, which stands, and the root's Job ended so, if it did.
    Log(Vec<u8>, Option<End>),
    /// It does not stand, or has more than 67,108,864 bytes. Nothing is claimed.
    NotShown,
    /// The script has this fault.
    Fault(ScriptFault),
}

/// What is said of an input, and for a reader, without any promise, what is known of the line where that stops: a line of words, or
/// nothing.
#[derive(Drop)]
pub struct Judged {
    pub verdict: ScriptVerdict,
    pub hint: Vec<u8>,
}
