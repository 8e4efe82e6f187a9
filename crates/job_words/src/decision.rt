//! What is decided on a Job word.

use job_model::JobAct;
use word_rules::JobWord;

/// What is decided on a Job word.
#[derive(Clone, Copy)]
pub enum Decision<T> {
    /// The word stays, and this is the answer.
    Keep(T),
    /// The act is made by turning the word into `new`; then this is the answer.
    Change {
        new: JobWord,
        act: JobAct,
        answer: T,
    },
}
