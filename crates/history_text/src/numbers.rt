//! The line before a history.

ghost use Rattle.std.specs.Prelude.{◌≡◌, ◌<◌, ◌≤◌, ◌+◌, option_map};
ghost use Rattle.report_reader.specs.Words.{texts};
ghost use Rattle.history_text.specs.Numbers.{name_numbers, numbers_by, numbers_with, shape_by, shape_of};

use crate::job_numbers::JobNumbers;
use crate::words::tag_at;

/// So many, if there may be so many.
fn numbers_with(coroutines: Option<u16>, scopes: Option<u16>) -> Option<JobNumbers>
    ensures { option_map shape_of result ≡ numbers_with coroutines scopes }
{
    let coroutines = coroutines?;
    let scopes = scopes?;
    if coroutines == 0 {
        return None;
    }
    if coroutines as u32 + scopes as u32 <= 16000 {
        Some(JobNumbers { coroutines, scopes })
    } else {
        None
    }
}

/// Whether these words say what the two numbers are.
fn name_numbers(first: &[u8], second: &[u8]) -> bool
    ensures { result ≡ name_numbers first.now second.now }
{
    first == b"coroutines".as_slice() && second == b"scopes".as_slice()
}

/// The numbers behind the word `history`, or those of a root alone.
fn numbers_by(words: &[&[u8]]) -> Option<JobNumbers>
    ensures { option_map shape_of result ≡ numbers_by (texts words.now) }
{
    if words.is_empty() {
        return Some(JobNumbers {
            coroutines: 1,
            scopes: 0,
        });
    }
    let [first, coroutines, second, scopes] = words else {
        return None;
    };
    if name_numbers(*first, *second) {
        numbers_with(tag_at(*coroutines), tag_at(*scopes))
    } else {
        None
    }
}

/// The numbers that the line before a history has, if these are its words.
pub(crate) fn shape_by(words: &[&[u8]]) -> Option<JobNumbers>
    ensures { option_map shape_of result ≡ shape_by (texts words.now) }
{
    let [mark, rest @ ..] = words else {
        return None;
    };
    if *mark == b"history".as_slice() {
        numbers_by(rest)
    } else {
        None
    }
}
