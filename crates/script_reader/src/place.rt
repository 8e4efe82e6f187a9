//! What stands at each place of a line, from left to right.
//!
//! A reader answers what it read, and the words after it. Who reads on does so in a `match` on the answer: behind a `?` the proof takes
//! twice as long.

ghost use Rattle.std.specs.Prelude.{◌≡◌, ◌≤◌, ◌∷◌, ℕ, List, IfOk, map, true, string_bytes};
ghost use Rattle.std.specs.Str.{all_ascii_digits};
ghost use Rattle.std.specs.List.{list_all};
ghost use Rattle.script_grammar.specs.Words.{texts};
ghost use Rattle.script_grammar.specs.Blocks.{is_main};
ghost use Rattle.script_grammar.specs.Grammar.{is_name, is_name_byte};
ghost use Rattle.script_grammar.specs.Places.{is_number, number_at, value_at, operand_at, name_at, new_at, known_at, other_than_main, job_named, job_at};
ghost use Rattle.script_reader.specs.Answers.{Gives};
ghost use Rattle.script_reader.specs.Reading.{name_in};

use crate::names::{Indexed, Named};
use script_grammar::{FaultKind, Operand};

fn all_digits(word: &[u8]) -> bool
    ensures { result ≡ all_ascii_digits word.now }
{
    let mut rest = word;
    while let [byte, more @ ..] = rest {
        if !byte.is_ascii_digit() {
            return false;
        }
        rest = more;
    }
    true
}

fn well_written(word: &[u8]) -> bool
    ensures { result ≡ is_number word.now }
{
    match word {
        [first, rest @ ..] => all_digits(word)
            && rest.len() < 10
            && (rest.is_empty() || *first != b'0'),
        [] => false,
    }
}

/// The value of a decimal number, if it is written as one: digits alone, no leading zero but in `0`, and at most 4,294,967,295.
pub fn value_of(word: &[u8]) -> Option<u32>
    ensures { result ≡ value_at word.now }
{
    if !well_written(word) {
        return None;
    }
    let Ok(text) = str::from_utf8(word) else {
        unreachable!();
    };
    text.parse().ok()
}

pub(crate) fn number_of<'a, 'b>(
    low: u32,
    high: u32,
    words: &'b [&'a [u8]],
) -> Result<(u32, &'b [&'a [u8]]), FaultKind>
    ensures read { Gives (λ x. (x.0, texts x.1.now)) result (number_at low high (texts words.now)) }
    ensures few { IfOk result (λ x. x.0 ≤ high) }
{
    let [word, rest @ ..] = words else {
        return Err(FaultKind::BadNumber);
    };
    match value_of(*word) {
        Some(value) if low <= value && value <= high => Ok((value, rest)),
        _ => Err(FaultKind::BadNumber),
    }
}

/// What this word says that is sent, or is the result.
fn operand_in(word: &[u8]) -> Result<Operand, FaultKind>
    ensures { (rest : List (List ℕ)) → Gives (λ x. (x, rest)) result (operand_at (word.now ∷ rest)) }
{
    if word == b"it".as_slice() {
        Ok(Operand::It)
    } else if word == b"sum".as_slice() {
        Ok(Operand::Sum)
    } else {
        match value_of(word) {
            Some(value) => Ok(Operand::Number(value)),
            None => Err(FaultKind::BadNumber),
        }
    }
}

/// What is sent, or is the result, and the words after it.
pub(crate) fn operand_of<'a, 'b>(
    words: &'b [&'a [u8]],
) -> Result<(Operand, &'b [&'a [u8]]), FaultKind>
    ensures { Gives (λ x. (x.0, texts x.1.now)) result (operand_at (texts words.now)) }
{
    match words {
        [word, rest @ ..] => match operand_in(*word) {
            Ok(operand) => Ok((operand, rest)),
            Err(kind) => Err(kind),
        },
        [] => Err(FaultKind::BadNumber),
    }
}

fn name_byte(byte: u8) -> bool
    ensures { result ≡ is_name_byte byte }
{
    byte.is_ascii_lowercase() || byte.is_ascii_digit() || byte == b'_'
}

fn all_name(word: &[u8]) -> bool
    ensures { result ≡ list_all is_name_byte word.now }
{
    let mut rest = word;
    while let [byte, more @ ..] = rest {
        if !name_byte(*byte) {
            return false;
        }
        rest = more;
    }
    true
}

fn well_named(word: &[u8]) -> bool
    ensures { result ≡ is_name word.now }
{
    match word {
        [first, rest @ ..] => first.is_ascii_lowercase() && all_name(rest) && rest.len() <= 15,
        [] => false,
    }
}

/// The text of a name.
fn name_text(word: &[u8]) -> &str
    requires { is_name word.now ≡ true }
    ensures { result.now ≡ word.now }
{
    let Ok(text) = str::from_utf8(word) else {
        unreachable!();
    };
    text
}

pub(crate) fn name_of<'a, 'b>(words: &'b [&'a [u8]]) -> Result<(&'a str, &'b [&'a [u8]]), FaultKind>
    ensures { Gives (λ x. (x.0.now, texts x.1.now)) result (name_at (texts words.now)) }
{
    match words {
        [word, rest @ ..] if well_named(*word) => Ok((name_text(*word), rest)),
        _ => Err(FaultKind::BadName),
    }
}

pub(crate) fn new_of<'a, 'b, T: Named + Drop>(
    items: &Indexed<T>,
    words: &'b [&'a [u8]],
) -> Result<(&'a str, &'b [&'a [u8]]), FaultKind>
    ensures { Gives (λ x. (x.0.now, texts x.1.now)) result (new_at (map T.name_of items.now.items.items) (texts words.now)) }
{
    match name_of(words) {
        Ok((word, rest)) => match items.place(word) {
            None => Ok((word, rest)),
            Some(_) => Err(FaultKind::Duplicate),
        },
        Err(kind) => Err(kind),
    }
}

pub(crate) fn known_of<'a, 'b, T: Named + Drop>(
    items: &Indexed<T>,
    words: &'b [&'a [u8]],
) -> Result<(u16, &'b [&'a [u8]]), FaultKind>
    ensures { Gives (λ x. (x.0, texts x.1.now)) result (known_at (map T.name_of items.now.items.items) (texts words.now)) }
{
    match name_of(words) {
        Ok((word, rest)) => match items.place(word) {
            Some(i) => Ok((i, rest)),
            None => Err(FaultKind::Undeclared),
        },
        Err(kind) => Err(kind),
    }
}

pub(crate) fn names_main(word: &[u8]) -> bool
    ensures { result ≡ is_main word.now }
{
    word == b"main".as_slice()
}

/// That the first of these words is not `main`.
pub(crate) fn not_main(words: &[&[u8]]) -> Result<(), FaultKind>
    ensures { Gives (λ _. tt) result (other_than_main (texts words.now)) }
{
    match words {
        [word, ..] if names_main(*word) => Err(FaultKind::Recursive),
        _ => Ok(()),
    }
}

/// The new name of a Job, alone.
fn job_named<'a>(names: &Indexed<String>, words: &[&'a [u8]]) -> Result<Option<&'a str>, FaultKind>
    ensures { Gives name_in result (job_named (map string_bytes names.now.items.items) (texts words.now)) }
{
    match new_of(names, words) {
        Ok((name, rest)) if rest.is_empty() => Ok(Some(name)),
        Ok(_) => Err(FaultKind::Extra),
        Err(kind) => Err(kind),
    }
}

/// The new name of a Job, if there is a word.
pub(crate) fn job_of<'a>(
    names: &Indexed<String>,
    words: &[&'a [u8]],
) -> Result<Option<&'a str>, FaultKind>
    ensures { Gives name_in result (job_at (map string_bytes names.now.items.items) (texts words.now)) }
{
    match words {
        [] => Ok(None),
        [word, rest @ ..] if *word == b"as".as_slice() => job_named(names, rest),
        _ => Err(FaultKind::Extra),
    }
}
