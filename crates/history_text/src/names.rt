//! The names of channels, and where each stands.

ghost use Rattle.std.specs.Prelude.{◌≡◌, ◌<◌, ◌≤◌, ◌++◌, length, Some, true};
ghost use Rattle.report_reader.specs.Words.{texts};
ghost use Rattle.script_grammar.specs.Places.{place_from};
ghost use Rattle.history_text.specs.Names.{AreNames, are_no_rows, are_rows, listed, row_named};

use co_base::ChannelId;
use report_reader::value_of;

/// Names in two parts: behind those that a script declares come those of done channels, of which each says its place, so that it is found
/// in no time.
#[derive(Clone, Copy)]
pub(crate) struct Names<'a> {
    pub(crate) declared: &'a [&'a [u8]],
    pub(crate) marked: &'a [&'a [u8]],
}

/// The row of the done channel of this name.
fn row_named(name: &[u8]) -> Option<u32>
    ensures { result ≡ row_named name.now }
{
    match name {
        [b'@', row @ ..] => value_of(row),
        _ => None,
    }
}

/// How many names stand before the first of a done channel.
fn count_before_rows(names: &[&[u8]]) -> usize
    ensures { result ≤ length names.now }
{
    let mut rest = names;
    while let [name, more @ ..] = rest {
        if row_named(*name).is_some() {
            break;
        }
        rest = more;
    }
    names.len() - rest.len()
}

fn are_no_rows(names: &[&[u8]]) -> bool
    ensures { result ≡ are_no_rows (texts names.now) }
{
    let mut rest = names;
    while let [name, more @ ..] = rest {
        if row_named(*name).is_some() {
            return false;
        }
        rest = more;
    }
    true
}

fn are_rows(names: &[&[u8]]) -> bool
    requires { length names.now ≤ 65536 }
    ensures { result ≡ are_rows 0 (texts names.now) }
{
    let mut rest = names;
    let mut row = 0u32;
    while let [name, more @ ..] = rest {
        if row_named(*name) != Some(row) {
            return false;
        }
        row += 1;
        rest = more;
    }
    true
}

/// The same names in two parts.
pub(crate) fn names_of<'a>(names: &'a [&'a [u8]]) -> Names<'a>
    requires { length names.now ≤ 65536 }
    ensures names { AreNames result }
    ensures listed { listed result ≡ texts names.now }
{
    let (declared, marked) = names.split_at(count_before_rows(names));
    if are_no_rows(declared) && are_rows(marked) {
        Names { declared, marked }
    } else {
        Names {
            declared: names,
            marked: &[],
        }
    }
}

/// The place of the first of these names that is this word.
fn place_in(names: &[&[u8]], word: &[u8]) -> Option<ChannelId>
    requires { length names.now ≤ 65536 }
    ensures { result ≡ place_from 0 word.now (texts names.now) }
{
    let mut rest = names;
    let mut number = 0u32;
    while let [name, more @ ..] = rest {
        if *name == word {
            return Some(number as u16);
        }
        number += 1;
        rest = more;
    }
    None
}

/// The place of the name of a row, if it is this word.
fn place_of_row(names: &Names, word: &[u8], row: u32) -> Option<ChannelId>
    requires names { AreNames names.now }
    requires row { row_named word.now ≡ Some row }
    requires marked { 0 < length names.now.marked.now }
    ensures { result ≡ place_from 0 word.now (listed names.now) }
{
    let place = row as usize;
    if place < names.marked.len() && names.marked[place] == word {
        Some((names.declared.len() + place) as u16)
    } else {
        None
    }
}

/// The number of the channel of this name.
#[tactic(auto, using(crate::proofs::Places::among_declared, crate::proofs::Places::no_marked))]
pub(crate) fn channel_at(names: &Names, word: &[u8]) -> Option<ChannelId>
    requires { AreNames names.now }
    ensures { result ≡ place_from 0 word.now (listed names.now) }
{
    if names.marked.is_empty() {
        return place_in(names.declared, word);
    }
    match row_named(word) {
        Some(row) => place_of_row(names, word, row),
        None => place_in(names.declared, word),
    }
}
