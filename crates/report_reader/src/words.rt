//! The lines of a text, the words of a line, numbers and names.

ghost use Rattle.std.specs.Prelude.{◌≡◌, ◌+◌, ◌≤◌, ◌==◌, OnOk, IfSome, IfNone, length};
ghost use Rattle.std.specs.List.{list_all, slice_split};
ghost use Rattle.std.specs.Str.{all_ascii_digits};
ghost use Rattle.report_reader.specs.Words.{is_name, is_name_byte, is_number, parts, texts, value_at, without_last_feed, words_of};

use std::alloc::AllocError;

/// The text without the line feed at its end.
pub(crate) fn trimmed(bytes: &[u8]) -> &[u8]
    ensures value { result.now ≡ without_last_feed bytes.now }
    ensures short { length result.now ≤ length bytes.now }
{
    if bytes.is_empty() || bytes[bytes.len() - 1] != b'\n' {
        bytes
    } else {
        &bytes[..bytes.len() - 1]
    }
}

/// What stands before the first of these bytes, and what stands behind it, if there is one.
pub fn cut_at(cut: u8, text: &[u8]) -> (&[u8], Option<&[u8]>)
    ensures cut { parts cut result.0.now result.1 ≡ slice_split (λ b. b == cut) text.now }
    ensures less { IfSome result.1 (λ rest. length result.0.now + 1 + length rest.now ≡ length text.now) }
    ensures last { IfNone result.1 (length result.0.now ≡ length text.now) }
{
    for (i, byte) in text.iter().enumerate() {
        if *byte == cut {
            return (&text[..i], Some(&text[i + 1..]));
        }
    }
    (text, None)
}

/// Puts the words of a line in the place of those in the vector.
pub fn words_of<'a>(words: &mut Vec<&'a [u8]>, line: &'a [u8]) -> Result<(), AllocError>
    ensures { OnOk result (texts words.new.items ≡ words_of line.now) }
{
    words.clear();
    let mut rest = line;
    loop {
        let (word, more) = cut_at(b' ', rest);
        words.push(word)?;
        let Some(next) = more else {
            return Ok(());
        };
        rest = next;
    }
}

fn all_digits(word: &[u8]) -> bool
    ensures { result ≡ all_ascii_digits word.now }
{
    let mut rest = word;
    while let [byte, more @ ..] = rest {
        if !byte.is_ascii_digit() {
            return false;
        }
        rest = more;
    }
    true
}

fn well_written(word: &[u8]) -> bool
    ensures { result ≡ is_number word.now }
{
    match word {
        [first, rest @ ..] => all_digits(word)
            && rest.len() < 10
            && (rest.is_empty() || *first != b'0'),
        [] => false,
    }
}

/// The value of a decimal number, if it is written as one: digits alone, no leading zero but in `0`, and at most 4,294,967,295.
pub fn value_of(word: &[u8]) -> Option<u32>
    ensures { result ≡ value_at word.now }
{
    if !well_written(word) {
        return None;
    }
    let Ok(text) = str::from_utf8(word) else {
        unreachable!();
    };
    text.parse().ok()
}

fn name_byte(byte: u8) -> bool
    ensures { result ≡ is_name_byte byte }
{
    byte.is_ascii_lowercase() || byte.is_ascii_digit() || byte == b'_'
}

fn all_name(word: &[u8]) -> bool
    ensures { result ≡ list_all is_name_byte word.now }
{
    let mut rest = word;
    while let [byte, more @ ..] = rest {
        if !name_byte(*byte) {
            return false;
        }
        rest = more;
    }
    true
}

/// Whether a word is a name.
pub(crate) fn well_named(word: &[u8]) -> bool
    ensures { result ≡ is_name word.now }
{
    match word {
        [first, rest @ ..] => first.is_ascii_lowercase() && all_name(rest) && rest.len() <= 15,
        [] => false,
    }
}
