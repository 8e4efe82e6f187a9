//! The lines of a text, and the words of a line.

ghost use Rattle.std.specs.Prelude.{◌≡◌, ◌++◌, ◌∷◌, [], ◌+◌, ◌<◌, OnOk, IfSome, IfNone, filter, length};
ghost use Rattle.std.specs.List.{slice_split};
ghost use Rattle.script_reader.specs.Parts.{parts};
ghost use Rattle.script_grammar.specs.Words.{texts, is_line_feed, is_space, is_plain, all_plain, has_items, begins_comment, words_of, without_last_feed};

use std::alloc::AllocError;

/// The text without the line feed at its end.
pub(crate) fn trimmed(bytes: &[u8]) -> &[u8]
    ensures { result.now ≡ without_last_feed bytes.now }
{
    if bytes.is_empty() || bytes[bytes.len() - 1] != b'\n' {
        bytes
    } else {
        &bytes[..bytes.len() - 1]
    }
}

/// The first line of a text, and what stands after its line feed, if it has one.
pub(crate) fn first_line(text: &[u8]) -> (&[u8], Option<&[u8]>)
    ensures cut { parts is_line_feed result.0.now result.1 ≡ slice_split is_line_feed text.now }
    ensures less { IfSome result.1 (λ rest. length result.0.now + 1 + length rest.now ≡ length text.now) }
    ensures last { IfNone result.1 (length result.0.now ≡ length text.now) }
{
    for (i, byte) in text.iter().enumerate() {
        if *byte == b'\n' {
            return (&text[..i], Some(&text[i + 1..]));
        }
    }
    (text, None)
}

fn plain(byte: u8) -> bool
    ensures { result ≡ is_plain byte }
{
    byte == 9 || byte == 13 || (32..=126).contains(&byte)
}

/// Whether a line has spaces and printed characters alone.
pub(crate) fn every_plain(line: &[u8]) -> bool
    ensures { result ≡ all_plain line.now }
{
    let mut rest = line;
    while let [byte, more @ ..] = rest {
        if !plain(*byte) {
            return false;
        }
        rest = more;
    }
    true
}

fn space(byte: u8) -> bool
    ensures { result ≡ is_space byte }
{
    byte == 9 || byte == 13 || byte == 32
}

/// What stands before the first space of a line, and what stands after it, if there is one.
fn first_piece(line: &[u8]) -> (&[u8], Option<&[u8]>)
    ensures cut { parts is_space result.0.now result.1 ≡ slice_split is_space line.now }
    ensures less { IfSome result.1 (λ rest. length rest.now < length line.now) }
{
    for (i, byte) in line.iter().enumerate() {
        if space(*byte) {
            return (&line[..i], Some(&line[i + 1..]));
        }
    }
    (line, None)
}

fn begins_comment(piece: &[u8]) -> bool
    ensures { result ≡ begins_comment piece.now }
{
    match piece {
        [first, ..] => *first == b'#',
        [] => false,
    }
}

/// Adds a piece of a line, if it is a word.
fn push_word<'a>(words: &mut Vec<&'a [u8]>, piece: &'a [u8]) -> Result<(), AllocError>
    ensures { OnOk result (texts words.new.items ≡ texts words.old.items ++ filter has_items (piece.now ∷ [])) }
{
    if !piece.is_empty() {
        words.push(piece)?;
    }
    Ok(())
}

/// Puts the words of a line in the place of those in the vector.
pub(crate) fn fill_words<'a>(words: &mut Vec<&'a [u8]>, line: &'a [u8]) -> Result<(), AllocError>
    ensures { OnOk result (texts words.new.items ≡ words_of line.now) }
{
    words.clear();
    let mut rest = line;
    loop {
        let (piece, more) = first_piece(rest);
        if begins_comment(piece) {
            return Ok(());
        }
        push_word(words, piece)?;
        let Some(next) = more else {
            return Ok(());
        };
        rest = next;
    }
}
