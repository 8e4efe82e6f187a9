//! Which coroutines have a column.

ghost use Rattle.std.specs.Prelude.{◌≡◌, IfOk, OnOk};
ghost use Rattle.report_picture.specs.Pictures.{all_have_columns, has_column, is_new, tags_of, with_tag};
ghost use Rattle.report_reader.specs.Reading.{told_lines};

use picture_parts::is_among;
use report_reader::{Line, Said};
use std::alloc::{AllocError, Global};

/// What is asked for.
#[derive(Clone, Copy)]
pub struct Wanted {
    /// The first and the last coroutine, by their tags.
    pub first: u32,
    pub last: u32,
    /// The lines that are bookkeeping of Jobs are left out.
    pub only_channels: bool,
    /// The first and the last row, counted from 1; `u32::MAX` asks for all from the first on.
    pub from: u32,
    pub to: u32,
}

/// The most columns of a picture.
const MOST_COLUMNS: usize = 64;

/// Whether a tag is asked for, is not there, and fits.
fn is_new(wanted: Wanted, tags: &[u32], tag: u32) -> bool
    ensures { result ≡ is_new wanted tags.now tag }
{
    wanted.first <= tag && tag <= wanted.last && tags.len() < MOST_COLUMNS && !is_among(tag, tags)
}

/// Adds the tag of a line's book, if it is new.
fn add_tag(tags: &mut Vec<u32>, wanted: Wanted, said: Said) -> Result<(), AllocError>
    ensures { OnOk result (tags.new.items ≡ with_tag wanted tags.old.items said) }
{
    match said {
        Said::Note(tag) if is_new(wanted, tags.as_slice(), tag) => {
            tags.push(tag)?;
            Ok(())
        }
        _ => Ok(()),
    }
}

/// The coroutines that have a column: those asked for that have a line in their books, the first 64 of them.
pub(crate) fn tags_of(alloc: Global, wanted: Wanted, lines: &[Line]) -> Result<Vec<u32>, AllocError>
    ensures { IfOk result (λ tags. tags.items ≡ tags_of wanted (told_lines lines.now)) }
{
    let mut tags = Vec::new(alloc);
    let mut rest = lines;
    while let [line, more @ ..] = rest {
        add_tag(&mut tags, wanted, line.said)?;
        rest = more;
    }
    Ok(tags)
}

/// Whether the coroutine of a line is not asked for, or is among these.
fn has_column(wanted: Wanted, tags: &[u32], said: Said) -> bool
    ensures { result ≡ has_column wanted tags.now said }
{
    match said {
        Said::Note(tag) => !(wanted.first <= tag && tag <= wanted.last) || is_among(tag, tags),
        Said::Job(_) | Said::Element => true,
    }
}

/// Whether each coroutine that is asked for and has a line is among these.
pub(crate) fn all_have_columns(wanted: Wanted, tags: &[u32], lines: &[Line]) -> bool
    ensures { result ≡ all_have_columns wanted tags.now (told_lines lines.now) }
{
    let mut rest = lines;
    while let [line, more @ ..] = rest {
        if !has_column(wanted, tags, line.said) {
            return false;
        }
        rest = more;
    }
    true
}
