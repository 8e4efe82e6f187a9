//! The columns of lines, and their rows.

ghost use Rattle.std.specs.Prelude.{◌≡◌, ◌<◌, IfOk};
ghost use Rattle.picture_parts.specs.Places.{column_of, is_among, place_from};

use co_base::Memory;
use report_reader::Said;

/// Whether it is one of these.
pub fn is_among(tag: u32, tags: &[u32]) -> bool
    ensures { result ≡ is_among tag tags.now }
{
    let mut rest = tags;
    while let [other, more @ ..] = rest {
        if *other == tag {
            return true;
        }
        rest = more;
    }
    false
}

/// The place of a tag among these.
fn place_of(tag: u32, tags: &[u32]) -> Option<usize>
    ensures { result ≡ place_from 0 tag tags.now }
{
    let mut rest = tags;
    let mut i = 0usize;
    while let [other, more @ ..] = rest {
        if *other == tag {
            return Some(i);
        }
        i += 1;
        rest = more;
    }
    None
}

/// The column of a line that stands in the book of one of these coroutines, each of which has one.
pub fn column_of(said: Said, tags: &[u32]) -> Option<usize>
    ensures { result ≡ column_of tags.now said }
{
    match said {
        Said::Note(tag) => place_of(tag, tags),
        Said::Job(_) | Said::Element => None,
    }
}

/// The row of a line in a column: this one, or the next below the row `last` of a line in the column `other`, if that is the same
/// column and not above it. A picture of more rows than a `u32` counts is none that memory holds.
pub fn row_behind(other: usize, last: u32, column: usize, row: u32) -> Result<u32, Memory>
    ensures { IfOk result (λ row. other ≡ column → last < row) }
{
    if other != column {
        return Ok(row);
    }
    if last < row {
        return Ok(row);
    }
    match last.checked_add(1) {
        Some(next) => Ok(next),
        None => Err(Memory),
    }
}
