//! A picture as a sequence diagram of Mermaid.

ghost use Rattle.std.specs.Prelude.{◌≡◌, ◌++◌, IfOk, map};
ghost use lib.Chars.{codes};
ghost use Rattle.std.specs.List.Sorted.{IsNonDecreasingBy, IsPermutation};
ghost use Rattle.gathered.specs.Texts.{Adds};
ghost use Rattle.report_picture.specs.Diagrams.{IsDiagramOf, column_text, columns_text, head_text, line_text, lines_text, tag_of};

use crate::picture::{Column, Drawn, Picture};
use gathered::Text;
use picture_parts::name_of;
use std::alloc::{AllocError, Global};

fn add_column(text: &mut Text, names: &[Vec<u8>], column: &Column)
    ensures { Adds text.old text.new (column_text (map (λ n. n.items) names.now) column.now) }
{
    let tag = column.tag as u64;
    text.add_numbered(b"    participant c", tag);
    text.add(b" as ");
    text.add(name_of(names, column.tag));
    text.add_numbered(b" ", tag);
    text.add_numbered(b", Job ", tag);
    text.add(b"\n");
}

fn add_columns(text: &mut Text, names: &[Vec<u8>], columns: &[Column])
    ensures { Adds text.old text.new (columns_text (map (λ n. n.items) names.now) columns.now) }
{
    let mut rest = columns;
    while let [column, more @ ..] = rest {
        add_column(text, names, column);
        rest = more;
    }
}

/// Adds the head of a line: the coroutine that it concerns, and else that the line is a note of its own coroutine.
fn add_head(text: &mut Text, tag: u32, target: Option<u32>)
    ensures { Adds text.old text.new (head_text tag target) }
{
    match target {
        Some(other) => {
            text.add_numbered(b"    c", tag as u64);
            text.add_numbered(b"->>c", other as u64);
            text.add(b": ");
        }
        None => {
            text.add_numbered(b"    Note over c", tag as u64);
            text.add(b": ");
        }
    }
}

fn add_line(text: &mut Text, columns: &[Column], drawn: &Drawn)
    ensures { Adds text.old text.new (line_text columns.now drawn.now) }
{
    add_head(text, tag_of(columns, drawn.column), drawn.target);
    text.add(drawn.line.text);
    text.add(b"\n");
}

fn add_lines(text: &mut Text, columns: &[Column], lines: &[Drawn])
    ensures { Adds text.old text.new (lines_text columns.now lines.now) }
{
    let mut rest = lines;
    while let [drawn, more @ ..] = rest {
        add_line(text, columns, drawn);
        rest = more;
    }
}

fn tag_of(columns: &[Column], column: usize) -> u32
    ensures { result ≡ tag_of columns.now column }
{
    match columns.get(column) {
        Some(column) => column.tag,
        None => 0,
    }
}

/// The lines in the order of their rows.
fn downwards<'a>(alloc: Global, picture: &Picture<'a>) -> Result<Vec<Drawn<'a>>, AllocError>
    ensures once { IfOk result (λ sorted. IsPermutation picture.now.lines.items sorted.items) }
    ensures downwards { IfOk result (λ sorted. IsNonDecreasingBy (λ d. d.row) sorted.items) }
{
    let mut sorted = Vec::from_slice(alloc, picture.lines.as_slice())?;
    sorted.sort_by_key(|drawn| drawn.row)?;
    Ok(sorted)
}

/// The text of the columns of a picture and of these lines, in their order.
fn diagram_text(alloc: Global, picture: &Picture, lines: &[Drawn]) -> Result<Vec<u8>, AllocError>
    ensures { IfOk result (λ text. text.items
        ≡ codes "sequenceDiagram\n" ++ columns_text (map (λ n. n.items) picture.now.names.now) picture.now.columns.items
        ++ lines_text picture.now.columns.items lines.now) }
{
    let columns = picture.columns.as_slice();
    let mut text = Text::new(alloc);
    text.add(b"sequenceDiagram\n");
    add_columns(&mut text, picture.names, columns);
    add_lines(&mut text, columns, lines);
    text.whole()
}

/// A picture as a text: a sequence diagram of Mermaid, with the lines in the order of their rows.
pub fn mermaid(alloc: Global, picture: &Picture) -> Result<Vec<u8>, AllocError>
    ensures { IfOk result (λ text. IsDiagramOf picture.now text.items) }
{
    let lines = downwards(alloc, picture)?;
    diagram_text(alloc, picture, lines.as_slice())
}
