//! A picture as an SVG document.

ghost use Rattle.std.specs.Prelude.{◌≡◌, ◌++◌, ◌+◌, [], map, IfOk};
ghost use Rattle.std.specs.Fmt.{decimal};
ghost use lib.Chars.{codes};
ghost use Rattle.gathered.specs.Texts.{Adds};
ghost use Rattle.report_picture.specs.Elements.{attributes_text, document_attributes, escaped, fate_node, fate_nodes, fate_nodes_of, head_node, head_nodes, left_of, line_node, mark_node, node_text, nodes_text, style, style_node, svg_text, text_node, way_text};
ghost use Rattle.report_picture.specs.WellFormed.{IsDocument};

use crate::layout::{label_of, row_y};
use crate::picture::{Column, Drawn, Lost, Mark, Picture, Route, Spot};
use gathered::Text;
use picture_parts::{
    add_attribute, add_escaped, add_fate_label, add_number, add_rest, add_step, add_title, name_of,
};
use std::alloc::{AllocError, Global};

// ---- marks

/// Adds the data of a path, in which nothing is markup.
fn add_way(text: &mut Text, way: Route)
    ensures { Adds text.old text.new (escaped (way_text way)) }
{
    match way {
        Route::Down { x, from, to } => {
            add_step(text, b"M", x);
            add_step(text, b" ", from);
            add_step(text, b"V", to);
        }
        Route::Bent {
            x,
            level,
            lane,
            to_y,
            to_x,
        } => {
            add_step(text, b"M", x);
            add_step(text, b" ", level);
            add_step(text, b"H", lane);
            add_step(text, b"V", to_y);
            add_step(text, b"H", to_x);
            text.add(b"l-6-3m6 3l-6 3");
        }
        Route::Cross { x, y } => {
            add_step(text, b"M", x);
            add_step(text, b" ", y);
            text.add(b"m-4-4l8 8m-8 0l8-8");
        }
    }
}

/// Adds the beginning of the element of a text, with its attributes.
fn add_text_at(text: &mut Text, x: u64, y: u64, look: &[u8])
    ensures { Adds text.old text.new (codes "<text" ++ attributes_text (text_node x y look.now [] []).attributes) }
{
    text.add(b"<text");
    add_number(text, b"x", x);
    add_number(text, b"y", y);
    add_attribute(text, b"class", look);
}

fn add_mark(text: &mut Text, mark: &Mark)
    ensures { Adds text.old text.new (node_text (mark_node mark.now)) }
{
    match mark {
        Mark::Box {
            x,
            y,
            width,
            height,
            look,
            title,
        } => {
            text.add(b"<rect");
            add_number(text, b"x", *x);
            add_number(text, b"y", *y);
            add_number(text, b"width", *width);
            add_number(text, b"height", *height);
            add_attribute(text, b"class", look.word());
            add_rest(text, b"rect", title.line, title.source, b"");
        }
        Mark::Path { way, look, title } => {
            text.add(b"<path d=\"");
            add_way(text, *way);
            text.add(b"\"");
            add_attribute(text, b"class", look.word());
            add_rest(text, b"path", title.line, title.source, b"");
        }
        Mark::Text {
            x,
            y,
            look,
            text: words,
            title,
        } => {
            add_text_at(text, *x, *y, look.word());
            add_rest(text, b"text", title.line, title.source, words.as_slice());
        }
    }
}

fn add_marks(text: &mut Text, marks: &[Mark])
    ensures { Adds text.old text.new (nodes_text (map mark_node marks.now)) }
{
    let mut rest = marks;
    while let [mark, more @ ..] = rest {
        add_mark(text, mark);
        rest = more;
    }
}

// ---- lines

fn left_of(columns: &[Column], column: usize) -> u64
    ensures { result ≡ left_of columns.now column }
{
    match columns.get(column) {
        Some(column) => column.text,
        None => 0,
    }
}

fn add_line(text: &mut Text, picture: &Picture, drawn: &Drawn)
    ensures { Adds text.old text.new (node_text (line_node picture.now drawn.now)) }
{
    let x = left_of(picture.columns.as_slice(), drawn.column);
    let y = row_y(picture.top, drawn.row.saturating_sub(picture.first)) + 4;
    let line = drawn.line.text;
    add_text_at(text, x, y, b"line");
    add_rest(text, b"text", line, drawn.source, label_of(line));
}

fn add_lines(text: &mut Text, picture: &Picture, lines: &[Drawn])
    ensures { Adds text.old text.new (nodes_text (map (line_node picture.now) lines.now)) }
{
    let mut rest = lines;
    while let [drawn, more @ ..] = rest {
        add_line(text, picture, drawn);
        rest = more;
    }
}

// ---- fates

fn add_fate_at(text: &mut Text, spot: Spot, line: &[u8])
    ensures { Adds text.old text.new (node_text (fate_node spot line.now)) }
{
    add_text_at(text, spot.x, spot.y, b"fate");
    text.add(b">");
    add_title(text, line, b"");
    add_fate_label(text, line);
    text.add(b"</text>\n");
}

fn add_fate(text: &mut Text, lost: &Lost)
    ensures { Adds text.old text.new (nodes_text (fate_nodes_of lost.now.at lost.now.line.text.now)) }
{
    match lost.at {
        Some(spot) => add_fate_at(text, spot, lost.line.text),
        None => (),
    }
}

fn add_fates(text: &mut Text, lost: &[Lost])
    ensures { Adds text.old text.new (nodes_text (fate_nodes lost.now)) }
{
    let mut rest = lost;
    while let [one, more @ ..] = rest {
        add_fate(text, one);
        rest = more;
    }
}

// ---- columns

/// Adds a line of the head of a column: a name, and a number behind it.
fn add_head(text: &mut Text, left: u64, y: u64, name: &[u8], number: u64)
    ensures { Adds text.old text.new (node_text (head_node left y (name.now ++ (codes " " ++ decimal number)))) }
{
    add_text_at(text, left, y, b"head");
    text.add(b">");
    add_escaped(text, name);
    text.add_numbered(b" ", number);
    text.add(b"</text>\n");
}

/// Adds the heads of the columns: each coroutine, and the Job that it runs as.
fn add_heads(text: &mut Text, names: &[Vec<u8>], top: u32, columns: &[Column])
    ensures { Adds text.old text.new (nodes_text (head_nodes (map (λ n. n.items) names.now) top columns.now)) }
{
    let y = top as u64;
    let mut rest = columns;
    while let [column, more @ ..] = rest {
        let tag = column.tag;
        add_head(text, column.left, y, name_of(names, tag), tag as u64);
        add_head(text, column.left, y + 16, b"Job", tag as u64);
        rest = more;
    }
}

// ---- the picture

fn style() -> &'static [u8]
    ensures { result.now ≡ style }
{
    b"text{font:11px monospace}.line,.label,.fate{stroke:#fff;stroke-width:3px;paint-order:stroke}.label,.fate{fill:#444}\
    .head,.foot,.hangs{font-weight:bold}.hangs{fill:#d55e00}.paper{fill:#fff}.new{fill:#fff;stroke:#000}.active{fill:#56b4e9}\
    .completing{fill:#0072b2}.cancelling{fill:#e69f00}.completed{fill:#009e73}.cancelled{fill:#cc79a7}.failed{fill:#000}\
    .past{fill:#999}.tick{fill:#000;stroke:#fff;stroke-width:0.5}\
    .wait{fill:none;stroke:#000;stroke-width:10;stroke-dasharray:1.5 3.5}\
    .a,.b,.c,.d,.e,.f,.g,.h,.cancels{fill:none;stroke-width:1.5}.a,.e{stroke:#0072b2}.b,.f{stroke:#009e73}.c,.g{stroke:#cc79a7}\
    .d,.h{stroke:#000}.e,.f,.g,.h{stroke-dasharray:6 3}.cancels{stroke:#d55e00;stroke-dasharray:3 2}\
    .joins{fill:none;stroke:#999;stroke-width:0.8}.lost{fill:none;stroke:#000;stroke-width:2}"
}

/// Adds the beginning of the document, and how its marks look.
fn add_opening(text: &mut Text, width: u64, height: u64)
    ensures { Adds text.old text.new (codes "<svg" ++ attributes_text (document_attributes width height) ++ codes ">\n"
        ++ node_text style_node) }
{
    text.add(b"<svg xmlns=\"http://www.w3.org/2000/svg\"");
    add_number(text, b"width", width);
    add_number(text, b"height", height);
    text.add(b">\n<style");
    add_rest(text, b"style", b"", b"", style());
}

/// A picture as a text: an SVG document.
pub fn svg(alloc: Global, picture: &Picture) -> Result<Vec<u8>, AllocError>
    ensures text { IfOk result (λ text. text.items ≡ svg_text picture.now) }
    ensures well_formed { IfOk result (λ text. IsDocument (codes "svg") text.items) }
{
    let columns = picture.columns.as_slice();
    let mut text = Text::new(alloc);
    add_opening(&mut text, picture.width, picture.height);
    add_marks(&mut text, picture.marks.as_slice());
    add_fates(&mut text, picture.lost.as_slice());
    add_heads(&mut text, picture.names, picture.top, columns);
    add_lines(&mut text, picture, picture.lines.as_slice());
    text.add(b"</svg>\n");
    text.whole()
}
