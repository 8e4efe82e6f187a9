//! Texts in markup: attributes, titles, and the ends of elements.

ghost use Rattle.std.specs.Prelude.{◌≡◌, ◌++◌};
ghost use Rattle.std.specs.Fmt.{decimal};
ghost use Rattle.gathered.specs.Texts.{Adds};
ghost use Rattle.picture_parts.specs.Markup.{attribute_text, escape, escaped, fate_label, rest_text, title_text};
ghost use Rattle.picture_parts.specs.Names.{with_source};

use crate::line_words::word;
use gathered::Text;
use std::slice::from_ref;

/// What stands for a byte of a text that is no markup.
fn escape(byte: &u8) -> &[u8]
    ensures { result.now ≡ escape byte.now }
{
    match *byte {
        b'<' => b"&lt;",
        b'>' => b"&gt;",
        b'&' => b"&amp;",
        b'"' => b"&quot;",
        _ => from_ref(byte),
    }
}

/// Adds a text that is no markup.
pub fn add_escaped(text: &mut Text, words: &[u8])
    ensures { Adds text.old text.new (escaped words.now) }
{
    let mut rest = words;
    while let [byte, more @ ..] = rest {
        text.add(escape(byte));
        rest = more;
    }
}

/// Adds a letter and a number, in which nothing is markup.
pub fn add_step(text: &mut Text, letter: &[u8], n: u64)
    ensures { Adds text.old text.new (letter.now ++ escaped (decimal n)) }
{
    text.add_numbered(letter, n);
}

/// Adds an attribute, with a blank before it.
pub fn add_attribute(text: &mut Text, name: &[u8], value: &[u8])
    ensures { Adds text.old text.new (attribute_text name.now value.now) }
{
    text.add(b" ");
    text.add(name);
    text.add(b"=\"");
    add_escaped(text, value);
    text.add(b"\"");
}

/// The same with a number in decimal.
pub fn add_number(text: &mut Text, name: &[u8], n: u64)
    ensures { Adds text.old text.new (attribute_text name.now (decimal n)) }
{
    text.add(b" ");
    text.add(name);
    text.add(b"=\"");
    text.add_number(n);
    text.add(b"\"");
}

/// Adds the title of an element: a line, and below it that of a script, if they are not empty.
pub fn add_title(text: &mut Text, line: &[u8], source: &[u8])
    ensures { Adds text.old text.new (title_text (with_source line.now source.now)) }
{
    if source.is_empty() {
        if !line.is_empty() {
            text.add(b"<title>");
            add_escaped(text, line);
            text.add(b"</title>");
        }
    } else {
        text.add(b"<title>");
        add_escaped(text, line);
        text.add(b"\n");
        add_escaped(text, source);
        text.add(b"</title>");
    }
}

/// Adds the end of an element behind its attributes, with such a title.
pub fn add_rest(text: &mut Text, name: &[u8], line: &[u8], source: &[u8], words: &[u8])
    ensures { Adds text.old text.new (rest_text name.now (with_source line.now source.now) words.now) }
{
    text.add(b">");
    add_title(text, line, source);
    add_escaped(text, words);
    text.add(b"</");
    text.add(name);
    text.add(b">\n");
}

/// Adds, as a text that is no markup, an element that was not received: its channel, its place, its value and its fate, by the line
/// that tells it.
pub fn add_fate_label(text: &mut Text, line: &[u8])
    ensures { Adds text.old text.new (escaped (fate_label line.now)) }
{
    add_escaped(text, word(1, line));
    text.add(b".");
    add_escaped(text, word(2, line));
    text.add(b": ");
    add_escaped(text, word(3, line));
    text.add(b" ");
    add_escaped(text, word(4, line));
}
