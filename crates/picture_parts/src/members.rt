//! Texts in JSON, and members of events of the trace event format.

ghost use Rattle.std.specs.Prelude.{◌≡◌, ◌<◌, ◌++◌, ◌∷◌, []};
ghost use Rattle.std.specs.Fmt.{decimal};
ghost use lib.Chars.{codes};
ghost use Rattle.gathered.specs.Texts.{Adds};
ghost use Rattle.picture_parts.specs.Members.{arguments_text, arriving_fields, digit, escape, escaped, field_text, fields_text, instant_fields, leaving_fields, quoted, slice_fields, source_text};

use gathered::Text;
use std::slice::from_ref;

/// A hexadecimal digit.
fn digit(n: u8) -> u8
    requires { n < 16 }
    ensures { result ∷ [] ≡ digit n }
{
    if n < 10 { 48 + n } else { 87 + n }
}

fn add_escape(text: &mut Text, byte: &u8)
    ensures { Adds text.old text.new (escape byte.now) }
{
    if *byte == b'"' {
        text.add(b"\\\"");
    } else if *byte == b'\\' {
        text.add(b"\\\\");
    } else if 32 <= *byte && *byte < 127 {
        text.add(from_ref(byte));
    } else {
        text.add(b"\\u00");
        text.add(&[digit(*byte / 16), digit(*byte % 16)]);
    }
}

/// Adds what stands between quotes.
pub fn add_json_escaped(text: &mut Text, words: &[u8])
    ensures { Adds text.old text.new (escaped words.now) }
{
    let mut rest = words;
    while let [byte, more @ ..] = rest {
        add_escape(text, byte);
        rest = more;
    }
}

/// Adds a text in quotes.
fn add_quoted(text: &mut Text, words: &[u8])
    ensures { Adds text.old text.new (quoted words.now) }
{
    text.add(b"\"");
    add_json_escaped(text, words);
    text.add(b"\"");
}

/// Adds the member for the line of a script, if that is not empty.
fn add_source(text: &mut Text, source: &[u8])
    ensures { Adds text.old text.new (source_text source.now) }
{
    if let [_, ..] = source {
        text.add(b",\"script\":");
        add_quoted(text, source);
    }
}

/// Adds the beginning of an event: its name, its category and its track.
pub fn add_place(text: &mut Text, name: &[u8], category: &[u8], track: u64)
    ensures { Adds text.old text.new (codes "{" ++ field_text (codes "name") (quoted name.now)
        ++ field_text (codes "cat") (quoted category.now) ++ field_text (codes "pid") (decimal 1)
        ++ field_text (codes "tid") (decimal track)) }
{
    text.add(b"{\"name\":");
    add_quoted(text, name);
    text.add(b",\"cat\":");
    add_quoted(text, category);
    text.add(b",\"pid\":1,\"tid\":");
    text.add_number(track);
    text.add(b",");
}

/// Adds the end of an event of a line: its last member, an object of the line, and of that of a script, if that is not empty.
pub fn add_end(text: &mut Text, line: &[u8], source: &[u8])
    ensures { Adds text.old text.new (arguments_text (codes "line") line.now source.now ++ codes "}" ++ codes ",\n") }
{
    text.add(b"\"args\":{\"line\":");
    add_quoted(text, line);
    add_source(text, source);
    text.add(b"}},\n");
}

/// Adds the members of a slice, which lasts so long.
pub fn add_slice(text: &mut Text, from: u64, lasts: u64)
    ensures { Adds text.old text.new (fields_text (slice_fields from lasts)) }
{
    text.add(b"\"ph\":\"X\",\"ts\":");
    text.add_number(from);
    text.add(b",\"dur\":");
    text.add_number(lasts);
    text.add(b",");
}

/// Adds the members of an instant.
pub fn add_instant(text: &mut Text, at: u64)
    ensures { Adds text.old text.new (fields_text (instant_fields at)) }
{
    text.add(b"\"ph\":\"i\",\"s\":\"t\",\"ts\":");
    text.add_number(at);
    text.add(b",");
}

/// Adds the members of the beginning of the arrow with this number.
pub fn add_leaving(text: &mut Text, at: u64, flow: u64)
    ensures { Adds text.old text.new (fields_text (leaving_fields at flow)) }
{
    text.add(b"\"ph\":\"s\",\"id\":");
    text.add_number(flow);
    text.add(b",\"ts\":");
    text.add_number(at);
    text.add(b",");
}

/// Adds the members of its end.
pub fn add_arriving(text: &mut Text, at: u64, flow: u64)
    ensures { Adds text.old text.new (fields_text (arriving_fields at flow)) }
{
    text.add(b"\"ph\":\"f\",\"bp\":\"e\",\"id\":");
    text.add_number(flow);
    text.add(b",\"ts\":");
    text.add_number(at);
    text.add(b",");
}
