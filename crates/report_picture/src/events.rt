//! A trace as a text: events in the trace event format.

ghost use Rattle.std.specs.Prelude.{◌≡◌, ◌++◌, ◌+◌, ◌*◌, [], map, true, IfOk};
ghost use Rattle.std.specs.Fmt.{decimal};
ghost use lib.Chars.{codes};
ghost use Rattle.gathered.specs.Texts.{Adds};
ghost use Rattle.picture_parts.specs.Members.{fields_text, naming_fields};
ghost use Rattle.report_picture.specs.Traces.{IsJson, elements_text, event_text, happening_fields, moment_fields, moment_text, object_text, trace_text, track_of, track_text};

use crate::layout::label_of;
use crate::trace::{Event, Happening, Moment, Trace, Track};
use gathered::Text;
use picture_parts::{
    add_arriving, add_end, add_instant, add_json_escaped, add_leaving, add_place, add_slice,
    name_of,
};
use report_reader::Said;
use std::alloc::{AllocError, Global};

// ---- what happens

fn add_happening(text: &mut Text, happening: Happening)
    ensures { Adds text.old text.new (fields_text (happening_fields happening)) }
{
    match happening {
        Happening::Lasts { from, lasts } => add_slice(text, from, lasts),
        Happening::Leaves { at, flow } => add_leaving(text, at, flow),
        Happening::Arrives { at, flow } => add_arriving(text, at, flow),
    }
}

// ---- events

fn add_event(text: &mut Text, event: &Event)
    ensures { Adds text.old text.new (event_text event.now ++ codes ",\n") }
{
    add_place(text, event.name, event.category, event.track);
    add_happening(text, event.happening);
    add_end(text, event.line, event.source);
}

fn add_events(text: &mut Text, events: &[Event])
    ensures { Adds text.old text.new (elements_text (map event_text events.now)) }
{
    let mut rest = events;
    while let [event, more @ ..] = rest {
        add_event(text, event);
        rest = more;
    }
}

/// The track of a line.
fn track_of(said: Said) -> u64
    ensures { result ≡ track_of said }
{
    match said {
        Said::Note(tag) => u64::from(tag) * 2,
        Said::Job(row) => u64::from(row) * 2 + 1,
        Said::Element => 0,
    }
}

fn add_when(text: &mut Text, joined: bool, at: u64)
    ensures { Adds text.old text.new (fields_text (moment_fields joined at)) }
{
    if joined {
        add_slice(text, at, 8);
    } else {
        add_instant(text, at);
    }
}

fn add_moment(text: &mut Text, moment: &Moment)
    ensures { Adds text.old text.new (moment_text moment.now ++ codes ",\n") }
{
    let line = moment.line;
    add_place(text, label_of(line.text), b"line", track_of(line.said));
    add_when(text, moment.joined, moment.at);
    add_end(text, line.text, moment.source);
}

fn add_moments(text: &mut Text, moments: &[Moment])
    ensures { Adds text.old text.new (elements_text (map moment_text moments.now)) }
{
    let mut rest = moments;
    while let [moment, more @ ..] = rest {
        add_moment(text, moment);
        rest = more;
    }
}

// ---- tracks

/// Adds what names a track: a name, and a number behind it.
fn add_named(text: &mut Text, track: u64, name: &[u8], number: u64)
    ensures { Adds text.old text.new (object_text (codes "thread_name") (codes "") track naming_fields (codes "name")
        (name.now ++ (codes " " ++ decimal number)) [] ++ codes ",\n") }
{
    text.add_numbered(
        b"{\"name\":\"thread_name\",\"cat\":\"\",\"pid\":1,\"tid\":",
        track,
    );
    text.add(b",\"ph\":\"M\",\"args\":{\"name\":\"");
    add_json_escaped(text, name);
    text.add_numbered(b" ", number);
    text.add(b"\"}},\n");
}

fn add_track(text: &mut Text, names: &[Vec<u8>], track: &Track)
    ensures { Adds text.old text.new (track_text (map (λ n. n.items) names.now) track.now ++ codes ",\n") }
{
    let number = track.number as u64;
    if track.is_job {
        add_named(text, number * 2 + 1, b"Job", number);
    } else {
        add_named(text, number * 2, name_of(names, track.number), number);
    }
}

fn add_tracks(text: &mut Text, names: &[Vec<u8>], tracks: &[Track])
    ensures { Adds text.old text.new (elements_text (map (track_text (map (λ n. n.items) names.now)) tracks.now)) }
{
    let mut rest = tracks;
    while let [track, more @ ..] = rest {
        add_track(text, names, track);
        rest = more;
    }
}

// ---- the whole

/// The last event, which names the run, and the end.
const LAST: &[u8] =
    b"{\"name\":\"process_name\",\"cat\":\"\",\"pid\":1,\"tid\":0,\"ph\":\"M\",\"args\":{\"name\":\"run\"}}\n]}\n";

/// A trace as a text, in the trace event format.
pub fn trace_text(alloc: Global, trace: &Trace) -> Result<Vec<u8>, AllocError>
    ensures text { IfOk result (λ text. text.items ≡ trace_text trace.now) }
    ensures json { IfOk result (λ text. IsJson text.items) }
{
    let mut text = Text::new(alloc);
    text.add(b"{\"displayTimeUnit\":\"ms\",\"traceEvents\":[\n");
    add_tracks(&mut text, trace.names, trace.tracks.as_slice());
    add_moments(&mut text, trace.moments.as_slice());
    add_events(&mut text, trace.events.as_slice());
    text.add(LAST);
    text.whole()
}
