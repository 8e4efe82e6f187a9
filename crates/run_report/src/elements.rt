//! The lines of the elements that were not received.

ghost use Rattle.std.specs.Prelude.{◌≡◌, ◌<◌, ◌++◌, length, map, string_bytes, OnOk};
ghost use Rattle.script_reader.specs.Programs.{declared_of};
ghost use Rattle.run_report.specs.Elements.{element_line, elements_text, fate_line, places_text, unless_received};
ghost use Rattle.run_report.specs.Known.{IsPlain, element_in};

use crate::fates::Known;
use channel_model::Fate;
use co_base::{ChannelId, Place, Value};
use script_reader::Channel;
use std::alloc::AllocError;

/// Adds the lines of the elements of all declared channels.
pub(crate) fn push_elements(
    out: &mut String,
    channels: &[Channel],
    known: &Known,
) -> Result<(), AllocError>
    requires few { length channels.now < 65536 }
    requires plain { IsPlain known.now }
    ensures { OnOk result (string_bytes out.new
        ≡ string_bytes out.old ++ elements_text (element_in known.now) 0 (map declared_of channels.now)) }
{
    let mut c: ChannelId = 0;
    for channel in channels {
        push_places(out, c, channel, known)?;
        c += 1;
    }
    Ok(())
}

/// Adds the lines of the elements of one channel.
fn push_places(
    out: &mut String,
    c: ChannelId,
    channel: &Channel,
    known: &Known,
) -> Result<(), AllocError>
    requires plain { IsPlain known.now }
    ensures { OnOk result (string_bytes out.new
        ≡ string_bytes out.old ++ places_text (element_in known.now) c (declared_of channel.now)) }
{
    let reach = known.reach(c);
    for place in 0..channel.places {
        if reach <= place as usize {
            return Ok(());
        }
        push_element(out, channel, place, known.element(c, place))?;
    }
    Ok(())
}

/// Adds the line of the element of a place, if there is one and it was not received.
fn push_element(
    out: &mut String,
    channel: &Channel,
    place: Place,
    element: Option<(Value, Fate)>,
) -> Result<(), AllocError>
    ensures { OnOk result (string_bytes out.new ≡ string_bytes out.old ++ element_line (declared_of channel.now).name place element) }
{
    match element {
        Some((value, fate)) => push_fate(out, channel.name.as_str(), place, value, fate),
        None => Ok(()),
    }
}

/// Adds the line of an element, if it was not received.
fn push_fate(
    out: &mut String,
    name: &str,
    place: Place,
    value: Value,
    fate: Fate,
) -> Result<(), AllocError>
    ensures { OnOk result (string_bytes out.new ≡ string_bytes out.old ++ unless_received name.now place value fate) }
{
    match fate {
        Fate::Received => Ok(()),
        Fate::Undelivered => push_line(out, name, place, value, "undelivered"),
        Fate::Dropped => push_line(out, name, place, value, "dropped"),
        Fate::Spurned => push_line(out, name, place, value, "spurned"),
        Fate::Withdrawn => push_line(out, name, place, value, "withdrawn"),
        Fate::Held => push_line(out, name, place, value, "held"),
    }
}

/// Adds the line of an element, with the word for its fate.
fn push_line(
    out: &mut String,
    name: &str,
    place: Place,
    value: Value,
    word: &str,
) -> Result<(), AllocError>
    ensures { OnOk result (string_bytes out.new ≡ string_bytes out.old ++ fate_line name.now place value word.now) }
{
    write!(out, "element {name} {place} {value} {word}\n")
}
