//! The lines outside blocks, and the form of each line.

ghost use Rattle.std.specs.Prelude.{◌≡◌};
ghost use Rattle.script_grammar.specs.Words.{texts};
ghost use Rattle.script_grammar.specs.Programs.{channel_names};
ghost use Rattle.script_grammar.specs.Places.{new_at};
ghost use Rattle.script_grammar.specs.Forms.{version_line, is_start, channel_line, coroutine_line, spawn_line, outside, form_at};
ghost use Rattle.script_reader.specs.Answers.{Gives};
ghost use Rattle.script_reader.specs.Reading.{view, said, HasFewJobs};

use crate::blocks::verb_line;
use crate::channels::{count_of, kind_of, places_of};
use crate::form::Spoken;
use crate::lines::said_alone;
use crate::place::{known_of, new_of, not_main, number_of};
use crate::reading::Reading;
use crate::verbs::verb_of;
use script_grammar::FaultKind;

/// The version, alone.
fn version_form<'a>(words: &[&'a [u8]]) -> Result<Spoken<'a>, FaultKind>
    ensures { Gives said result (version_line (texts words.now)) }
{
    match number_of(2, 2, words) {
        Ok((_, rest)) => said_alone(Spoken::Version, rest),
        Err(kind) => Err(kind),
    }
}

/// Whether no line is said yet.
#[tactic(auto, using(crate::proofs::Starts::none_said))]
fn at_start(reading: &Reading) -> bool
    ensures { result ≡ is_start (view reading.now) }
{
    reading.version == 1
        && reading.channels.items.is_empty()
        && reading.coroutines.items.is_empty()
        && reading.spawns.is_empty()
        && reading.weights.is_empty()
        && reading.current.is_none()
}

/// The name of a channel that is new.
#[tactic(auto, using(crate::proofs::NameTexts::names_of_channels))]
fn new_channel<'a, 'b>(
    reading: &Reading,
    words: &'b [&'a [u8]],
) -> Result<(&'a str, &'b [&'a [u8]]), FaultKind>
    ensures { Gives (λ x. (x.0.now, texts x.1.now)) result (new_at (channel_names (view reading.now).channels) (texts words.now)) }
{
    new_of(&reading.channels, words)
}

fn channel_form<'a>(reading: &Reading, words: &[&'a [u8]]) -> Result<Spoken<'a>, FaultKind>
    ensures { Gives said result (channel_line (view reading.now) (texts words.now)) }
{
    match new_channel(reading, words) {
        Ok((name, rest)) => match kind_of(reading.version, rest) {
            Ok((kind, rest)) => match places_of(rest) {
                Ok((places, rest)) => said_alone(Spoken::Channel(name, kind, places), rest),
                Err(fault) => Err(fault),
            },
            Err(fault) => Err(fault),
        },
        Err(fault) => Err(fault),
    }
}

#[tactic(auto, using(crate::proofs::NameTexts::names_of_blocks))]
fn coroutine_form<'a>(reading: &Reading, words: &[&'a [u8]]) -> Result<Spoken<'a>, FaultKind>
    ensures { Gives said result (coroutine_line (view reading.now) (texts words.now)) }
{
    match new_of(&reading.coroutines, words) {
        Ok((name, rest)) => said_alone(Spoken::Coroutine(name), rest),
        Err(kind) => Err(kind),
    }
}

#[tactic(auto, using(crate::proofs::NameTexts::names_of_blocks))]
fn spawn_form<'a>(reading: &Reading, words: &[&'a [u8]]) -> Result<Spoken<'a>, FaultKind>
    ensures { Gives said result (spawn_line (view reading.now) (texts words.now)) }
{
    match known_of(&reading.coroutines, words) {
        Ok((block, rest)) => match not_main(words) {
            Ok(()) => match count_of(rest) {
                Ok((count, rest)) => said_alone(Spoken::Spawn(block, count), rest),
                Err(kind) => Err(kind),
            },
            Err(kind) => Err(kind),
        },
        Err(kind) => Err(kind),
    }
}

#[tactic(auto, unfolding(script_grammar::specs::Forms::outside))]
fn outside_form<'a>(
    reading: &Reading,
    word: &[u8],
    rest: &[&'a [u8]],
) -> Result<Spoken<'a>, FaultKind>
    ensures { Gives said result (outside (view reading.now) word.now (texts rest.now)) }
{
    if word == b"script".as_slice() && at_start(reading) {
        version_form(rest)
    } else if word == b"channel".as_slice() {
        channel_form(reading, rest)
    } else if word == b"coroutine".as_slice() {
        coroutine_form(reading, rest)
    } else if word == b"spawn".as_slice() {
        spawn_form(reading, rest)
    } else {
        Err(FaultKind::UnknownWord)
    }
}

/// What a line says, by its first word and the words after it.
pub(crate) fn form_of<'a>(
    reading: &Reading,
    word: &[u8],
    rest: &[&'a [u8]],
) -> Result<Spoken<'a>, FaultKind>
    requires { HasFewJobs reading.now.current }
    ensures { Gives said result (form_at (view reading.now) (view reading.now).current word.now (texts rest.now)) }
{
    match &reading.current {
        None => outside_form(reading, word, rest),
        Some(block) => verb_line(reading, block, verb_of(word), rest),
    }
}
