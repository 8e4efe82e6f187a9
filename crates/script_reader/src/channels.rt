//! What stands at the places of a line outside blocks.

ghost use Rattle.std.specs.Prelude.{◌∷◌};
ghost use Rattle.script_grammar.specs.Words.{texts};
ghost use Rattle.script_grammar.specs.Places.{places_at, count_at, buffered_at, made, number_at, kind_at};
ghost use Rattle.channel_model.specs.declared.acts.Kind.TheVariants.{Buffered, DropOldest, DropLatest};
ghost use Rattle.script_reader.specs.Answers.{Gives};

use crate::limits::MOST_JOBS;
use crate::place::number_of;
use channel_model::Kind;
use script_grammar::FaultKind;

/// The number of places of a channel, and the words after it.
pub(crate) fn places_of<'a, 'b>(words: &'b [&'a [u8]]) -> Result<(u32, &'b [&'a [u8]]), FaultKind>
    ensures { Gives (λ x. (x.0, texts x.1.now)) result (places_at (texts words.now)) }
{
    match words {
        [] => Ok((16_384, words)),
        [word, rest @ ..] if *word == b"places".as_slice() => number_of(1, 1_048_576, rest),
        _ => Err(FaultKind::Extra),
    }
}

/// The number of instances of a spawn, and the words after it.
pub(crate) fn count_of<'a, 'b>(words: &'b [&'a [u8]]) -> Result<(u16, &'b [&'a [u8]]), FaultKind>
    ensures { Gives (λ x. (x.0, texts x.1.now)) result (count_at (texts words.now)) }
{
    match words {
        [] => Ok((1, words)),
        _ => match number_of(1, MOST_JOBS, words) {
            Ok((count, rest)) => Ok((count as u16, rest)),
            Err(kind) => Err(kind),
        },
    }
}

/// A buffered channel of a capacity that stands here.
fn sized<'a, 'b>(words: &'b [&'a [u8]]) -> Result<(Kind, &'b [&'a [u8]]), FaultKind>
    ensures { Gives (λ x. (x.0, texts x.1.now)) result (made (λ k. Buffered k) (number_at 1 65535 (texts words.now))) }
{
    match number_of(1, 65_535, words) {
        Ok((capacity, rest)) => Ok((Kind::Buffered(capacity), rest)),
        Err(kind) => Err(kind),
    }
}

/// A buffered channel, whose capacity may be left out, and the words after it.
fn buffered_of<'a, 'b>(words: &'b [&'a [u8]]) -> Result<(Kind, &'b [&'a [u8]]), FaultKind>
    ensures { Gives (λ x. (x.0, texts x.1.now)) result (buffered_at (texts words.now)) }
{
    match words {
        [] => Ok((Kind::Buffered(64), words)),
        [word, ..] if *word == b"places".as_slice() => Ok((Kind::Buffered(64), words)),
        _ => sized(words),
    }
}

/// A channel that drops its oldest element beyond a capacity that stands here.
fn dropping<'a, 'b>(words: &'b [&'a [u8]]) -> Result<(Kind, &'b [&'a [u8]]), FaultKind>
    ensures { Gives (λ x. (x.0, texts x.1.now)) result (made (λ k. DropOldest k) (number_at 1 65535 (texts words.now))) }
{
    match number_of(1, 65_535, words) {
        Ok((capacity, rest)) => Ok((Kind::DropOldest(capacity), rest)),
        Err(kind) => Err(kind),
    }
}

/// A channel that spurns its latest element beyond a capacity that stands here.
fn spurning<'a, 'b>(words: &'b [&'a [u8]]) -> Result<(Kind, &'b [&'a [u8]]), FaultKind>
    ensures { Gives (λ x. (x.0, texts x.1.now)) result (made (λ k. DropLatest k) (number_at 1 65535 (texts words.now))) }
{
    match number_of(1, 65_535, words) {
        Ok((capacity, rest)) => Ok((Kind::DropLatest(capacity), rest)),
        Err(kind) => Err(kind),
    }
}

/// The kind of a channel of a script of this version that begins with this word, and the words after it.
#[tactic(auto, unfolding(script_grammar::specs::Places::kind_at))]
fn kind_after<'a, 'b>(
    version: u8,
    word: &[u8],
    rest: &'b [&'a [u8]],
) -> Result<(Kind, &'b [&'a [u8]]), FaultKind>
    ensures { Gives (λ x. (x.0, texts x.1.now)) result (kind_at version (word.now ∷ texts rest.now)) }
{
    if word == b"rendezvous".as_slice() {
        Ok((Kind::Rendezvous, rest))
    } else if word == b"buffered".as_slice() {
        buffered_of(rest)
    } else if word == b"unlimited".as_slice() {
        Ok((Kind::Unlimited, rest))
    } else if word == b"conflated".as_slice() {
        Ok((Kind::Conflated, rest))
    } else if word == b"dropoldest".as_slice() {
        dropping(rest)
    } else if word == b"droplatest".as_slice() && version == 2 {
        spurning(rest)
    } else {
        Err(FaultKind::UnknownWord)
    }
}

/// The kind of a channel of a script of this version, and the words after it.
#[tactic(auto, unfolding(script_grammar::specs::Places::kind_at))]
pub(crate) fn kind_of<'a, 'b>(
    version: u8,
    words: &'b [&'a [u8]],
) -> Result<(Kind, &'b [&'a [u8]]), FaultKind>
    ensures { Gives (λ x. (x.0, texts x.1.now)) result (kind_at version (texts words.now)) }
{
    match words {
        [word, rest @ ..] => kind_after(version, *word, rest),
        [] => Err(FaultKind::UnknownWord),
    }
}
