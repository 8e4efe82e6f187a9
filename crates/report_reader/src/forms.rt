//! Which words are a line of a report.

ghost use Rattle.std.specs.Prelude.{◌≡◌, [], ◌∷◌, ◌==◌};
ghost use Rattle.std.specs.List.{slice_split};
ghost use Rattle.report_reader.specs.Words.{parts, texts, words_of};
ghost use Rattle.report_reader.specs.Forms.{are_channel_and_place, element_forms, forms_in, have_form, have_one_of, is_channel, is_wait, job_forms, note_forms, said_by, said_from, said_of_element, said_of_job, said_of_note, said_of_other, stands_for};

use crate::line::Said;
use crate::words::{cut_at, value_of, well_named};

/// Whether a word is a channel.
fn is_channel(word: &[u8]) -> bool
    ensures { result ≡ is_channel word.now }
{
    match word {
        [first, row @ ..] if *first == b'@' => value_of(row).is_some(),
        _ => well_named(word),
    }
}

/// Whether these are a channel and a place, with nothing behind them.
fn is_channel_and_place(channel: &[u8], place: &[u8], more: Option<&[u8]>) -> bool
    ensures { result ≡ are_channel_and_place (channel.now ∷ parts 46 place.now more.entry) }
{
    match more {
        None => is_channel(channel) && value_of(place).is_some(),
        Some(_) => false,
    }
}

/// Whether a channel and what stands behind its point are a wait.
fn is_wait_of(channel: &[u8], rest: &[u8]) -> bool
    ensures { result ≡ are_channel_and_place (channel.now ∷ slice_split (λ b. b == 46) rest.now) }
{
    let (place, more) = cut_at(b'.', rest);
    is_channel_and_place(channel, place, more)
}

/// Whether a word is a wait.
fn is_wait(word: &[u8]) -> bool
    ensures { result ≡ is_wait word.now }
{
    let (channel, more) = cut_at(b'.', word);
    match more {
        Some(rest) => is_wait_of(channel, rest),
        None => false,
    }
}

/// Whether a word may stand where this part of a form stands.
fn stands_for(part: &[u8], word: &[u8]) -> bool
    ensures { result ≡ stands_for part.now word.now }
{
    if part == b"C".as_slice() {
        is_channel(word)
    } else if part == b"W".as_slice() {
        is_wait(word)
    } else if part == b"N".as_slice() {
        value_of(word).is_some()
    } else {
        part == word
    }
}

/// Whether no word is left where no part of a form is.
fn none_left(words: &[&[u8]]) -> bool
    ensures { result ≡ have_form [] (texts words.now) }
{
    match words {
        [] => true,
        [_, ..] => false,
    }
}

/// Whether the words have this form.
fn have_form(form: &[u8], words: &[&[u8]]) -> bool
    ensures { result ≡ have_form (words_of form.now) (texts words.now) }
{
    let mut form = form;
    let mut words = words;
    'parts: loop {
        let (part, more) = cut_at(b' ', form);
        let [word, rest @ ..] = words else {
            return false;
        };
        if !stands_for(part, *word) {
            return false;
        }
        let Some(next) = more else {
            return none_left(rest);
        };
        form = next;
        words = rest;
    }
}

/// Whether the words have one of these forms.
fn have_one_of(forms: &[u8], words: &[&[u8]]) -> bool
    ensures { result ≡ have_one_of (forms_in forms.now) (texts words.now) }
{
    let mut forms = forms;
    'forms: loop {
        let (form, more) = cut_at(b'\n', forms);
        if have_form(form, words) {
            return true;
        }
        let Some(next) = more else {
            return false;
        };
        forms = next;
    }
}

/// The forms of a line of a book, behind its tag.
fn note_forms() -> &'static [u8]
    ensures { result.now ≡ note_forms }
{
    b"hand C N N\nput C N N\noffer C N N W N\nawait C N W N\ntake C N N\nadmit C N\ndrop C N N\n\
    spurn C N N\nclose C N\nvoid C\ndrain C N N\nwakeclosed C N\nwithdraw W cancelled\nwithdraw W revoked\nsettle W value N N\n\
    settle W sent N\nsettle W closed N N\nsettle W cancelled\nsettle W undelivered N\nsendclosed C N N\n\
    trysendclosed C N N\nreceiveclosed C N\ntryreceiveclosed C N\nalreadyclosed C N\nfull C N\nempty C\n\
    spent C\npartner C N\nresolved W\nlate W\n\
    attach N to N tag N plain\nattach N to N tag N plain cancelled\nattach N to N tag N lazy\n\
    attach N to N tag N lazy cancelled\nattach N to N tag N scope\nattach N to N tag N scope cancelled\n\
    attach N to N tag N supervisor\nattach N to N tag N supervisor cancelled\nstart N\nendbody N N\n\
    cancel N request\ncancel N parent\ncancel N child N\ncancel N own N\nfinish N completed N\n\
    finish N cancelled\nfinish N failed N\ngone N\nsaw N\nsawend N completed N\nsawend N cancelled\n\
    sawend N failed N\nfail N\nnorow\nused\nparentended"
}

/// The forms of the line of a Job, behind its row.
fn job_forms() -> &'static [u8]
    ensures { result.now ≡ job_forms }
{
    b"completed N\ncancelled\nfailed N\nnew\nactive\ncompleting\ncancelling"
}

/// The forms of the line of an element, behind its first word.
fn element_forms() -> &'static [u8]
    ensures { result.now ≡ element_forms }
{
    b"C N N held\nC N N undelivered\nC N N dropped\nC N N spurned\nC N N withdrawn"
}

/// What the line of a Job is, of which these are the words behind the first.
fn said_of_job(words: &[&[u8]]) -> Option<Said>
    ensures { result ≡ said_of_job (texts words.now) }
{
    let [row, rest @ ..] = words else {
        return None;
    };
    if !have_one_of(job_forms(), rest) {
        return None;
    }
    match value_of(*row) {
        Some(row) => Some(Said::Job(row)),
        None => None,
    }
}

/// What the line of an element is, of which these are the words behind the first.
fn said_of_element(words: &[&[u8]]) -> Option<Said>
    ensures { result ≡ said_of_element (texts words.now) }
{
    if have_one_of(element_forms(), words) {
        Some(Said::Element)
    } else {
        None
    }
}

/// What the line of a book is, of which these are the tag and the words behind it.
fn said_of_note(tag: &[u8], words: &[&[u8]]) -> Option<Said>
    ensures { result ≡ said_of_note tag.now (texts words.now) }
{
    if !have_one_of(note_forms(), words) {
        return None;
    }
    match value_of(tag) {
        Some(tag) => Some(Said::Note(tag)),
        None => None,
    }
}

/// What a line is that is not that of a Job, of which these are the first word and the words behind it.
fn said_of_other(word: &[u8], words: &[&[u8]]) -> Option<Said>
    ensures { result ≡ said_of_other word.now (texts words.now) }
{
    if word == b"element".as_slice() {
        said_of_element(words)
    } else {
        said_of_note(word, words)
    }
}

/// What a line is, of which these are the first word and the words behind it.
#[tactic(auto, unfolding(crate::specs::Forms::said_from))]
fn said_from(word: &[u8], words: &[&[u8]]) -> Option<Said>
    ensures { result ≡ said_from word.now (texts words.now) }
{
    if word == b"job".as_slice() {
        said_of_job(words)
    } else {
        said_of_other(word, words)
    }
}

/// What a line of these words is, if it is one of a report.
pub(crate) fn said_by(words: &[&[u8]]) -> Option<Said>
    ensures { result ≡ said_by (texts words.now) }
{
    let [word, rest @ ..] = words else {
        return None;
    };
    said_from(*word, rest)
}
