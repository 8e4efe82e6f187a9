//! What the lines of the books say, as far as a picture shows it, and to which other lines they lead.

use crate::keyed::Key;
use crate::looks::{Look, State};
use gathered::{NOWHERE, at};
use report_reader::value_of;

/// What a line can say: of a place of a channel, of a wait, of a channel, or of the row of a Job.
#[derive(Clone, Copy)]
pub(crate) enum Fact {
    /// Hand, put or offer, at a place.
    Brings,
    Awaits,
    Admits,
    Takes,
    /// Drop, spurn or drain.
    GivesUp,
    Wakes,
    /// Of a wait.
    Settles,
    Late,
    /// Of a channel.
    Closes,
    /// Of a row.
    Attaches,
    Starts,
    Cancels,
    Finishes,
    /// The first and the last line of the coroutine with this tag.
    First,
    Last,
    /// Nothing that is asked for.
    Nothing,
}

/// Of what a line says it.
#[derive(Clone, Copy)]
pub(crate) enum Of {
    /// Of its subject: a place of a channel, a channel, or a row.
    Subject,
    /// Of the other row that it names: a parent's, or that of a child that failed.
    Other,
    Wait,
    /// Of the coroutine in whose book it stands.
    Own,
}

/// A way from a line to the line that says something of the same, or of what that one names.
#[derive(Clone, Copy)]
pub(crate) enum Way {
    /// To the line itself.
    Here,
    /// To none.
    Nowhere,
    Attached,
    Started,
    Begun,
    Cancelled,
    OtherCancelled,
    /// To the `cancel` of the Job's parent.
    ParentCancelled,
    Finished,
    OtherFinished,
    ParentFinished,
    Brought,
    Awaited,
    /// To where the receiver goes on that waited at the place.
    GoneOn,
    Admitted,
    Taken,
    Closed,
    /// To what resolved an offer, and a wait to receive.
    Sent,
    Received,
    Settled,
    Late,
}

/// What a line says, and of what; where no line says that, one says the third, and else the fourth.
pub(crate) type Says = (Fact, Of, Fact, Fact);

pub(crate) const NOTHING: Says = (Fact::Nothing, Of::Own, Fact::Nothing, Fact::Nothing);

const ATTACHED: Says = (Fact::Attaches, Of::Subject, Fact::Nothing, Fact::Nothing);

const CANCELLED: Says = (Fact::Cancels, Of::Subject, Fact::Nothing, Fact::Nothing);

const FINISHED: Says = (Fact::Finishes, Of::Subject, Fact::Nothing, Fact::Nothing);

const AWAITED: Says = (Fact::Awaits, Of::Subject, Fact::Nothing, Fact::Nothing);

/// What the line says to which each way leads first, in the order of the ways.
pub(crate) const FIRSTS: [Says; 21] = [
    NOTHING,
    NOTHING,
    ATTACHED,
    (Fact::Starts, Of::Subject, Fact::Nothing, Fact::Nothing),
    (Fact::First, Of::Subject, Fact::Nothing, Fact::Nothing),
    CANCELLED,
    (Fact::Cancels, Of::Other, Fact::Nothing, Fact::Nothing),
    ATTACHED,
    FINISHED,
    (Fact::Finishes, Of::Other, Fact::Nothing, Fact::Nothing),
    ATTACHED,
    (Fact::Brings, Of::Subject, Fact::Nothing, Fact::Nothing),
    AWAITED,
    AWAITED,
    (Fact::Admits, Of::Subject, Fact::Nothing, Fact::Nothing),
    (Fact::Takes, Of::Subject, Fact::Nothing, Fact::Nothing),
    (Fact::Closes, Of::Subject, Fact::Nothing, Fact::Nothing),
    (Fact::Admits, Of::Subject, Fact::Takes, Fact::GivesUp),
    (Fact::Brings, Of::Subject, Fact::Wakes, Fact::Wakes),
    (Fact::Settles, Of::Wait, Fact::Nothing, Fact::Nothing),
    (Fact::Late, Of::Wait, Fact::Nothing, Fact::Nothing),
];

/// The verbs. A line with an `attach`, a `cancel` or a `finish` can have a word for how it is: those with such a word come last, and before
/// them the same with any other.
#[derive(Clone, Copy)]
pub(crate) enum Verb {
    Hand,
    Put,
    Offer,
    Await,
    Take,
    Admit,
    Drop,
    Spurn,
    Drain,
    WakeClosed,
    Close,
    SendClosed,
    TrySendClosed,
    ReceiveClosed,
    TryReceiveClosed,
    Settle,
    Withdraw,
    Late,
    Start,
    EndBody,
    Gone,
    Saw,
    SawEnd,
    Attach,
    Cancel,
    Finish,
    AttachPlain,
    AttachLazy,
    CancelByChild,
    CancelByParent,
    FinishCompleted,
    FinishCancelled,
}

/// The words of the verbs up to `Finish`, in their order.
const NAMES: [&[u8]; 26] = [
    b"hand",
    b"put",
    b"offer",
    b"await",
    b"take",
    b"admit",
    b"drop",
    b"spurn",
    b"drain",
    b"wakeclosed",
    b"close",
    b"sendclosed",
    b"trysendclosed",
    b"receiveclosed",
    b"tryreceiveclosed",
    b"settle",
    b"withdraw",
    b"late",
    b"start",
    b"endbody",
    b"gone",
    b"saw",
    b"sawend",
    b"attach",
    b"cancel",
    b"finish",
];

/// The words for how it is of the verbs behind `Finish`, in their order.
const HOWS: [&[u8]; 6] = [
    b"plain",
    b"lazy",
    b"child",
    b"parent",
    b"completed",
    b"cancelled",
];

/// The verbs that these are with any other word.
const OF_HOWS: [Verb; 6] = [
    Verb::Attach,
    Verb::Attach,
    Verb::Cancel,
    Verb::Cancel,
    Verb::Finish,
    Verb::Finish,
];

/// Which words of a line are what: it is of a channel, of a place of one, of a place and a wait, of a wait, of a row, or of two.
#[derive(Clone, Copy)]
pub(crate) enum Form {
    Other,
    Channel,
    Place,
    Offer,
    Await,
    Wait,
    Row,
    Rows,
}

/// The numbers of the words for the channel, the place, the wait, the row, and the other row.
type Parts = (usize, usize, usize, usize, usize);

const NO_PARTS: Parts = (NOWHERE, NOWHERE, NOWHERE, NOWHERE, NOWHERE);

/// Those of each form.
const PARTS: [Parts; 8] = [
    NO_PARTS,
    (2, NOWHERE, NOWHERE, NOWHERE, NOWHERE),
    (2, 3, NOWHERE, NOWHERE, NOWHERE),
    (2, 3, 5, NOWHERE, NOWHERE),
    (2, 3, 4, NOWHERE, NOWHERE),
    (NOWHERE, NOWHERE, 2, NOWHERE, NOWHERE),
    (NOWHERE, NOWHERE, NOWHERE, 2, NOWHERE),
    (NOWHERE, NOWHERE, NOWHERE, 2, 4),
];

/// What a verb says, and of what, which words its lines have, and the state that it brings the Job of its row to.
pub(crate) type Saying = (Fact, Of, Form, Option<State>);

pub(crate) const NO_SAYING: Saying = (Fact::Nothing, Of::Subject, Form::Other, None);

/// That of each verb.
pub(crate) const SAYINGS: [Saying; 32] = [
    (Fact::Brings, Of::Subject, Form::Place, None),
    (Fact::Brings, Of::Subject, Form::Place, None),
    (Fact::Brings, Of::Subject, Form::Offer, None),
    (Fact::Awaits, Of::Subject, Form::Await, None),
    (Fact::Takes, Of::Subject, Form::Place, None),
    (Fact::Admits, Of::Subject, Form::Place, None),
    (Fact::GivesUp, Of::Subject, Form::Place, None),
    (Fact::GivesUp, Of::Subject, Form::Place, None),
    (Fact::GivesUp, Of::Subject, Form::Place, None),
    (Fact::Wakes, Of::Subject, Form::Place, None),
    (Fact::Closes, Of::Subject, Form::Channel, None),
    (Fact::Nothing, Of::Subject, Form::Channel, None),
    (Fact::Nothing, Of::Subject, Form::Channel, None),
    (Fact::Nothing, Of::Subject, Form::Channel, None),
    (Fact::Nothing, Of::Subject, Form::Channel, None),
    (Fact::Settles, Of::Wait, Form::Wait, None),
    (Fact::Nothing, Of::Subject, Form::Wait, None),
    (Fact::Late, Of::Wait, Form::Wait, None),
    (Fact::Starts, Of::Subject, Form::Row, Some(State::Active)),
    (
        Fact::Nothing,
        Of::Subject,
        Form::Row,
        Some(State::Completing),
    ),
    (Fact::Nothing, Of::Subject, Form::Row, None),
    (Fact::Nothing, Of::Subject, Form::Row, None),
    (Fact::Nothing, Of::Subject, Form::Row, None),
    (Fact::Attaches, Of::Subject, Form::Rows, Some(State::Active)),
    (
        Fact::Cancels,
        Of::Subject,
        Form::Rows,
        Some(State::Cancelling),
    ),
    (Fact::Finishes, Of::Subject, Form::Row, Some(State::Failed)),
    (Fact::Attaches, Of::Subject, Form::Rows, Some(State::Active)),
    (Fact::Attaches, Of::Subject, Form::Rows, Some(State::New)),
    (
        Fact::Cancels,
        Of::Subject,
        Form::Rows,
        Some(State::Cancelling),
    ),
    (
        Fact::Cancels,
        Of::Subject,
        Form::Rows,
        Some(State::Cancelling),
    ),
    (
        Fact::Finishes,
        Of::Subject,
        Form::Row,
        Some(State::Completed),
    ),
    (
        Fact::Finishes,
        Of::Subject,
        Form::Row,
        Some(State::Cancelled),
    ),
];

/// Which lines stand above which others, by the ways to them from a line with this verb.
pub(crate) const CAUSES: [(Verb, Way, Way); 31] = [
    (Verb::Hand, Way::Awaited, Way::Here),
    (Verb::Offer, Way::Sent, Way::Settled),
    (Verb::Offer, Way::Sent, Way::Late),
    (Verb::Await, Way::Received, Way::Settled),
    (Verb::Await, Way::Received, Way::Late),
    (Verb::Take, Way::Brought, Way::Here),
    (Verb::Take, Way::Admitted, Way::Here),
    (Verb::Admit, Way::Brought, Way::Here),
    (Verb::Drop, Way::Brought, Way::Here),
    (Verb::Spurn, Way::Brought, Way::Here),
    (Verb::Drain, Way::Brought, Way::Here),
    (Verb::WakeClosed, Way::Awaited, Way::Here),
    (Verb::SendClosed, Way::Closed, Way::Here),
    (Verb::TrySendClosed, Way::Closed, Way::Here),
    (Verb::ReceiveClosed, Way::Closed, Way::Here),
    (Verb::TryReceiveClosed, Way::Closed, Way::Here),
    (Verb::Start, Way::Here, Way::Begun),
    (Verb::EndBody, Way::Here, Way::Finished),
    (Verb::Gone, Way::Here, Way::ParentFinished),
    (Verb::Saw, Way::Cancelled, Way::Here),
    (Verb::SawEnd, Way::Finished, Way::Here),
    (Verb::Attach, Way::Here, Way::Cancelled),
    (Verb::Attach, Way::Here, Way::Started),
    (Verb::AttachPlain, Way::Here, Way::Begun),
    (Verb::AttachPlain, Way::Here, Way::Cancelled),
    (Verb::AttachPlain, Way::Here, Way::Started),
    (Verb::AttachLazy, Way::Here, Way::Begun),
    (Verb::AttachLazy, Way::Here, Way::Cancelled),
    (Verb::AttachLazy, Way::Here, Way::Started),
    (Verb::CancelByChild, Way::OtherCancelled, Way::Here),
    (Verb::CancelByParent, Way::ParentCancelled, Way::Here),
];

/// The arrows that a line with this verb tells of, besides that of the element that it brought.
pub(crate) const ARROWS: [(Verb, Way, Way, Look); 5] = [
    (Verb::Offer, Way::Sent, Way::Settled, Look::Joins),
    (Verb::WakeClosed, Way::Here, Way::GoneOn, Look::Joins),
    (Verb::Start, Way::Here, Way::Begun, Look::Joins),
    (Verb::Saw, Way::Cancelled, Way::Here, Look::Cancels),
    (Verb::AttachPlain, Way::Here, Way::Begun, Look::Joins),
];

/// The ways to the line that got the element that a line brought, to that which resolved the wait that it placed or withdrew, and to that
/// which tells whom it concerns, and what of that.
pub(crate) type Links = (Way, Way, Way, Of);

pub(crate) const NO_LINKS: Links = (Way::Nowhere, Way::Nowhere, Way::Here, Of::Own);

const TO_SUBJECT: Links = (Way::Nowhere, Way::Nowhere, Way::Here, Of::Subject);

/// Those of each verb.
pub(crate) const LINKS: [Links; 32] = [
    (Way::GoneOn, Way::Nowhere, Way::Awaited, Of::Own),
    (Way::Taken, Way::Nowhere, Way::Here, Of::Own),
    (Way::Taken, Way::Sent, Way::Here, Of::Own),
    (Way::Nowhere, Way::Received, Way::Here, Of::Own),
    NO_LINKS,
    (Way::Nowhere, Way::Nowhere, Way::Brought, Of::Own),
    NO_LINKS,
    NO_LINKS,
    NO_LINKS,
    (Way::Nowhere, Way::Nowhere, Way::Awaited, Of::Own),
    NO_LINKS,
    NO_LINKS,
    NO_LINKS,
    NO_LINKS,
    NO_LINKS,
    NO_LINKS,
    (Way::Nowhere, Way::Here, Way::Here, Of::Own),
    NO_LINKS,
    TO_SUBJECT,
    NO_LINKS,
    (Way::Nowhere, Way::Nowhere, Way::Attached, Of::Other),
    NO_LINKS,
    NO_LINKS,
    TO_SUBJECT,
    TO_SUBJECT,
    NO_LINKS,
    TO_SUBJECT,
    TO_SUBJECT,
    TO_SUBJECT,
    TO_SUBJECT,
    NO_LINKS,
    NO_LINKS,
];

/// The number of a word among these; that of nowhere, if it is none of them.
fn number_among(names: &[&[u8]], word: &[u8]) -> usize {
    for (number, name) in names.iter().enumerate() {
        if word == *name {
            return number;
        }
    }
    NOWHERE
}

/// The number of the verb of a line of these words; that of nowhere, if it is none of them.
fn verb_number<'a>(words: &[&'a [u8]]) -> usize {
    let word: &'a [u8] = at(words, 1, b"");
    let verb = number_among(&NAMES, word);
    let how_at = if verb == Verb::Attach as usize { 7 } else { 3 };
    let how_word: &'a [u8] = at(words, how_at, b"");
    let how = number_among(&HOWS, how_word);
    if verb == at(&OF_HOWS, how, Verb::AttachPlain) as usize {
        how.saturating_add(NAMES.len())
    } else {
        verb
    }
}

/// The line of a book, taken apart. What its verb does not have is 0, or empty.
#[derive(Clone, Copy)]
pub(crate) struct Note<'a> {
    pub(crate) text: &'a [u8],
    /// The coroutine.
    pub(crate) tag: u32,
    /// The number of the verb; that of nowhere, if it is none of them.
    pub(crate) verb: usize,
    /// The state that it brings the Job of its row to, if it does.
    pub(crate) state: Option<State>,
    /// The channel and the place.
    pub(crate) channel: &'a [u8],
    pub(crate) place: &'a [u8],
    /// The wait.
    pub(crate) wait: &'a [u8],
    /// The row of a Job.
    pub(crate) row: u32,
    /// The other row: a parent's, or that of a child that failed.
    pub(crate) other: u32,
    /// The Job is attached as cancelled.
    pub(crate) cancelled: bool,
}

/// That of no line: its words are such as no line has.
pub(crate) const NO_NOTE: Note<'static> = Note {
    text: b"",
    tag: u32::MAX,
    verb: NOWHERE,
    state: None,
    channel: b" ",
    place: b" ",
    wait: b" ",
    row: 0,
    other: 0,
    cancelled: false,
};

fn number_at<'a>(words: &[&'a [u8]], i: usize) -> u32 {
    let word: &'a [u8] = at(words, i, b"");
    value_of(word).unwrap_or(0)
}

/// Takes the line of a book apart.
pub(crate) fn note_of<'a>(tag: u32, text: &'a [u8], words: &[&'a [u8]]) -> Note<'a> {
    let verb = verb_number(words);
    let (fact, _, form, state) = at(&SAYINGS, verb, NO_SAYING);
    let (channel, place, wait, row, other) = at(&PARTS, form as usize, NO_PARTS);
    let cancelled = matches!(fact, Fact::Attaches) && words.len() > 8;
    Note {
        text,
        tag,
        verb,
        state: if cancelled {
            Some(State::Cancelling)
        } else {
            state
        },
        channel: at(words, channel, b""),
        place: at(words, place, b""),
        wait: at(words, wait, b""),
        row: number_at(words, row),
        other: number_at(words, other),
        cancelled,
    }
}

impl<'a> Note<'a> {
    /// Whether it places a wait.
    pub(crate) fn waits(&self) -> bool {
        (self.verb == Verb::Offer as usize) | (self.verb == Verb::Await as usize)
    }

    /// This fact, of what the line says it of. A line about a row has no channel and no place.
    pub(crate) fn key(&self, fact: Fact, of: Of) -> Key<'a> {
        let fact = fact as usize;
        match of {
            Of::Subject => (fact, self.row, self.channel, self.place),
            Of::Other => (fact, self.other, self.channel, self.place),
            Of::Wait => (fact, 0, b"", self.wait),
            Of::Own => (fact, self.tag, b"", b""),
        }
    }
}
