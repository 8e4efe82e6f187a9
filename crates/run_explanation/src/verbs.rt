//! The verbs of the lines of the books, as far as hints ask for them: each is a bit.

pub(crate) const HAND: u32 = 1;

pub(crate) const PUT: u32 = 1 << 1;

pub(crate) const OFFER: u32 = 1 << 2;

pub(crate) const TAKE: u32 = 1 << 3;

pub(crate) const AWAIT: u32 = 1 << 4;

pub(crate) const SEND_CLOSED: u32 = 1 << 5;

pub(crate) const TRY_SEND_CLOSED: u32 = 1 << 6;

pub(crate) const RECEIVE_CLOSED: u32 = 1 << 7;

pub(crate) const TRY_RECEIVE_CLOSED: u32 = 1 << 8;

pub(crate) const FULL: u32 = 1 << 9;

pub(crate) const EMPTY: u32 = 1 << 10;

pub(crate) const CLOSE: u32 = 1 << 11;

pub(crate) const ALREADY_CLOSED: u32 = 1 << 12;

pub(crate) const ATTACH: u32 = 1 << 13;

pub(crate) const FAIL: u32 = 1 << 14;

pub(crate) const SPENT: u32 = 1 << 15;

pub(crate) const SETTLE: u32 = 1 << 16;

pub(crate) const WITHDRAW: u32 = 1 << 17;

pub(crate) const SAW: u32 = 1 << 18;

pub(crate) const END_BODY: u32 = 1 << 19;

pub(crate) const SAW_END: u32 = 1 << 20;

pub(crate) const DROP: u32 = 1 << 21;

pub(crate) const SPURN: u32 = 1 << 22;

pub(crate) const DRAIN: u32 = 1 << 23;

pub(crate) const CANCEL: u32 = 1 << 24;

const VERBS: [(&[u8], u32); 25] = [
    (b"hand", HAND),
    (b"put", PUT),
    (b"offer", OFFER),
    (b"take", TAKE),
    (b"await", AWAIT),
    (b"sendclosed", SEND_CLOSED),
    (b"trysendclosed", TRY_SEND_CLOSED),
    (b"receiveclosed", RECEIVE_CLOSED),
    (b"tryreceiveclosed", TRY_RECEIVE_CLOSED),
    (b"full", FULL),
    (b"empty", EMPTY),
    (b"close", CLOSE),
    (b"alreadyclosed", ALREADY_CLOSED),
    (b"attach", ATTACH),
    (b"fail", FAIL),
    (b"spent", SPENT),
    (b"settle", SETTLE),
    (b"withdraw", WITHDRAW),
    (b"saw", SAW),
    (b"endbody", END_BODY),
    (b"sawend", SAW_END),
    (b"drop", DROP),
    (b"spurn", SPURN),
    (b"drain", DRAIN),
    (b"cancel", CANCEL),
];

/// The bit of a verb; none for one that hints do not ask for.
pub(crate) fn verb_of(word: &[u8]) -> u32 {
    for (name, verb) in &VERBS {
        if word == *name {
            return *verb;
        }
    }
    0
}
