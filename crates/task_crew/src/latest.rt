//! The latest ticket of each worker, which it takes next, so that whom a poll woke goes on while what it works on is at hand.
//!
//! | word | step | next word | who | the step decides |
//! |---|---|---|---|---|
//! | any | put | the number of the put, and the tag | the worker | which ticket goes into its lane: the one that stood there |
//! | a ticket | take | 0 | the worker | that it runs the ticket |
//! | a ticket that stood there at the last look | take | 0 | another worker | that it runs the ticket, to which the owner did not come |

ghost use Rattle.std.specs.Prelude.{◌≡◌, ◌<◌, IfOk, length, vec_len};

use crate::apart::Apart;
use co_base::{Memory, Tag};
use std::alloc::Global;
use std::sync::Arc;
use std::sync::atomic::{AtomicU64, Ordering};

/// How many tags a word can have.
const TAGS: u64 = 65536;

/// The word of a worker's latest ticket: 0, or the number of its put and its tag.
pub(crate) type Word = Apart<AtomicU64>;

/// The tag of a ticket.
fn tag_of(word: u64) -> Tag {
    (word % TAGS) as Tag
}

/// The words of so many workers, who have no ticket.
pub(crate) fn words_of(alloc: Global, workers: u8) -> Result<Vec<Arc<Word, Global>>, Memory>
    ensures { IfOk result (λ v. vec_len v ≡ workers) }
{
    let mut words = Vec::new(alloc);
    for _ in 0..workers {
        words.push(Arc::new(alloc, Apart::new(AtomicU64::new(0)))?)?;
    }
    Ok(words)
}

/// A worker's own latest ticket.
#[derive(Drop)]
pub(crate) struct Latest {
    own: Arc<Word, Global>,
    puts: u32,
}

impl Latest {
    pub(crate) fn new(word: &Arc<Word, Global>) -> Result<Latest, Memory> {
        Ok(Latest {
            own: Arc::try_clone(word)?,
            puts: 0,
        })
    }

    /// Puts a ticket. The answer is the one that stood there, if it is of another task.
    pub(crate) fn put(&mut self, tag: Tag) -> Option<Tag> {
        self.puts = self.puts.wrapping_add(1);
        let word = (u64::from(self.puts) + 1) * TAGS + u64::from(tag);
        let before = self.own.value.swap(word, Ordering::SeqCst);
        if before == 0 || tag_of(before) == tag {
            return None;
        }
        Some(tag_of(before))
    }

    /// Takes the ticket, if there is one.
    pub(crate) fn take(&mut self) -> Option<Tag> {
        if self.own.value.load(Ordering::SeqCst) == 0 {
            return None;
        }
        let word = self.own.value.swap(0, Ordering::SeqCst);
        if word == 0 { None } else { Some(tag_of(word)) }
    }
}

/// Another worker's latest ticket.
#[derive(Drop)]
pub(crate) struct OtherLatest {
    other: Arc<Word, Global>,
    /// The word that was seen at the last look.
    seen: u64,
}

impl OtherLatest {
    pub(crate) fn new(word: &Arc<Word, Global>) -> Result<OtherLatest, Memory> {
        Ok(OtherLatest {
            other: Arc::try_clone(word)?,
            seen: 0,
        })
    }

    /// Takes the ticket if it stood there at the last look.
    pub(crate) fn take(&mut self) -> Option<Tag> {
        let word = self.other.value.load(Ordering::SeqCst);
        let stood = word == self.seen;
        self.seen = word;
        if word == 0 || !stood {
            return None;
        }
        match self
            .other
            .value
            .compare_exchange(word, 0, Ordering::SeqCst, Ordering::SeqCst)
        {
            Ok(_) => Some(tag_of(word)),
            Err(_) => None,
        }
    }
}

/// The latest tickets of all workers but one, from the next on.
pub(crate) fn all_but(
    alloc: Global,
    words: &[Arc<Word, Global>],
    own: usize,
) -> Result<Vec<OtherLatest>, Memory>
    requires { own < length words.now }
{
    let mut others = Vec::new(alloc);
    for word in &words[own + 1..] {
        others.push(OtherLatest::new(word)?)?;
    }
    for word in &words[..own] {
        others.push(OtherLatest::new(word)?)?;
    }
    Ok(others)
}

/// The first of these tickets that stood there at the last look too.
pub(crate) fn take_from_any(others: &mut Vec<OtherLatest>) -> Option<Tag> {
    for other in others.iter_mut() {
        if let Some(tag) = other.take() {
            return Some(tag);
        }
    }
    None
}
