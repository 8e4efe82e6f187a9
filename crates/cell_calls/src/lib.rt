//! Calls on channels over words, by walks along the cells. No call waits, takes a lock or takes memory.
//!
//! Each call is a function of a hub and a pass. A `Desk` is a hub with one pass, for the callers of that pass; by these functions it is a
//! floor of channels (`channel_model`), whatever other threads do meanwhile.
//!
//! **The walk.** A call that offers begins at the send counter of the channel, below which no receiver stands; one that receives begins at
//! the receive counter, below which no offer stands. At each place it learns one of these:
//!
//! | what is there | the call |
//! |---|---|
//! | one of the other side, that stands | resolves its wait, and answers |
//! | one of the other side, whose wait was resolved meanwhile | goes on to the next place |
//! | one of its own side, or a cell that was emptied | goes on |
//! | the channel's end, free | is placed there by an exchange of the cell; or answers that it would have to wait |
//! | the channel's end, free, after the last place | answers that all places are spent |
//! | the channel's end, closed | answers that it was closed |
//!
//! **What decides.** The one exchange that finds its word as the call saw it. Nothing is loaded after it, and the counters are raised by a
//! step that shows nothing, so the own entry is the last that the call has seen. A call that made no entry answers what was so at its
//! last load; that nobody stands below a place stays so, since who is gone does not come back.
//!
//! **Who empties a channel** walks as one who receives, and who tells the receivers of a closed one walks as one who offers; neither is
//! placed. A channel is cancelled at its end, by an exchange of the closed end: of two callers the one that made it is told so.
//!
//! **Who makes room** walks over the offers. An admit counts the elements that are kept, until it finds an offer that may be; that nobody
//! may be was so at a moment of its walk (`cell_words` says why one walk tells it). A trim looks at the first element. While that stands,
//! those behind it do too, since no send waits in a channel that drops its oldest; so where more stand than are kept, the first may go.
//!
//! **Who does not fit** in a channel that does not keep its latest was placed all the same, and counts afterwards. Each offer that stands
//! before the own one stood there when the own one was placed. So if at least as many do as the channel keeps, the own one was too many
//! then, whatever was received meanwhile, and one exchange of its cell removes it, unless somebody has received it. The receive counter
//! alone tells that it fits where fewer places lie between than the channel keeps.
//!
//! **A select's clause** walks as a plain call does. First it looks at the select's wait: where that was resolved, the clause takes no
//! place, also where the channel was closed. Where the other side stands, it says at which place, and resolves nothing. Its wait may be
//! resolved by another between the look and the exchange; then the clause has a place at which it does not stand.
//!
//! **Handed** needs that the channel was open at a moment of the call, and a receiver may still stand in a channel that was closed. So an
//! offer looks at the receiver's wait, then from its place on for the end of the channel, and then resolves the wait. Of a receiver that
//! is gone it looks at the wait alone.
//!
//! **A counter is raised** at the end of a walk, also of one that made no entry, past the places where nobody of the other side stands. So
//! who tries again and again does not pass the same waits again that were withdrawn.
//!
//! - `desk`: the floor.
//! - `sending`, `receiving`: offers and receives.
//! - `removing`: the element of an offer that was found is removed.
//! - `registering`: the clauses of selects.
//! - `ending`: where a channel ends, and its close.
//! - `waiting`: the own wait.
//! - `cancelling`: a closed channel is cancelled, and emptied.
//! - `keeping`: an offer is kept from now on; the oldest element is dropped, or the own one is removed.
//! - `way`: which places a walk passed.
#![tactic(auto)]

mod cancelling;
mod desk;
mod ending;
mod keeping;
mod receiving;
mod registering;
mod removing;
mod sending;
mod waiting;
mod way;

pub use cancelling::{drain, void};
pub use desk::{Desk, DeskAnchor};
pub use ending::{close, mark, wake_closed};
pub use keeping::{admit, spurn, trim};
pub use receiving::{receive, try_receive};
pub use registering::{register_offer, register_receive};
pub use sending::{offer, try_offer};
pub use waiting::{look, settle, withdraw};
