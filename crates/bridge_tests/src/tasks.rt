//! A sink and a stream as two tasks of one thread.
ghost use Rattle.std.specs.Prelude.{ℕ};

use futures::executor::block_on;
use futures::future::join as join_tasks;
use futures::stream::iter;
use futures::{Sink, SinkExt, Stream, StreamExt};
use std::alloc::AllocGlobal;
use std::random::RandomSource;
use std::sync::Wait;

/// Sends a hundred numbers from 0 on, and takes as many items. Answers whether the sink sent all, and the items. None: there was no memory
/// for them, or no means to wait.
pub(crate) fn take_turns<R: Wait + RandomSource + AllocGlobal, K: Sink<u32>, S: Stream>(
    rt: &R,
    sink: K,
    stream: S,
) -> Option<(bool, Vec<S::Item>)>
where
    K::Error: Drop,
    S::Item: Drop,
    requires sink { K.can_poll sink }
    requires takes { (number : ℕ) → K.takes sink number }
    requires stream { S.can_poll stream }
{
    let numbers = iter(0..100u32).map(|n| -> Result<u32, K::Error> { Ok(n) });
    let sends = sink.send_all(numbers);
    let receives = stream.take(100).collect(rt.alloc());
    let Ok((sent, received)) = block_on(rt, join_tasks(sends, receives)) else {
        return None;
    };
    match received {
        Ok(items) => Some((sent.is_ok(), items)),
        Err(_) => None,
    }
}
