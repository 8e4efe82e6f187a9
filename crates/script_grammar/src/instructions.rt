//! The lines of a coroutine.

use co_base::{ChannelId, Value};

/// What a line sends, or gives as the result: a number, or the word that stands for one while the script runs.
#[derive(Clone, Copy)]
pub enum Operand {
    Number(Value),
    /// The word `it`: the value that was received or awaited last.
    It,
    /// The word `sum`: the sum of these values, modulo 2^32.
    Sum,
}

/// How a line launches a coroutine.
#[derive(Clone, Copy)]
pub enum Launching {
    /// The word `launch`: it is started at once, and its Job may not be awaited.
    Plain,
    /// The word `async`: its Job may be awaited.
    Async,
    /// The word `lazy`: the same, but it is started by `start`, `join` or `await` alone.
    Lazy,
}

/// One line of a coroutine. A channel and a block are named by their numbers in the script, and a Job by the number of its
/// name among the names of the block.
#[derive(Clone, Copy)]
pub enum Instruction {
    Send {
        c: ChannelId,
        value: Operand,
    },
    TrySend {
        c: ChannelId,
        value: Operand,
    },
    Receive {
        c: ChannelId,
    },
    TryReceive {
        c: ChannelId,
    },
    Close {
        c: ChannelId,
    },
    CancelChannel {
        c: ChannelId,
    },
    Yield,
    /// Launches an instance of the block; `job` is the number of the name that its Job gets.
    Launch {
        block: u16,
        how: Launching,
        job: Option<u16>,
    },
    Start {
        job: u16,
    },
    Join {
        job: u16,
    },
    Await {
        job: u16,
    },
    Cancel {
        job: u16,
    },
    Fail {
        code: Value,
    },
    SetResult {
        value: Operand,
    },
    /// Runs the lines up to its end so many times, 1 to 1,000,000.
    Repeat {
        turns: u32,
    },
    /// Receives, and runs the lines up to its end, until the channel is closed.
    Each {
        c: ChannelId,
    },
    Scope {
        supervisor: bool,
    },
    Select,
    /// A clause of a select.
    OnSend {
        c: ChannelId,
        value: Operand,
    },
    /// A clause of a select.
    OnReceive {
        c: ChannelId,
    },
    /// The end of a repeat, an each, a scope or a select.
    End,
}
