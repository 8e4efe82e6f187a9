//! The first words of the lines of a coroutine.

/// The first word of a line.
#[derive(Clone, Copy)]
pub enum Verb {
    Send,
    TrySend,
    Receive,
    TryReceive,
    Close,
    CancelChannel,
    Yield,
    Launch,
    Async,
    Lazy,
    Start,
    Join,
    Await,
    Cancel,
    Fail,
    Result,
    Repeat,
    Each,
    Scope,
    Supervisor,
    Select,
    OnSend,
    OnReceive,
    End,
}
