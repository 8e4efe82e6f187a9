//! How marks look.

ghost use Rattle.std.specs.Prelude.{◌≡◌};
ghost use Rattle.report_picture.specs.Elements.{look_word, shade_word, state_word};

/// How far a Job is, or how it ended.
#[derive(Clone, Copy)]
pub enum State {
    New,
    Active,
    Completing,
    Cancelling,
    Completed,
    Cancelled,
    Failed,
}

impl State {
    /// The name of the state, by which the style says how it looks.
    pub(crate) fn word(self) -> &'static [u8]
        ensures { result.now ≡ state_word self }
    {
        match self {
            State::New => b"new",
            State::Active => b"active",
            State::Completing => b"completing",
            State::Cancelling => b"cancelling",
            State::Completed => b"completed",
            State::Cancelled => b"cancelled",
            State::Failed => b"failed",
        }
    }
}

/// The colour and the dash of a channel.
#[derive(Clone, Copy)]
pub enum Shade {
    Blue,
    Green,
    Purple,
    Black,
    DashedBlue,
    DashedGreen,
    DashedPurple,
    DashedBlack,
}

impl Shade {
    /// The name by which the style says how the arrows of the channel look.
    fn word(self) -> &'static [u8]
        ensures { result.now ≡ shade_word self }
    {
        match self {
            Shade::Blue => b"a",
            Shade::Green => b"b",
            Shade::Purple => b"c",
            Shade::Black => b"d",
            Shade::DashedBlue => b"e",
            Shade::DashedGreen => b"f",
            Shade::DashedPurple => b"g",
            Shade::DashedBlack => b"h",
        }
    }
}

/// How a mark looks.
#[derive(Clone, Copy)]
pub enum Look {
    /// What the picture stands on.
    Paper,
    /// The stretch of a life in which the Job is in this state.
    Life(State),
    /// What a coroutine does after its Job ended.
    Past,
    /// The place of a line in a life.
    Tick,
    /// A wait.
    Wait,
    /// An arrow of an element, to the line that got it.
    Brings(Shade),
    /// An arrow to a line from what brought it about.
    Joins,
    /// An arrow of a cancellation, to the line that saw it.
    Cancels,
    /// The end of an element that was not received.
    Lost,
    /// The text at the foot of a column.
    Foot,
    /// The same of a coroutine that waits.
    Hangs,
    /// Another text.
    Label,
}

impl Look {
    /// The name by which the style says how the mark looks.
    pub(crate) fn word(self) -> &'static [u8]
        ensures { result.now ≡ look_word self }
    {
        match self {
            Look::Paper => b"paper",
            Look::Life(state) => state.word(),
            Look::Past => b"past",
            Look::Tick => b"tick",
            Look::Wait => b"wait",
            Look::Brings(shade) => shade.word(),
            Look::Joins => b"joins",
            Look::Cancels => b"cancels",
            Look::Lost => b"lost",
            Look::Foot => b"foot",
            Look::Hangs => b"hangs",
            Look::Label => b"label",
        }
    }
}
