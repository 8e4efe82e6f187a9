//! First words of the lines of a coroutine.

ghost use Rattle.std.specs.Prelude.{◌≡◌};
ghost use Rattle.script_grammar.specs.Verbs.{word_of_verb, among, verb_of};

use script_grammar::Verb;

/// The word of a verb.
fn word_of_verb(verb: Verb) -> &'static [u8]
    ensures { result.now ≡ word_of_verb verb }
{
    match verb {
        Verb::Send => b"send",
        Verb::TrySend => b"trysend",
        Verb::Receive => b"receive",
        Verb::TryReceive => b"tryreceive",
        Verb::Close => b"close",
        Verb::CancelChannel => b"cancelchannel",
        Verb::Yield => b"yield",
        Verb::Launch => b"launch",
        Verb::Async => b"async",
        Verb::Lazy => b"lazy",
        Verb::Start => b"start",
        Verb::Join => b"join",
        Verb::Await => b"await",
        Verb::Cancel => b"cancel",
        Verb::Fail => b"fail",
        Verb::Result => b"result",
        Verb::Repeat => b"repeat",
        Verb::Each => b"each",
        Verb::Scope => b"scope",
        Verb::Supervisor => b"supervisor",
        Verb::Select => b"select",
        Verb::OnSend => b"onsend",
        Verb::OnReceive => b"onreceive",
        Verb::End => b"end",
    }
}

/// The first of the verbs whose word it is.
fn among(word: &[u8], verbs: &[Verb]) -> Option<Verb>
    ensures { result ≡ among word.now verbs.now }
{
    let mut rest = verbs;
    while let [verb, more @ ..] = rest {
        if word == word_of_verb(*verb) {
            return Some(*verb);
        }
        rest = more;
    }
    None
}

/// The first word of a line in a block.
#[tactic(auto, unfolding(script_grammar::specs::Verbs::verb_of))]
pub(crate) fn verb_of(word: &[u8]) -> Option<Verb>
    ensures { result ≡ verb_of word.now }
{
    among(
        word,
        &[
            Verb::Send,
            Verb::TrySend,
            Verb::Receive,
            Verb::TryReceive,
            Verb::Close,
            Verb::CancelChannel,
            Verb::Yield,
            Verb::Launch,
            Verb::Async,
            Verb::Lazy,
            Verb::Start,
            Verb::Join,
            Verb::Await,
            Verb::Cancel,
            Verb::Fail,
            Verb::Result,
            Verb::Repeat,
            Verb::Each,
            Verb::Scope,
            Verb::Supervisor,
            Verb::Select,
            Verb::OnSend,
            Verb::OnReceive,
            Verb::End,
        ],
    )
}
