//! The script whose run adds up numbers.

ghost use Rattle.std.specs.Prelude.{◌≡◌, ◌++◌, ◌∷◌, [], ◌≤◌, Ok, OnOk, IfOk};
ghost use Rattle.std.specs.List.{concat};
ghost use lib.Chars.{codes};
ghost use Rattle.script_grammar.specs.Words.{texts};
ghost use Rattle.script_grammar.specs.Texts.{reading_of};
ghost use Rattle.script_grammar.specs.Generated.{generated, generated_text};
ghost use Rattle.script_printer.specs.GeneratedText.{others_text};
ghost use Rattle.script_reader.specs.Scripts.{program_of};

use crate::lines_out::decimal;
use script_grammar::FaultKind;
use script_reader::{Script, read};
use std::alloc::{AllocError, Global};

/// Adds pieces of text.
fn push_pieces(out: &mut Vec<u8>, pieces: &[&[u8]]) -> Result<(), AllocError>
    ensures { OnOk result (out.new.items ≡ out.old.items ++ concat (texts pieces.now)) }
{
    let mut rest = pieces;
    while let [piece, more @ ..] = rest {
        out.extend_from_slice(*piece)?;
        rest = more;
    }
    Ok(())
}

/// The coroutine of this name, which sends a value n times.
fn push_sender(out: &mut Vec<u8>, name: &[u8], value: &[u8], turns: &[u8]) -> Result<(), AllocError>
    ensures { OnOk result (out.new.items
        ≡ out.old.items
        ++ concat (codes "coroutine " ∷ name.now ∷ codes "\n  repeat " ∷ turns.now
        ∷ codes "\n    send a " ∷ value.now ∷ codes "\n  end\nend\n" ∷ [])) }
{
    push_pieces(
        out,
        &[
            b"coroutine ",
            name,
            b"\n  repeat ",
            turns,
            b"\n    send a ",
            value,
            b"\n  end\nend\n",
        ],
    )
}

/// The channels, with so many places.
fn push_channels(out: &mut Vec<u8>, places: &[u8]) -> Result<(), AllocError>
    ensures { OnOk result (out.new.items
        ≡ out.old.items
        ++ concat (codes "channel a buffered 64 places " ∷ places.now
        ∷ codes "\nchannel b rendezvous places " ∷ places.now ∷ codes "\n" ∷ [])) }
{
    push_pieces(
        out,
        &[
            b"channel a buffered 64 places ",
            places,
            b"\nchannel b rendezvous places ",
            places,
            b"\n",
        ],
    )
}

/// The coroutines that hand elements on and add them up, and the root.
fn push_others(out: &mut Vec<u8>) -> Result<(), AllocError>
    ensures { OnOk result (out.new.items ≡ out.old.items ++ concat others_text) }
{
    let text = b"coroutine mapper\n  each a\n    send b it\n  end\nend\n\
        coroutine consumer\n  each b\n  end\n  result sum\nend\n\
        coroutine main\n  launch mapper as m1\n  launch mapper as m2\n  \
        async consumer as c1\n  async consumer as c2\n  async consumer as c3\n  \
        scope\n    launch p1\n    launch p2\n    launch p3\n    launch p4\n  end\n  \
        close a\n  join m1\n  join m2\n  close b\n  await c1\n  await c2\n  await c3\n  result sum\nend\n";
    out.extend_from_slice(text.as_slice())?;
    Ok(())
}

/// The text of the script.
fn text_for(alloc: Global, n: u32) -> Result<Vec<u8>, AllocError>
    requires { n ≤ 100000 }
    ensures { IfOk result (λ text. text.items ≡ generated_text n) }
{
    let places = decimal(alloc, 4 * n + 8)?;
    let turns = decimal(alloc, n)?;
    let turns = turns.as_bytes();
    let mut out = Vec::new(alloc);
    push_channels(&mut out, places.as_bytes())?;
    push_sender(&mut out, b"p1", b"1", turns)?;
    push_sender(&mut out, b"p2", b"2", turns)?;
    push_sender(&mut out, b"p3", b"3", turns)?;
    push_sender(&mut out, b"p4", b"4", turns)?;
    push_others(&mut out)?;
    Ok(out)
}

/// The script whose run adds up numbers: four coroutines send n elements each, which two others hand on and three add up.
///
/// `n` is 1 to 100,000. The root's expected result is 10 n.
pub fn generate(alloc: Global, n: u32) -> Result<Script, AllocError>
    requires low { 1 ≤ n }
    requires high { n ≤ 100000 }
    ensures generated { IfOk result (λ script. program_of script ≡ generated n) }
    ensures read { IfOk result (λ script. reading_of (generated_text n) ≡ Ok (program_of script)) }
{
    let text = text_for(alloc, n)?;
    match read(alloc, &text) {
        Ok(script) => Ok(script),
        Err(fault) => match fault.kind {
            FaultKind::Memory => Err(AllocError),
            _ => unreachable!(),
        },
    }
}
