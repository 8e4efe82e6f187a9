//! A script written out.

ghost use Rattle.std.specs.Prelude.{◌≡◌, ◌++◌, ◌∷◌, [], ◌<◌, ◌≤◌, Ok, OnOk, IfOk, true, nat_le, length, map};
ghost use Rattle.std.specs.List.{list_all};
ghost use Rattle.std.specs.Fmt.{decimal};
ghost use lib.Chars.{codes};
ghost use Rattle.script_grammar.specs.Programs.{channel_names, block_names, name_of};
ghost use Rattle.script_grammar.specs.Lines.{kind_words, channel_words, coroutine_words, spawn_words};
ghost use Rattle.script_grammar.specs.Nesting.{depth_after};
ghost use Rattle.script_grammar.specs.Canonical.{version_lines, depth_of, code_lines, flat, deep_block, deep_blocks, canonical_text};
ghost use Rattle.script_grammar.specs.Texts.{reading_of};
ghost use Rattle.script_reader.specs.Programs.{declared_of, block_of, spawn_of};
ghost use Rattle.script_printer.specs.Printing.{text_of, line_text, names_in};
ghost use Rattle.script_reader.specs.Scripts.{program_of};

use crate::lines_out::{NameLists, block_name, decimal, push_line};
use crate::printed_lines::push_instruction;
use channel_model::Kind;
use script_grammar::Instruction;
use script_reader::{Channel, Coroutine, Script, Spawn, is_end, opens_lines};
use std::alloc::{AllocError, Global};

/// The first line of a script of version 2.
fn push_version(out: &mut Vec<u8>, version: u8) -> Result<(), AllocError>
    ensures { OnOk result (out.new.items ≡ out.old.items ++ text_of (flat (version_lines version))) }
{
    if version == 2 {
        return push_line(out, 0, &[b"script".as_slice(), b"2".as_slice()]);
    }
    Ok(())
}

/// A channel of a kind with no number.
fn push_plain_channel(
    out: &mut Vec<u8>,
    name: &[u8],
    kind: &[u8],
    places: &[u8],
) -> Result<(), AllocError>
    ensures { OnOk result (out.new.items
        ≡ out.old.items ++ line_text 0 (codes "channel" ∷ name.now ∷ kind.now ∷ codes "places" ∷ places.now ∷ [])) }
{
    push_line(out, 0, &[b"channel", name, kind, b"places", places])
}

/// A channel of a kind with a number, which is written out.
fn push_numbered_channel(
    out: &mut Vec<u8>,
    name: &[u8],
    kind: &[u8],
    capacity: &[u8],
    places: &[u8],
) -> Result<(), AllocError>
    ensures { OnOk result (out.new.items
        ≡ out.old.items ++ line_text 0 (codes "channel" ∷ name.now ∷ kind.now ∷ capacity.now ∷ codes "places" ∷ places.now ∷ [])) }
{
    push_line(
        out,
        0,
        &[b"channel", name, kind, capacity, b"places", places],
    )
}

/// A channel of a kind with a number.
fn push_sized_channel(
    alloc: Global,
    out: &mut Vec<u8>,
    name: &[u8],
    kind: &[u8],
    capacity: u32,
    places: &[u8],
) -> Result<(), AllocError>
    ensures { OnOk result (out.new.items
        ≡ out.old.items ++ line_text 0 (codes "channel" ∷ name.now ∷ kind.now ∷ decimal capacity ∷ codes "places" ∷ places.now ∷ [])) }
{
    let capacity = decimal(alloc, capacity)?;
    push_numbered_channel(out, name, kind, capacity.as_bytes(), places)
}

/// A channel of this kind, with its number of places written out.
fn push_kind(
    alloc: Global,
    out: &mut Vec<u8>,
    name: &[u8],
    kind: Kind,
    places: &[u8],
) -> Result<(), AllocError>
    ensures { OnOk result (out.new.items
        ≡ out.old.items ++ line_text 0 (codes "channel" ∷ name.now ∷ (kind_words kind true ++ codes "places" ∷ places.now ∷ []))) }
{
    match kind {
        Kind::Rendezvous => push_plain_channel(out, name, b"rendezvous", places),
        Kind::Unlimited => push_plain_channel(out, name, b"unlimited", places),
        Kind::Conflated => push_plain_channel(out, name, b"conflated", places),
        Kind::Buffered(capacity) => {
            push_sized_channel(alloc, out, name, b"buffered", capacity, places)
        }
        Kind::DropOldest(capacity) => {
            push_sized_channel(alloc, out, name, b"dropoldest", capacity, places)
        }
        Kind::DropLatest(capacity) => {
            push_sized_channel(alloc, out, name, b"droplatest", capacity, places)
        }
        // No script declares a signal: it has no word.
        Kind::Signal => push_line(out, 0, &[b"channel", name, b"places", places]),
    }
}

/// The line of a channel.
fn push_channel(alloc: Global, out: &mut Vec<u8>, channel: &Channel) -> Result<(), AllocError>
    ensures { OnOk result (out.new.items ≡ out.old.items ++ line_text 0 (channel_words (declared_of channel.now) true true)) }
{
    let places = decimal(alloc, channel.places)?;
    push_kind(
        alloc,
        out,
        channel.name.as_bytes(),
        channel.kind,
        places.as_bytes(),
    )
}

/// The lines of the channels.
fn push_channels(alloc: Global, out: &mut Vec<u8>, channels: &[Channel]) -> Result<(), AllocError>
    ensures { OnOk result (out.new.items
        ≡ out.old.items ++ text_of (flat (map (λ c. channel_words c true true) (map declared_of channels.now)))) }
{
    let mut rest = channels;
    while let [channel, more @ ..] = rest {
        push_channel(alloc, out, channel)?;
        rest = more;
    }
    Ok(())
}

/// How deep a line stands, if the lines before it lead to this depth.
fn depth_of(depth: u32, line: Instruction) -> u32
    ensures { result ≡ depth_of depth line }
{
    if is_end(line) && depth > 0 {
        depth - 1
    } else {
        depth
    }
}

/// The depth after a line.
fn depth_after(depth: u32, line: Instruction) -> u32
    requires { depth < 4294967295 }
    ensures { result ≡ depth_after line depth }
{
    if opens_lines(line) {
        depth + 1
    } else {
        depth_of(depth, line)
    }
}

/// The lines of a coroutine but its first and last.
fn push_code(
    alloc: Global,
    names: NameLists<'_>,
    out: &mut Vec<u8>,
    code: &[Instruction],
) -> Result<(), AllocError>
    requires { length code.now < 4294967294 }
    ensures { OnOk result (out.new.items ≡ out.old.items ++ text_of (code_lines (names_in names.entry) 1 code.now)) }
{
    let mut depth = 1u32;
    let mut rest = code;
    while let [line, more @ ..] = rest {
        push_instruction(alloc, names, out, depth_of(depth, *line), *line)?;
        depth = depth_after(depth, *line);
        rest = more;
    }
    Ok(())
}

/// The first line of a coroutine.
fn push_head(out: &mut Vec<u8>, name: &[u8]) -> Result<(), AllocError>
    ensures { OnOk result (out.new.items ≡ out.old.items ++ line_text 0 (coroutine_words name.now)) }
{
    push_line(out, 0, &[b"coroutine", name])
}

/// The last line of a coroutine.
fn push_end(out: &mut Vec<u8>) -> Result<(), AllocError>
    ensures { OnOk result (out.new.items ≡ out.old.items ++ line_text 0 (codes "end" ∷ [])) }
{
    push_line(out, 0, &[b"end".as_slice()])
}

/// The lines of a coroutine.
fn push_block(
    alloc: Global,
    channels: &[Channel],
    coroutines: &[Coroutine],
    out: &mut Vec<u8>,
    coroutine: &Coroutine,
) -> Result<(), AllocError>
    requires { length coroutine.now.code.items < 4294967294 }
    ensures { OnOk result (out.new.items
        ≡ out.old.items
        ++ text_of (deep_block
        (channel_names (map declared_of channels.now))
        (block_names (map block_of coroutines.now))
        (block_of coroutine.now))) }
{
    push_head(out, coroutine.name.as_bytes())?;
    let names = NameLists {
        channels,
        coroutines,
        jobs: &coroutine.jobs,
    };
    push_code(alloc, names, out, &coroutine.code)?;
    push_end(out)?;
    Ok(())
}

/// The lines of the coroutines.
fn push_blocks(
    alloc: Global,
    channels: &[Channel],
    coroutines: &[Coroutine],
    out: &mut Vec<u8>,
) -> Result<(), AllocError>
    requires { list_all (λ c. nat_le (length c.code.items) 1048577) coroutines.now ≡ true }
    ensures { OnOk result (out.new.items
        ≡ out.old.items
        ++ text_of (deep_blocks
        (channel_names (map declared_of channels.now))
        (block_names (map block_of coroutines.now))
        (map block_of coroutines.now))) }
{
    let mut rest = coroutines;
    while let [coroutine, more @ ..] = rest {
        push_block(alloc, channels, coroutines, out, coroutine)?;
        rest = more;
    }
    Ok(())
}

/// The line of a spawn.
fn push_spawn(
    alloc: Global,
    coroutines: &[Coroutine],
    out: &mut Vec<u8>,
    spawn: Spawn,
) -> Result<(), AllocError>
    ensures { OnOk result (out.new.items
        ≡ out.old.items
        ++ line_text 0 (spawn_words (name_of (block_names (map block_of coroutines.now)) (spawn_of spawn).0) (spawn_of spawn).1 true)) }
{
    let count = decimal(alloc, u32::from(spawn.count))?;
    let name = block_name(coroutines, spawn.coroutine);
    push_line(out, 0, &[b"spawn", name, count.as_bytes()])
}

/// The lines of the spawns.
fn push_spawns(
    alloc: Global,
    coroutines: &[Coroutine],
    out: &mut Vec<u8>,
    spawns: &[Spawn],
) -> Result<(), AllocError>
    ensures { OnOk result (out.new.items
        ≡ out.old.items
        ++ text_of (flat (map
        (λ s. spawn_words (name_of (block_names (map block_of coroutines.now)) s.0) s.1 true)
        (map spawn_of spawns.now)))) }
{
    let mut rest = spawns;
    while let [spawn, more @ ..] = rest {
        push_spawn(alloc, coroutines, out, *spawn)?;
        rest = more;
    }
    Ok(())
}

/// The canonical text of a script: its version, then its channels, then its coroutines, then its spawns, with all numbers that may be
/// left out.
///
/// A text of at most 1,048,576 bytes is read as the same script.
pub fn print(alloc: Global, script: &Script) -> Result<Vec<u8>, AllocError>
    ensures canonical { IfOk result (λ text. text.items ≡ canonical_text (program_of script.now)) }
    ensures read_again { IfOk result (λ text. length text.items ≤ 1048576 → reading_of text.items ≡ Ok (program_of script.now)) }
{
    let mut out = Vec::new(alloc);
    push_version(&mut out, script.version())?;
    push_channels(alloc, &mut out, script.channels())?;
    push_blocks(alloc, script.channels(), script.blocks(), &mut out)?;
    push_spawns(alloc, script.blocks(), &mut out, script.spawns())?;
    Ok(out)
}
