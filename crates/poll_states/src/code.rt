//! The code that a coroutine runs.

ghost use Rattle.std.specs.Prelude.{◌≡◌, ◌<◌, Some};
ghost use Rattle.script_reader.specs.Scripts.{program_of};
ghost use Rattle.script_grammar.specs.Nesting.{closing_of};
ghost use Rattle.script_grammar.specs.Tags.{code_of};
ghost use Rattle.poll_states.specs.Frames.{IsInRun, Opens};

use co_base::Tag;
use script_reader::{Instruction, Script};

/// The lines of the coroutine with this tag.
pub(crate) fn code_of(script: &Script, tag: Tag) -> &[Instruction]
    requires { IsInRun script.now tag }
    ensures { result.now ≡ code_of (program_of script.now) tag }
{
    let block = script.coroutine_of(tag) as usize;
    script.blocks()[block].code.as_slice()
}

/// The line that closes what this line of the coroutine with this tag opens.
pub(crate) fn closing(script: &Script, tag: Tag, line: usize) -> usize
    requires tag { IsInRun script.now tag }
    requires opens { Opens script.now tag line }
    ensures closes { closing_of (code_of (program_of script.now) tag) line ≡ Some result }
    ensures few { result < 4294967296 }
{
    script.closing(script.coroutine_of(tag), line as u32) as usize
}
