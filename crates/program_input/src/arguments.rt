//! The arguments that the system gives.
ghost use Rattle.std.specs.Prelude.{◌≡◌, IfOk, option_map};
ghost use Rattle.std.specs.Vec.Iter.{into_iter_items};
ghost use Rattle.program_input.specs.Arguments.{arguments_given};

use co_base::Memory;
use std::alloc::Global;
use std::env::Args;
use std::io;

/// The arguments, if each is a text. Err: no memory was found.
pub fn texts_of(alloc: Global, arguments: io::Result<Args>) -> Result<Option<Vec<String>>, Memory>
    ensures { IfOk result (λ texts. option_map (λ all. all.items) texts ≡ arguments_given arguments) }
{
    match arguments {
        Ok(given) => Ok(Some(all_of(alloc, given)?)),
        Err(error) if error.kind() == io::ErrorKind::OutOfMemory => Err(Memory),
        Err(_) => Ok(None),
    }
}

/// All arguments, in their order.
fn all_of(alloc: Global, arguments: Args) -> Result<Vec<String>, Memory>
    ensures { IfOk result (λ all. all.items ≡ into_iter_items arguments) }
{
    let mut all = Vec::new(alloc);
    for text in arguments {
        all.push(text)?;
    }
    Ok(all)
}
