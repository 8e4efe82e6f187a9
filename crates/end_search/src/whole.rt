//! Whether memory held what was gathered.

use co_base::Memory;

/// What is told where lists were gathered, and memory held all of them or not.
pub(crate) fn if_whole(whole: bool) -> Result<(), Memory> {
    if whole { Ok(()) } else { Err(Memory) }
}
