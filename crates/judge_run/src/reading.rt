//! The whole input.

ghost use Rattle.std.specs.Prelude.{◌≡◌, ◌≤◌, Err, length, IfOk, OnOk};
ghost use Rattle.co_base.specs.Streams.{Gave, GaveJust, IsDrained, Rose};

use co_base::{ReadError, Source};
use program_input::read_within;
use std::alloc::Global;

/// The most bytes that an input may have.
const LONGEST: usize = 67_108_864;

/// Reads to the end.
///
/// Memory is taken before the first read, and an input that is too long is read no further than one byte past its limit.
pub(crate) fn read_all<S: Source>(alloc: Global, source: &mut S) -> Result<Vec<u8>, ReadError>
    ensures all { IfOk result (λ v. Gave (S.left source.old) (S.left source.new) v.items) }
    ensures drained { OnOk result (IsDrained (S.left source.new)) }
    ensures size { IfOk result (λ v. length v.items ≤ 67108864) }
    ensures fault { result ≡ Err ReadError.ReadFault → Rose (S.faults source.old) (S.faults source.new) }
    ensures long { result ≡ Err ReadError.TooLong → GaveJust 67108865 (S.left source.old) (S.left source.new) }
{
    read_within(alloc, source, LONGEST)
}
