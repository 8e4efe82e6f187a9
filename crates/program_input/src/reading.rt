//! A whole input.
ghost use Rattle.std.specs.Prelude.{◌≡◌, ◌≤◌, ◌<◌, ◌+◌, ◌^◌, Err, drop, length, take, IfOk, OnErr, OnOk};
ghost use Rattle.co_base.specs.Streams.{Gave, GaveAtMost, GaveJust, IsDrained, Rose};

use co_base::{Failed, ReadError, Source};
use std::alloc::Global;

/// Reads to the end, if it comes within so many bytes. Memory is taken before the first read.
pub fn read_within<S: Source>(
    alloc: Global,
    source: &mut S,
    limit: usize,
) -> Result<Vec<u8>, ReadError>
    requires { limit < 2 ^ 32 }
    ensures all { IfOk result (λ v. Gave (S.left source.old) (S.left source.new) v.items) }
    ensures drained { OnOk result (IsDrained (S.left source.new)) }
    ensures size { IfOk result (λ v. length v.items ≤ limit) }
    ensures fault { result ≡ Err ReadError.ReadFault → Rose (S.faults source.old) (S.faults source.new) }
    ensures short { result ≡ Err ReadError.ReadFault → GaveAtMost limit (S.left source.old) (S.left source.new) }
    ensures long { result ≡ Err ReadError.TooLong → GaveJust (limit + 1) (S.left source.old) (S.left source.new) }
    ensures untouched { result ≡ Err ReadError.Memory → source.new ≡ source.old }
    ensures bound { GaveAtMost (limit + 1) (S.left source.old) (S.left source.new) }
    ensures rises { S.faults source.old ≤ S.faults source.new }
{
    let mut bytes = vec![in alloc; 0u8; limit + 1]?;
    let mut count = 0usize;
    while count <= limit {
        match read_behind(source, &mut bytes, count) {
            Err(_) => return Err(ReadError::ReadFault),
            Ok(0) => {
                bytes.truncate(count);
                return Ok(bytes);
            }
            Ok(n) => count += n,
        }
    }
    Err(ReadError::TooLong)
}

/// One read, behind what the buffer holds.
fn read_behind<S: Source>(
    source: &mut S,
    bytes: &mut Vec<u8>,
    count: usize,
) -> Result<usize, Failed>
    requires { count ≤ length bytes.old.items }
    ensures length { length bytes.new.items ≡ length bytes.old.items }
    ensures front { take count bytes.new.items ≡ take count bytes.old.items }
    ensures fits { IfOk result (λ n. count + n ≤ length bytes.new.items) }
    ensures given { IfOk result (λ n. Gave (S.left source.old) (S.left source.new) (take n (drop count bytes.new.items))) }
    ensures end { IfOk result (λ n. n ≡ 0 → count < length bytes.old.items → IsDrained (S.left source.new)) }
    ensures stays { OnErr result (S.left source.new ≡ S.left source.old) }
    ensures failed { OnErr result (Rose (S.faults source.old) (S.faults source.new)) }
    ensures rises { S.faults source.old ≤ S.faults source.new }
{
    let (_, rest) = bytes.split_at_mut(count);
    source.read(rest)
}
