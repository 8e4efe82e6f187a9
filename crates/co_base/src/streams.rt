//! Where bytes come from and where they go.
ghost use Rattle.std.specs.Prelude.{◌≡◌, ℕ, ◌≤◌, ◌<◌, List, [], Option, length, take, IfOk, OnErr};
ghost use Rattle.co_base.specs.Streams.{one_more, Rose, Gave, Took, IsDrained};

use crate::names::Failed;

// A count after one more.
pub(crate) fn raised(count: u64) -> u64
    ensures value { result ≡ one_more count }
    ensures rose { Rose count result }
    ensures rises { count ≤ result }
{
    count.saturating_add(1)
}

/// What bytes are read from.
///
/// A source may tell which bytes it still has; one that does not tell them claims nothing of them.
pub trait Source {
    // The number of failures so far, which stands still at its last value.
    ghost faults: { Self → ℕ };

    // The bytes still to come, if they are told.
    ghost left: { Self → Option (List ℕ) };

    /// Writes the next bytes into the front of `buf` and gives their number. No bytes for a buffer that has room say that the input has
    /// ended.
    fn read(&mut self, buf: &mut [u8]) -> Result<usize, Failed>
        ensures length { length buf.new ≡ length buf.old }
        ensures count { IfOk result (λ n. n ≤ length buf.old) }
        ensures given { IfOk result (λ n. Gave (left self.old) (left self.new) (take n buf.new)) }
        ensures end { IfOk result (λ n. n ≡ 0 → 0 < length buf.old → IsDrained (left self.new)) }
        ensures stays { OnErr result (left self.new ≡ left self.old) }
        ensures failed { OnErr result (Rose (faults self.old) (faults self.new)) }
        ensures rises { faults self.old ≤ faults self.new };
}

/// What bytes are written to.
///
/// A sink may tell which bytes it holds, and may stop telling them; it never begins to.
pub trait Sink {
    // The number of failures so far, which stands still at its last value.
    ghost faults: { Self → ℕ };

    // The bytes taken so far, if they are told.
    ghost held: { Self → Option (List ℕ) };

    /// Takes bytes from the front of the piece and gives their number.
    fn write(&mut self, bytes: &[u8]) -> Result<usize, Failed>
        ensures count { IfOk result (λ n. n ≤ length bytes.now) }
        ensures taken { IfOk result (λ n. Took (held self.old) (held self.new) (take n bytes.now)) }
        ensures none { IfOk result (λ n. n ≡ 0 → 0 < length bytes.now → Rose (faults self.old) (faults self.new)) }
        ensures stays { OnErr result (Took (held self.old) (held self.new) []) }
        ensures failed { OnErr result (Rose (faults self.old) (faults self.new)) }
        ensures rises { faults self.old ≤ faults self.new };
}
