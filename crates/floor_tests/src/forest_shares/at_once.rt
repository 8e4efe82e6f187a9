//! Four shares, worked on by one, two or four threads at once.
ghost use Rattle.std.specs.Prelude.{◌≡◌, ◌<◌, ℕ, length, slice_index_or};
ghost use Rattle.std.specs.List.{All};
ghost use Rattle.floor_tests.specs.Shares.{IsShare};

use crate::forest_shares::shares::{Share, Work, run};
use job_words::Forest;
use std::alloc::Global;
use std::sync::Wait;
use std::thread::{self, Threads};

/// Four shares of the tags of one forest.
#[derive(Drop)]
pub struct Four {
    pub a: Share,
    pub b: Share,
    pub c: Share,
    pub d: Share,
}

/// The work of all shares, by so many threads.
fn at_once<R: Threads + Wait + Sync>(
    rt: &R,
    forest: &Forest,
    coroutines: u16,
    alloc: Global,
    shares: &mut [Share],
    work: Work,
    threads: usize,
)
    requires size { forest.now.size.coroutines ≡ coroutines }
    requires some { 0 < threads }
    requires shares { All (IsShare forest.now) shares.old }
    ensures shares { (i : ℕ) (d : Share) → i < length shares.old → IsShare forest.now (slice_index_or shares.new i d) }
{
    thread::for_each_mut(
        rt,
        shares,
        threads,
        &|_, share| run(forest, coroutines, alloc, share, work),
    );
}

/// The work of four shares, by so many threads, which are one, two or four.
pub fn work_by<R: Threads + Wait + Sync>(
    rt: &R,
    forest: &Forest,
    coroutines: u16,
    alloc: Global,
    four: Four,
    work: Work,
    threads: u8,
) -> Four
    requires size { forest.now.size.coroutines ≡ coroutines }
    requires a { IsShare forest.now four.a }
    requires b { IsShare forest.now four.b }
    requires c { IsShare forest.now four.c }
    requires d { IsShare forest.now four.d }
    ensures a { IsShare forest.now result.a }
    ensures b { IsShare forest.now result.b }
    ensures c { IsShare forest.now result.c }
    ensures d { IsShare forest.now result.d }
{
    let Four { a, b, c, d } = four;
    let mut shares = [a, b, c, d];
    let threads = threads.max(1) as usize;
    at_once(rt, forest, coroutines, alloc, &mut shares, work, threads);
    let [a, b, c, d] = shares;
    Four { a, b, c, d }
}

impl Four {
    /// How many calls came to what they are made for.
    pub fn count(&self) -> u32 {
        self.a
            .count
            .saturating_add(self.b.count)
            .saturating_add(self.c.count)
            .saturating_add(self.d.count)
    }
}
