//! A gate that holds coroutines at points until others have come to theirs, or passed them.
//!
//! Nothing is claimed of it but that a pass returns.

use co_base::{Gate, Memory, Tag};
use std::alloc::Global;
use std::sync::atomic::{AtomicU64, Ordering};

/// Holds `tag` at `point` until `other` has passed `other_point` so many times, or has come to it, where `passed` is false.
#[derive(Clone, Copy)]
pub struct HoldRule {
    pub tag: Tag,
    pub point: u8,
    pub other: Tag,
    pub other_point: u8,
    pub passed: bool,
    pub times: u32,
}

/// A rule, and how often the other came there or passed.
#[derive(Drop)]
struct Hold {
    rule: HoldRule,
    count: AtomicU64,
}

impl Hold {
    /// Counts the other, where it is this one that comes or passes.
    fn count(&self, who: Tag, point: u8, passed: bool) {
        let rule = self.rule;
        if rule.other == who && rule.other_point == point && rule.passed == passed {
            self.count.fetch_add(1, Ordering::SeqCst);
        }
    }

    /// Whether the rule holds this one here.
    fn is_of(&self, who: Tag, point: u8) -> bool {
        self.rule.tag == who && self.rule.point == point
    }

    /// Waits until the rule is met, for so many turns at most; how many are left.
    fn wait(&self, turns: u64) -> u64 {
        for turn in 0..turns {
            if self.count.load(Ordering::SeqCst) >= u64::from(self.rule.times) {
                return turns - turn;
            }
        }
        0
    }
}

/// A gate with such rules. Where several name one tag and point, the tag is held until all of them are met.
///
/// A turn is one look whether a rule is met. Whoever was held for so many turns at one pass is let go.
#[derive(Drop)]
pub struct HoldGate {
    holds: Vec<Hold>,
    turns: u64,
    let_go: AtomicU64,
}

impl HoldGate {
    /// A gate with these rules, at which nobody is held for more turns.
    pub fn new(alloc: Global, rules: &[HoldRule], turns: u64) -> Result<HoldGate, Memory> {
        let mut holds = Vec::with_capacity(alloc, rules.len())?;
        for rule in rules {
            holds.push(Hold {
                rule: *rule,
                count: AtomicU64::new(0),
            })?;
        }
        Ok(HoldGate {
            holds,
            turns,
            let_go: AtomicU64::new(0),
        })
    }

    /// Whether somebody was let go whose rules were not met.
    pub fn gave_up(&self) -> bool {
        self.let_go.load(Ordering::SeqCst) != 0
    }

    fn count(&self, who: Tag, point: u8, passed: bool) {
        for hold in &self.holds {
            hold.count(who, point, passed);
        }
    }

    fn hold(&self, who: Tag, point: u8) {
        let mut turns = self.turns;
        for hold in &self.holds {
            if hold.is_of(who, point) {
                turns = hold.wait(turns);
                if turns == 0 {
                    self.let_go.store(1, Ordering::SeqCst);
                    return;
                }
            }
        }
    }
}

impl Gate for HoldGate {
    fn pass(&self, who: Tag, point: u8) {
        self.count(who, point, false);
        self.hold(who, point);
        self.count(who, point, true);
    }
}
