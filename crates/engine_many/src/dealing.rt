//! The first tickets.

ghost use Rattle.std.specs.Prelude.{◌≡◌, ◌<◌, vec_len};

use co_base::Tag;
use script_reader::Script;
use task_crew::Tickets;

/// A ticket for main, and then one for each spawned instance in order, dealt to the lanes in turn.
pub(crate) fn deal(lanes: &mut Vec<Tickets>, script: &Script)
    requires some { 0 < vec_len lanes.old }
    ensures count { vec_len lanes.new ≡ vec_len lanes.old }
{
    let workers = lanes.len();
    let mut next = 0;
    lanes[0].put(0);
    let mut tag: Tag = 1;
    for spawn in script.spawns() {
        let size = script.size_of(spawn.coroutine);
        for _instance in 0..spawn.count {
            next = if next + 1 < workers { next + 1 } else { 0 };
            lanes[next].put(tag);
            tag = tag.saturating_add(size);
        }
    }
}
