//! The root attaches what the script spawns.

ghost use Rattle.std.specs.Prelude.{◌≡◌, ◌<◌, length};
ghost use Rattle.script_reader.specs.Scripts.{program_of};
ghost use Rattle.poll_states.specs.Frames.{noted, seen_on_jobs};
ghost use Rattle.poll_states.specs.Steps.{IsNewRoot, IsOnItsJobs, BeginAnswer, IsForSpawn, SpawnAnswer};

use crate::book::Book;
use crate::coroutine::Coroutine;
use crate::frame::Frame;
use co_base::{Memory, Tag};
use job_model::JobFloor;
use note_book::NoteBook;
use scope_builders::{LaunchError, attach_coroutine};
use script_reader::Script;

/// Attaches the Jobs of the spawned coroutines to the root, in the order of their tags, before the first poll. A refusal is noted, and the
/// root's body then breaks off. Whoever polls begins with the root and these coroutines.
///
/// On want of memory the Jobs attached so far stand and are noted, and the frame may only be turned into its book or dropped.
pub fn begin<B: Book, J: JobFloor>(
    script: &Script,
    frame: &mut Frame<B>,
    jobs: &mut J,
) -> Result<(), Memory>
    requires new { IsNewRoot frame.old }
    requires on { IsOnItsJobs (program_of script.now) (J.view jobs.old) }
    ensures begun { BeginAnswer (program_of script.now) (J.view jobs.old) (J.view jobs.new) frame.old frame.new result }
    ensures anchor { J.anchor jobs.new ≡ J.anchor jobs.old }
{
    spawn_all(script, &mut frame.coroutine, jobs)
}

/// Attaches the Jobs of all that the script spawns to the root.
fn spawn_all<B: NoteBook, J: JobFloor>(
    script: &Script,
    frame: &mut Coroutine<B>,
    jobs: &mut J,
) -> Result<(), Memory>
    requires new { IsNewRoot (noted B.items frame.old) }
    requires on { IsOnItsJobs (program_of script.now) (J.view jobs.old) }
    ensures begun { BeginAnswer (program_of script.now) (J.view jobs.old) (J.view jobs.new)
        (noted B.items frame.old) (noted B.items frame.new) result }
    ensures anchor { J.anchor jobs.new ≡ J.anchor jobs.old }
{
    for spawn in script.spawns() {
        let mut made = 0u16;
        while made < spawn.count {
            match spawn_one(script, frame, jobs, spawn.coroutine) {
                Ok(attached) => {
                    if !attached {
                        return Ok(());
                    }
                }
                Err(memory) => return Err(memory),
            }
            made += 1;
        }
    }
    Ok(())
}

/// Attaches the Job of an instance of this block to the root. The answer says whether it was attached.
fn spawn_one<B: NoteBook, J: JobFloor>(
    script: &Script,
    frame: &mut Coroutine<B>,
    jobs: &mut J,
    block: u16,
) -> Result<bool, Memory>
    requires block { block < length (program_of script.now).blocks }
    requires next { IsForSpawn (program_of script.now) block (J.view jobs.old) (noted B.items frame.old) }
    ensures spawned { SpawnAnswer (program_of script.now) block (seen_on_jobs J.view B.items jobs.old frame.old)
        (seen_on_jobs J.view B.items jobs.new frame.new) (noted B.items frame.old) (noted B.items frame.new) result }
    ensures anchor { J.anchor jobs.new ≡ J.anchor jobs.old }
{
    let size = script.size_of(block);
    let free = frame.free as Tag;
    match attach_coroutine(jobs, &mut frame.book, frame.tag, 0, free, false) {
        Ok(_) => {
            frame.free += u32::from(size);
            Ok(true)
        }
        Err(error) => match error {
            LaunchError::NoRow => unreachable!(),
            LaunchError::Used | LaunchError::ParentEnded => {
                frame.fail();
                Ok(false)
            }
            LaunchError::Memory => Err(Memory),
        },
    }
}
