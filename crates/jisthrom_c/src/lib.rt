//! Scripts and channels for programs in C, and in what calls C.
//!
//! A static library. `include/jisthrom.h` is its header, written by hand, and `docs/C.md` says how it is built and linked.
//!
//! - this file: one call, from the bytes of a script to those of its report
//! - `channels`: channels by ends that C holds
#![tactic(auto)]

mod channels;

ghost use Rattle.std.specs.Prelude.{◌≡◌, take, string_bytes, map, codes, [], ◌∷◌, IfOk};
ghost use Rattle.co_base.specs.InMemory.{bytes_held};
ghost use Rattle.command_line.specs.declared.status.Ending.{Ending as HowItEnded};
ghost use Rattle.command_line.specs.declared.status.Status.{Status as Outcome};
ghost use Rattle.command_line.specs.Statuses.{number_of, status_of};
ghost use Rattle.jisthrom_c.specs.Calls.{Answers, Says, Leaves};

use co_base::{LONGEST_SCRIPT, Memory, MemorySink, OpenGate, SteadySource};
use command_line::coroutine_main_alone;
use std::alloc::Global;

/// The number of `Status::WriteFault`: the text is longer than the room for it.
const LONGER_THAN_ROOM: u32 = 6;

/// The number of `Status::NoMemory`.
const NO_MEMORY: u32 = 7;

/// What a run came to: the number of its ending, and the sink that holds its text.
#[derive(Drop)]
struct Ran {
    number: u8,
    sink: MemorySink,
}

/// Runs a script by one worker, in the calling thread, and writes the report of the run, or the line of the first fault, into the front of
/// `report`. `size` is then the length of that text in bytes, also where it is longer than the room, and 0 where there was no memory. So
/// who gives no room at all learns how much is needed; a run by one worker gives the same report each time.
///
/// 0 completed, 1 cancelled, 3 no script, 4 idle, 6 the text is longer than the room, 7 no memory.
#[unsafe(no_mangle)]
pub extern "C" fn jisthrom_run(
    alloc: Global,
    script: &[u8],
    report: &mut [u8],
    size: &mut usize,
) -> u32
    ensures { (status : Outcome) × (result ≡ number_of status) × Says status script.now report.old report.new size.new }
{
    match run(alloc, script) {
        Ok(ran) => hand_over(&ran, report, size),
        Err(_) => {
            *size = 0;
            NO_MEMORY
        }
    }
}

/// Runs the script. The words ask for one worker, so they are never refused, and the source never fails: what else ends without a text is
/// for want of memory.
fn run(alloc: Global, script: &[u8]) -> Result<Ran, Memory>
    ensures { IfOk result (λ ran. (how : HowItEnded) × (ran.number ≡ number_of (status_of how))
        × Answers how script.now (bytes_held ran.sink)) }
{
    let words = one_worker(alloc)?;
    let mut source = SteadySource::new(alloc, front_of(script))?;
    let mut sink = MemorySink::new(alloc, u32::MAX, &[])?;
    let number = coroutine_main_alone(alloc, words.as_slice(), &mut source, &mut sink, &OpenGate);
    if number > 4 {
        return Err(Memory);
    }
    Ok(Ran { number, sink })
}

/// As many of the first bytes as are read: one more than a script may have.
fn front_of(script: &[u8]) -> &[u8]
    ensures { result.now ≡ take 1048577 script.now }
{
    let read = (LONGEST_SCRIPT + 1).min(script.len());
    let (front, _) = script.split_at(read);
    front
}

/// The words `run --workers 1`.
fn one_worker(alloc: Global) -> Result<Vec<String>, Memory>
    ensures { IfOk result (λ words. map string_bytes words.items ≡ codes "run" ∷ codes "--workers" ∷ codes "1" ∷ []) }
{
    let mut words = Vec::new(alloc);
    words.push(String::from_str(alloc, "run")?)?;
    words.push(String::from_str(alloc, "--workers")?)?;
    words.push(String::from_str(alloc, "1")?)?;
    Ok(words)
}

/// Writes the text where it fits, and answers the number of the ending, or that the text is longer than the room.
fn hand_over(ran: &Ran, report: &mut [u8], size: &mut usize) -> u32
    ensures { Leaves ran.now.number (bytes_held ran.now.sink) report.old report.new size.new result }
{
    let text = ran.sink.bytes();
    *size = text.len();
    if text.len() > report.len() {
        return LONGER_THAN_ROOM;
    }
    let (front, _) = report.split_at_mut(text.len());
    front.copy_from_slice(text);
    ran.number as u32
}
