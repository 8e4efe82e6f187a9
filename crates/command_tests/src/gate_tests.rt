//! The points of the gate that polls pass, in their order.

use crate::calls::{cut, push_line};
use co_base::{Gate, Memory, Tag};
use engine_one::{ListRun, run_one};
use note_book::Notes;
use script_reader::{Script, read};
use std::alloc::Global;
use std::cell::RefCell;
use std::test::Fail;

/// A script of every line. `main` makes the calls, each by one poll, since whoever it is to meet stands or has ended before.
const EVERY_LINE: &str = "\
channel a rendezvous
channel b buffered
channel d buffered
coroutine sender
send a 1
send a 2
end
coroutine leaf
end
coroutine slow
yield
yield
end
coroutine main
launch sender
send b 5
trysend b 6
receive b
tryreceive b
yield
receive a
repeat 2
result it
end
select
onreceive a
end
scope
launch leaf
end
supervisor
launch slow
end
async leaf as k
await k
lazy slow as m
start m
join m
lazy leaf as n
cancel n
send b 7
close b
each b
result sum
end
cancelchannel d
fail 7
end
";

/// What polls of `main` pass: a line with calls its points 2 and 3, a `cancel` its pass between them. A wait that ended is settled by a
/// poll of its own: that at the end of the supervisor, and that of the `join`.
const OF_MAIN: &str = "\
launch 1238
send 1238
trysend 1238
receive 1238
tryreceive 1238
yield 1238
receive 1238
select 1238
scope 1238
launch 1238
end 1238
supervisor 1238
launch 1238
end 1238
end 1458
async 1238
await 1238
lazy 1238
start 1238
join 1238
join 1458
lazy 1238
cancel 126738
send 1238
close 1238
each 1238
each 1238
cancelchannel 1238
";

/// Both sends wait, and each wait is resolved by `main`.
const OF_SENDER: &str = "\
send 1238
send 1458
send 1238
send 1458
";

const OF_SLOW: &str = "\
yield 1238
yield 1238
";

/// A gate that keeps who passed which point.
#[derive(Drop)]
struct RecordingGate {
    passed: RefCell<Vec<(Tag, u8)>>,
}

impl Gate for RecordingGate {
    fn pass(&self, who: Tag, point: u8) {
        if let Ok(mut passed) = self.passed.try_borrow_mut() {
            let _ = passed.push((who, point));
        }
    }
}

/// Adds a point as a digit, and ends the line at the last point of a poll.
fn push_point(polls: &mut String, point: u8) -> Result<(), Memory> {
    let digit = b'0'.wrapping_add(point);
    polls.push(digit as char)?;
    if point == 8 {
        polls.push('\n')?;
    }
    Ok(())
}

/// The polls of a coroutine by their points, a line each.
fn all_polls_of(alloc: Global, passed: &[(Tag, u8)], tag: Tag) -> Result<String, Memory> {
    let mut polls = String::new(alloc);
    for (who, point) in passed {
        if *who == tag {
            push_point(&mut polls, *point)?;
        }
    }
    Ok(polls)
}

/// The same without those that passed no point but the first and the last.
fn polls_of(alloc: Global, passed: &[(Tag, u8)], tag: Tag) -> Result<String, Memory> {
    let all = all_polls_of(alloc, passed, tag)?;
    let mut polls = String::new(alloc);
    for poll in all.as_str().lines() {
        if poll != "18" {
            push_line(&mut polls, poll)?;
        }
    }
    Ok(polls)
}

/// The points in a table of lines.
fn points_in(alloc: Global, table: &str) -> Result<String, Memory> {
    let mut points = String::new(alloc);
    for line in table.lines() {
        let (_line, passed) = cut(line, ' ');
        push_line(&mut points, passed)?;
    }
    Ok(points)
}

/// Who passed which point in a run of a script by one worker.
fn passed_by(alloc: Global, script: &Script) -> Result<Vec<(Tag, u8)>, Memory> {
    let gate = RecordingGate {
        passed: RefCell::new(Vec::new(alloc)),
    };
    let _run: ListRun<Notes> = run_one(alloc, script, &gate)?;
    Ok(gate.passed.into_inner())
}

/// The polls of each coroutine, as in the tables above.
const TABLES: [(Tag, &str); 7] = [
    (0, OF_MAIN),
    (1, OF_SENDER),
    (2, ""),
    (3, OF_SLOW),
    (4, ""),
    (5, OF_SLOW),
    (6, ""),
];

/// The polls of the first coroutine whose polls are not those of its table.
fn first_other(
    alloc: Global,
    passed: &[(Tag, u8)],
    tables: &[(Tag, &str)],
) -> Result<Option<String>, Memory> {
    for (tag, table) in tables {
        let polls = polls_of(alloc, passed, *tag)?;
        let points = points_in(alloc, *table)?;
        if polls.as_str() != points.as_str() {
            return Ok(Some(format!(in alloc; "coroutine {tag}\n{polls}")?));
        }
    }
    Ok(None)
}

/// The same of a run of the script of every line.
fn first_other_of_every_line(alloc: Global) -> Result<Option<String>, Memory> {
    let Ok(script) = read(alloc, EVERY_LINE.as_bytes()) else {
        return Err(Memory);
    };
    let passed = passed_by(alloc, &script)?;
    first_other(alloc, passed.as_slice(), &TABLES)
}

#[test]
fn each_line_passes_its_points(rt: HostRuntime) -> Result<(), Fail> {
    let other = first_other_of_every_line(rt.alloc())?;
    assert_eq!(rt; other, None);
    Ok(())
}
