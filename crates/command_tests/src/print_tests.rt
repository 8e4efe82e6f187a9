//! A script that is read and printed again.

use co_base::Tag;
use script_printer::print;
use script_reader::{Script, read};
use std::alloc::Global;
use std::test::Fail;

/// A script of every line, as it is printed.
const EVERY_LINE: &[u8] = b"channel a rendezvous places 1
channel b buffered 64 places 16384
channel c unlimited places 1048576
channel d conflated places 16384
channel e_1 dropoldest 65535 places 16384
coroutine leaf
  fail 7
end
coroutine mid
  send a 4294967295
  trysend b it
  receive a
  tryreceive c
  close d
  cancelchannel e_1
  yield
  launch leaf as j
  async leaf as k
  lazy leaf
  start j
  join j
  await k
  cancel j
  result sum
  repeat 3
    each a
      select
        onsend b 1
        onreceive a
      end
    end
    supervisor
      launch leaf
    end
  end
end
coroutine main
  scope
    launch mid
  end
end
spawn leaf 2
spawn mid 1
";

fn script_of(alloc: Global, text: &[u8]) -> Result<Script, Fail> {
    match read(alloc, text) {
        Ok(script) => Ok(script),
        Err(_) => Err(Fail::new("no script")),
    }
}

/// The script of a text as it is printed.
fn printed(alloc: Global, text: &[u8]) -> Result<Vec<u8>, Fail> {
    let script = script_of(alloc, text)?;
    Ok(print(alloc, &script)?)
}

/// How many tags an instance of the second block takes, and how many coroutines and scopes the script has.
fn sizes_of(script: &Script) -> Option<[u16; 3]> {
    if script.blocks().len() != 3 {
        return None;
    }
    Some([script.size_of(1), script.coroutines(), script.scopes()])
}

/// The block whose lines the tag runs.
fn block_of(script: &Script, tag: Tag) -> Option<u16> {
    if tag >= script.coroutines() {
        return None;
    }
    Some(script.coroutine_of(tag))
}

#[test]
fn a_script_of_every_line_has_these_tags(rt: HostRuntime) -> Result<(), Fail> {
    let script = script_of(rt.alloc(), EVERY_LINE)?;
    let sizes = sizes_of(&script);
    let blocks = [
        block_of(&script, 0),
        block_of(&script, 2),
        block_of(&script, 3),
        block_of(&script, 16),
    ];
    // Of mid: itself, three that it launches, and three in the repeat. Main, two leaves, two instances of mid with all that they launch.
    // Three turns of the supervisor in each of two instances of mid, and main's scope.
    let wanted = (Some([7, 17, 7]), [Some(2), Some(0), Some(1), Some(0)]);
    assert_eq!(rt; (sizes, blocks), wanted);
    Ok(())
}

/// A script of the second version, as it is printed.
const SECOND_VERSION: &[u8] = b"script 2
channel a droplatest 65535 places 8
channel b dropoldest 1 places 16384
coroutine main
end
";

/// The same with comments and an empty line before the version.
const COMMENTED: &[u8] = b"# the version

script 2 # of two
channel a droplatest 65535 places 8
channel b dropoldest 1
coroutine main
end
";

/// Texts of scripts, and each as it is printed.
const PRINTED: [(&[u8], &[u8]); 3] = [
    (EVERY_LINE, EVERY_LINE),
    (SECOND_VERSION, SECOND_VERSION),
    (COMMENTED, SECOND_VERSION),
];

/// The first of these texts that is printed otherwise, as it is printed.
fn first_other(alloc: Global, rows: &[(&[u8], &[u8])]) -> Result<Option<Vec<u8>>, Fail> {
    for (text, wanted) in rows {
        let printed = printed(alloc, *text)?;
        if printed.as_slice() != *wanted {
            return Ok(Some(printed));
        }
    }
    Ok(None)
}

#[test]
fn a_script_is_printed_as_it_was_but_for_comments_and_what_is_not_said(
    rt: HostRuntime,
) -> Result<(), Fail> {
    let other = first_other(rt.alloc(), &PRINTED)?;
    assert_eq!(rt; other, None);
    Ok(())
}

/// The versions of two scripts.
fn versions(alloc: Global) -> Result<[u8; 2], Fail> {
    let first = script_of(alloc, EVERY_LINE)?;
    let second = script_of(alloc, SECOND_VERSION)?;
    Ok([first.version(), second.version()])
}

#[test]
fn a_script_without_a_version_is_of_the_first(rt: HostRuntime) -> Result<(), Fail> {
    let versions = versions(rt.alloc())?;
    assert_eq!(rt; versions, [1, 2]);
    Ok(())
}
