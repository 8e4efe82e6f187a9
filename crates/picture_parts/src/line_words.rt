//! The words of a line, and which lines are bookkeeping of Jobs.

ghost use Rattle.std.specs.Prelude.{◌≡◌};
ghost use Rattle.picture_parts.specs.LineWords.{is_bookkeeping, is_done_channel, tells, word};

use report_reader::cut_at;

/// The word of a line with this number, counted from 0; empty behind the last.
pub fn word(number: usize, line: &[u8]) -> &[u8]
    ensures { result.now ≡ word number line.now }
{
    let mut rest = line;
    let mut left = number;
    loop {
        let (first, more) = cut_at(b' ', rest);
        if left == 0 {
            return first;
        }
        let Some(next) = more else {
            return b"";
        };
        left -= 1;
        rest = next;
    }
}

pub fn tells(verb: &[u8], line: &[u8]) -> bool
    ensures { result ≡ tells verb.now line.now }
{
    word(1, line) == verb
}

fn is_done_channel(channel: &[u8]) -> bool
    ensures { result ≡ is_done_channel channel.now }
{
    match channel {
        [first, ..] => *first == b'@',
        [] => false,
    }
}

/// Whether a line tells that a Job was attached, started, ended or removed, or that its done channel was closed.
pub fn is_bookkeeping(line: &[u8]) -> bool
    ensures { result ≡ is_bookkeeping line.now }
{
    tells(b"attach", line)
        || (tells(b"start", line)
            || (tells(b"endbody", line)
                || (tells(b"finish", line)
                    || (tells(b"gone", line)
                        || (tells(b"close", line) && is_done_channel(word(2, line)))))))
}
