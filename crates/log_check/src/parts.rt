//! The parts of an input.

ghost use Rattle.std.specs.Prelude.{◌≡◌, ◌≤◌, IfSome, length};
ghost use Rattle.log_check.specs.Parts.{AreParts, word_of};

use report_reader::cut_at;

/// What is judged by a script.
#[derive(Clone, Copy)]
pub(crate) enum Subject {
    Log,
    Report,
}

/// What a line says that is to be judged, if it says so.
fn subject_of(line: &[u8]) -> Option<Subject>
    ensures { IfSome result (λ subject. line.now ≡ word_of subject) }
{
    if line == b"log".as_slice() {
        Some(Subject::Log)
    } else if line == b"report".as_slice() {
        Some(Subject::Report)
    } else {
        None
    }
}

/// The script of an input, what is to be judged by it, and its text. Nothing, if a line `history` stands before, or no line says what
/// is to be judged.
pub(crate) fn parts_of(bytes: &[u8]) -> Option<(&[u8], Subject, &[u8])>
    ensures { IfSome result (λ parts. AreParts (word_of parts.1) parts.0.now parts.2.now bytes.now) }
{
    let mut at = 0usize;
    while at <= bytes.len() {
        let (script, rest) = bytes.split_at(at);
        let (line, more) = cut_at(b'\n', rest);
        let Some(text) = more else {
            return None;
        };
        if let Some(subject) = subject_of(line) {
            return Some((script, subject, text));
        }
        if line.starts_with(b"history") {
            return None;
        }
        at = bytes.len() - text.len();
    }
    None
}
