//! Where the script ends and the report begins.

ghost use Rattle.std.specs.Prelude.{◌≡◌, ◌≤◌, length};
ghost use Rattle.run_explanation.specs.Parts.{behind_mark, before_mark, is_marked, mark_in, report_in, script_in};

/// The two texts of an input.
#[derive(Clone, Copy)]
pub(crate) struct Parts<'a> {
    pub(crate) script: &'a [u8],
    pub(crate) report: &'a [u8],
}

/// Whether a text begins with a line `report`.
fn is_marked(text: &[u8]) -> bool
    ensures { result ≡ is_marked text.now }
{
    text.len() >= 7 && &text[..7] == b"report\n".as_slice()
}

/// The place of the first line `report`.
fn mark_in(bytes: &[u8]) -> Option<usize>
    requires { length bytes.now ≤ 67108864 }
    ensures { result ≡ mark_in bytes.now }
{
    let mut begins = true;
    let mut place = 0usize;
    let mut rest = bytes;
    while let [byte, more @ ..] = rest {
        if begins && is_marked(rest) {
            return Some(place);
        }
        begins = *byte == b'\n';
        place += 1;
        rest = more;
    }
    None
}

/// What stands before the mark; all where there is none.
fn before_mark(mark: Option<usize>, bytes: &[u8]) -> &[u8]
    ensures value { result.now ≡ before_mark mark bytes.now }
    ensures short { length result.now ≤ length bytes.now }
{
    match mark {
        None => bytes,
        Some(place) => &bytes[..place.min(bytes.len())],
    }
}

/// What stands behind the mark.
fn behind_mark(mark: Option<usize>, bytes: &[u8]) -> &[u8]
    requires { length bytes.now ≤ 67108864 }
    ensures value { result.now ≡ behind_mark mark bytes.now }
    ensures short { length result.now ≤ 67108864 }
{
    match mark {
        None => b"",
        Some(place) => &bytes[place.saturating_add(7).min(bytes.len())..],
    }
}

/// The script and the report.
pub(crate) fn parts_of(bytes: &[u8]) -> Parts<'_>
    requires { length bytes.now ≤ 67108864 }
    ensures script { result.script.now ≡ script_in bytes.now }
    ensures report { result.report.now ≡ report_in bytes.now }
    ensures short { length result.report.now ≤ 67108864 }
{
    let mark = mark_in(bytes);
    Parts {
        script: before_mark(mark, bytes),
        report: behind_mark(mark, bytes),
    }
}
