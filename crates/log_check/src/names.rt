//! The names of channels, and the lines of a log.

ghost use Rattle.std.specs.Prelude.{◌≡◌, ◌≤◌, ◌++◌, IfOk, length, map, string_bytes};
ghost use Rattle.std.specs.List.{range_with_len};
ghost use Rattle.report_reader.specs.Words.{texts};
ghost use Rattle.script_reader.specs.Scripts.{program_of};
ghost use Rattle.history_text.specs.Inputs.{GivesLines};
ghost use Rattle.history_text.specs.Lines.{history_of};
ghost use Rattle.log_check.specs.Logs.{names_in, row_name};

use history_text::{Line, NoLines, lines_in};
use script_reader::{Channel, Script};
use std::alloc::{AllocError, Global};

/// The names of the done channels of so many rows.
fn row_names(alloc: Global, rows: u16) -> Result<Vec<String>, AllocError>
    ensures { IfOk result (λ names. map string_bytes names.items ≡ map row_name (range_with_len 0 rows)) }
{
    let mut names = Vec::new(alloc);
    for row in 0..rows {
        names.push(format!(in alloc; "@{row}")?)?;
    }
    Ok(names)
}

/// The names of these channels, and then these.
fn all_names<'a>(
    alloc: Global,
    channels: &'a [Channel],
    rows: &'a [String],
) -> Result<Vec<&'a [u8]>, AllocError>
    ensures { IfOk result (λ names. texts names.items
        ≡ map (λ c. string_bytes c.name) channels.now ++ map string_bytes rows.now) }
{
    let mut names = Vec::new(alloc);
    for channel in channels {
        names.push(channel.name.as_bytes())?;
    }
    for row in rows {
        names.push(row.as_bytes())?;
    }
    Ok(names)
}

/// The lines of a log of the script.
pub(crate) fn lines_of(alloc: Global, script: &Script, text: &[u8]) -> Result<Vec<Line>, NoLines>
    requires { length text.now ≤ 67108864 }
    ensures { GivesLines result (history_of (names_in (program_of script.now)) text.now) }
{
    let Ok(rows) = row_names(alloc, script.jobs()) else {
        return Err(NoLines::Memory);
    };
    let Ok(names) = all_names(alloc, script.channels(), rows.as_slice()) else {
        return Err(NoLines::Memory);
    };
    lines_in(alloc, names.as_slice(), text)
}
