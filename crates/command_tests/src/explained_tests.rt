//! What is said of stuck and failing runs.

use crate::calls::cut;
use crate::explained_rows::EXPLAINED_ROWS;
use co_base::Memory;
use run_explanation::explain;
use std::alloc::Global;
use std::test::Fail;

/// What is said of this input; nothing if it is not explained.
fn explained(alloc: Global, input: &[u8]) -> Result<Vec<u8>, Memory> {
    if input.len() > 1048576 {
        return Ok(Vec::new(alloc));
    }
    match explain(alloc, input) {
        Ok(text) => Ok(text),
        Err(_) => Ok(Vec::new(alloc)),
    }
}

/// The input of a row, and what is to be said of it.
fn input_and_wanted(row: &str) -> (&str, &str) {
    match row.split_once("=\n") {
        Some(parts) => parts,
        None => (row, ""),
    }
}

/// What the first row shows of which something else is said.
///
/// A row begins with `~` and what it shows; then come a script, a line `report` and the report, a line `=`, and what is to be said.
fn first_other<'a>(alloc: Global, rows: &'a str) -> Result<Option<&'a str>, Memory> {
    for row in rows.split("~ ") {
        let (shows, told) = cut(row, '\n');
        let (input, wanted) = input_and_wanted(told);
        let text = explained(alloc, input.as_bytes())?;
        if text.as_slice() != wanted.as_bytes() {
            return Ok(Some(shows));
        }
    }
    Ok(None)
}

#[test]
fn stuck_and_failing_runs_are_explained(rt: HostRuntime) -> Result<(), Fail> {
    let other = first_other(rt.alloc(), EXPLAINED_ROWS)?;
    assert_eq!(rt; other, None);
    Ok(())
}
