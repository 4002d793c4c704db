//! How a test goes over a table.

use std::test::Fail;

/// The row of a table, counted from 0, whose answer isn't the one that is due.
#[derive(Debug, Drop)]
struct Wrong {
    row: usize,
}

/// Fails at the row in this place if its answer isn't the one that is due, or wasn't made.
pub(crate) fn check(row: usize, is_due: Option<bool>) -> Result<(), Fail> {
    match is_due {
        Some(true) => Ok(()),
        _ => Err(Fail::from(Wrong { row })),
    }
}
