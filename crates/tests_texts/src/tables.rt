//! Tables of like cases. Each row of a table is a case, and all tables are read by one function, so that the tests are proved
//! quickly.

use crate::assembling::{Form, first_row, holds_parts, is_refused, is_refused_behind};
use crate::bundles::holds_entries;
use crate::lines::{has_lines, is_no_number_row};
use rv_asm::{AsmFault, AsmKind};
use std::alloc::Global;
use std::test::Fail;

// What is said by the rows of a table.
#[derive(Clone, Copy)]
pub enum Case {
    // A source, and what its file holds.
    Parts(Form),
    // A line that is refused behind this text, for this reason, and the number that it has there.
    Refused(&'static [u8], AsmKind, u32),
    // A source, and its refusal.
    Refusal,
    // A text, and its lines; whether its first byte is read before.
    Lines(bool),
    // What is no number.
    NoNumber,
    // What stands in a bundle behind this text, and what the bundle gives.
    Bundle(&'static [u8]),
}

pub type Table = (Case, &'static [u8]);

// Whether a row says what is so.
fn holds(alloc: Global, case: Case, row: &[u8]) -> Result<bool, Fail> {
    match case {
        Case::Parts(form) => holds_parts(alloc, form, row),
        Case::Refused(before, kind, line) => Ok(is_refused_behind(
            alloc,
            before,
            row,
            AsmFault::At { kind, line },
        )?),
        Case::Refusal => is_refused(alloc, row),
        Case::Lines(is_behind) => has_lines(alloc, row, is_behind),
        Case::NoNumber => is_no_number_row(alloc, row),
        Case::Bundle(before) => holds_entries(alloc, before, row),
    }
}

// The number of the first row that says what isn't so, or 0.
fn first_wrong(alloc: Global, case: Case, rows: &[u8]) -> Result<usize, Fail> {
    let mut rest = rows;
    for number in 1..=rows.len() {
        let (row, others) = first_row(rest);
        if !holds(alloc, case, row)? {
            return Ok(number);
        }
        if others.is_empty() {
            break;
        }
        rest = others;
    }
    Ok(0)
}

// Checks each row of these tables. Of a row that isn't so this tells its number, from 1, and a thousand times that of its table,
// from 0.
pub fn check_tables(alloc: Global, tables: &[Table]) -> Result<(), Fail> {
    for (table, (case, rows)) in tables.iter().enumerate() {
        let row = first_wrong(alloc, *case, rows)?;
        if row != 0 {
            return Err(Fail::new(table.saturating_mul(1000).saturating_add(row)));
        }
    }
    Ok(())
}
