// Requests for the dealers' table of a sheet.
use crate::reply::Reply;
use crate::{fields, out, reply};
use sheet_valves::{Cell, Table};

// A text, and the join buffer as long as it was asked for. The cells are laid into b.
pub(crate) fn answer(text: &[u8], b: &mut [u8], join: &mut [u8]) -> Reply {
    let read = sheet_variants::variants_of(text, join);
    let outcome = read.outcome;
    match outcome {
        Err(r) => reply::refused(reply::REFUSED, r),
        Ok(()) => reply::numbered(reply::LETTERS, put_table(b, read.table)),
    }
}

// Lays a word and all cells from the front on.
fn put_table(b: &mut [u8], table: Table) -> usize {
    let mut to = out::put(b, 0, b"table");
    for cell in table.cells.iter() {
        to = put_cell(b, to, *cell);
    }
    to
}

// Adds the valve of a cell, `-` for none.
fn put_cell(b: &mut [u8], at: usize, cell: Cell) -> usize {
    let valve = cell.valve;
    let to = out::put_byte(b, at, b' ');
    match valve {
        None => out::put_byte(b, to, b'-'),
        Some(n) => out::put_number(b, to, fields::wide(n)),
    }
}
