// What C and Rust call for the dealers' table, into lent memory: the number of its refusal, 0 where nothing is refused.
#![tactic(auto)]

ghost use Rattle.std.specs.Prelude.{◌≡◌, length};
ghost use Rattle.base_refusals.specs.Numbers.{outcome_no};
ghost use Rattle.sheet_blocks.specs.Sheets.{join_behind};
ghost use Rattle.sheet_valves.specs.Tables.{cell_no};
ghost use Rattle.sheet_variants.specs.Variants.{variants_of, variants_past, cell_nos};
ghost use Rattle.door_shared.specs.Tells.{told_in};
ghost use Rattle.door_valves.specs.Valves.{cells_in, variants_told};

use sheet_valves::{Cell, Table};
use sheet_variants::Variants;

// A cell as a number: its valve, or 256 where it is unfilled.
fn cell_number(cell: Cell) -> u16
    ensures { result ≡ cell_no cell }
{
    let valve = cell.valve;
    match valve {
        None => 256,
        Some(n) => n as u16,
    }
}

// Lays as many cells of a table as there is room for.
fn lay_cells(table: Table, cells: &mut [u16])
    ensures { cells.new ≡ told_in cells.old (cell_nos table) }
{
    let n = cells.len().min(Table::CELLS);
    for i in 0..n {
        cells[i] = cell_number(table.cells[i]);
    }
}

// Lays the cells of an answer, which has none where it is a refusal.
fn hand_table(answer: Variants, cells: &mut [u16]) -> u8
    ensures value { result ≡ outcome_no answer.outcome }
    ensures cells_after { cells.new ≡ cells_in cells.old answer }
{
    let outcome = answer.outcome;
    match outcome {
        Err(why) => base_refusals::number(why),
        Ok(()) => {
            lay_cells(answer.table, cells);
            0
        }
    }
}

// Tells what the variant reader answers.
fn say_variants(answer: Variants, cells: &mut [u16], told: &mut [usize]) -> u8
    ensures value { result ≡ outcome_no answer.outcome }
    ensures cells_after { cells.new ≡ cells_in cells.old answer }
    ensures told_after { told.new ≡ told_in told.old (variants_told answer) }
{
    door_shared::tell(told, 0, answer.line);
    door_shared::tell(told, 1, answer.lines);
    door_shared::tell(told, 2, answer.variant);
    hand_table(answer, cells)
}

// Lays the dealers' table of a sheet, variant by variant, in each front-left, front-right, rear-left, rear-right: a valve, or 256 where the cell is
// unfilled. Tells the first line and the line count of the block that is refused, and for 21 the first variant that has one valve at two wheels.
#[unsafe(no_mangle)]
pub extern "C" fn bridlesnow_variants(
    text: &[u8],
    join: &mut [u8],
    cells: &mut [u16],
    told: &mut [usize],
) -> u8
    ensures value { result ≡ outcome_no (variants_of text.now (length join.old)).outcome }
    ensures join_after { join.new ≡ join_behind join.old (variants_past text.now (length join.old)) }
    ensures cells_after { cells.new ≡ cells_in cells.old (variants_of text.now (length join.old)) }
    ensures told_after { told.new ≡ told_in told.old (variants_told (variants_of text.now (length join.old))) }
{
    say_variants(sheet_variants::variants_of(text, join), cells, told)
}
