// What C and Rust call to read the column settings of a valve table's block: five numbers for each column.
#![tactic(auto)]

ghost use Rattle.std.specs.Prelude.{◌≡◌, ◌<◌, ◌*◌, length, take};
ghost use mathlib.Core.List.{flat_map};
ghost use Rattle.std.proofs.Math.Seq.{slice};
ghost use Rattle.text_checks.specs.Outcomes.{or_left};
ghost use Rattle.base_refusals.specs.Numbers.{outcome_no};
ghost use Rattle.text_line_start.specs.Starts.{place_of};
ghost use Rattle.set_table.specs.Types.{two};
ghost use Rattle.set_columns.specs.Columns.{max_columns};
ghost use Rattle.read_blocks.specs.Blocks.{join_holds};
ghost use Rattle.read_blocks.specs.ByLine.{block_found};
ghost use Rattle.door_shared.specs.Tells.{told_in};
ghost use Rattle.door_columns.specs.Said.{align_no, valign_no, width_no, width_from, width_to, column_nos, table_nos, columns_said_by, columns_said};
ghost use Rattle.door_columns.specs.Inner.{column_told};

use base_refusals::Refusal;
use read_blocks::Block;
use set_columns::{Align, Column, Columns, Valign, Width};
use set_table::Origin;

fn align_no(a: Option<Align>) -> usize
    ensures { result ≡ align_no a }
{
    match a {
        None => 0,
        Some(Align::Left) => 1,
        Some(Align::Right) => 2,
        Some(Align::Center) => 3,
    }
}

fn valign_no(v: Option<Valign>) -> usize
    ensures { result ≡ valign_no v }
{
    match v {
        None => 0,
        Some(Valign::Top) => 1,
        Some(Valign::Middle) => 2,
        Some(Valign::Bottom) => 3,
    }
}

// What a width is: none, that of a bare key, a range of the text, a range of what was joined.
fn width_no(w: Option<Width>) -> usize
    ensures { result ≡ width_no w }
{
    match w {
        None => 0,
        Some(Width::Empty) => 1,
        Some(Width::Range(o, _, _)) => match o {
            Origin::First => 2,
            Origin::Second => 3,
        },
    }
}

fn width_from(w: Option<Width>) -> usize
    ensures { result ≡ width_from w }
{
    match w {
        None => 0,
        Some(Width::Empty) => 0,
        Some(Width::Range(_, f, _)) => f as usize,
    }
}

fn width_to(w: Option<Width>) -> usize
    ensures { result ≡ width_to w }
{
    match w {
        None => 0,
        Some(Width::Empty) => 0,
        Some(Width::Range(_, _, t)) => t as usize,
    }
}

// The five numbers of a column, from an index on.
fn lay_column(numbers: &mut [usize], at: usize, c: Column)
    requires { at < 5 * max_columns }
    ensures { numbers.new ≡ column_told numbers.old at c }
{
    let a = c.align;
    let v = c.valign;
    let w = c.width;
    door_shared::tell(numbers, at, align_no(a));
    door_shared::tell(numbers, at + 1, valign_no(v));
    door_shared::tell(numbers, at + 2, width_no(w));
    door_shared::tell(numbers, at + 3, width_from(w));
    door_shared::tell(numbers, at + 4, width_to(w));
}

// The numbers of the first n columns.
fn lay_columns(numbers: &mut [usize], columns: [Column; Columns::MOST], n: usize)
    ensures { numbers.new ≡ told_in numbers.old (flat_map column_nos (take n columns)) }
{
    for i in 0..n.min(Columns::MOST) {
        lay_column(numbers, 5 * i, columns[i]);
    }
}

// The numbers of a table, where nothing refuses it.
fn lay_unless(c: Result<(), Refusal>, numbers: &mut [usize], table: Columns)
    ensures { numbers.new ≡ or_left c numbers.old (told_in numbers.old (table_nos table)) }
{
    match c {
        Err(_) => {}
        Ok(()) => {
            let columns = table.columns;
            lay_columns(numbers, columns, table.count as usize);
        }
    }
}

// The number of an outcome.
fn number_of(c: Result<(), Refusal>) -> u8
    ensures { result ≡ outcome_no c }
{
    match c {
        Err(r) => base_refusals::number(r),
        Ok(()) => 0,
    }
}

// Lays and tells the columns of a block, whose set is over the text and the bytes that were joined.
fn say_columns<'a>(
    text: &'a [u8],
    block: Block,
    join: &'a [u8],
    numbers: &mut [usize],
    told: &mut [usize],
) -> u8
    ensures value { result ≡ (columns_said_by block (two text.now (slice 0 block.joined join.now)) numbers.old).number }
    ensures numbers_after { numbers.new ≡ (columns_said_by block (two text.now (slice 0 block.joined join.now)) numbers.old).numbers }
    ensures told_after { told.new ≡ told_in told.old (columns_said_by block (two text.now (slice 0 block.joined join.now)) numbers.old).told }
{
    let a = block.outcome;
    let joined = set_table::bytes_of(join, 0, block.joined);
    let made = set_columns::table_columns(text, joined, block.set);
    let b = made.outcome;
    let table = made.table;
    let refused = door_shared::first_of(a, b);
    lay_unless(refused, numbers, table);
    door_shared::tell(told, 0, table.count as usize);
    door_shared::tell(told, 1, block.lines);
    door_shared::tell(told, 2, block.joined);
    number_of(refused)
}

// Reads the block at a line and lays five numbers for each column that it says: align, vertical align, what the width is, from, to. Tells how many columns
// there are, the block's lines, and how many bytes were joined.
#[unsafe(no_mangle)]
pub extern "C" fn bridlesnow_table_columns(
    text: &[u8],
    line: usize,
    join: &mut [u8],
    numbers: &mut [usize],
    told: &mut [usize],
) -> u8
    ensures value { result ≡ (columns_said text.now (place_of text.now line) (block_found text.now line 0 (length join.old)) numbers.old).number }
    ensures join_after { join.new ≡ join_holds join.old (block_found text.now line 0 (length join.old)) }
    ensures numbers_after { numbers.new ≡ (columns_said text.now (place_of text.now line) (block_found text.now line 0 (length join.old)) numbers.old).numbers }
    ensures told_after { told.new ≡ told_in told.old (columns_said text.now (place_of text.now line) (block_found text.now line 0 (length join.old)) numbers.old).told }
{
    let block = read_by_line::parse_standalone_attrs_block(text, line, join);
    say_columns(text, block, join, numbers, told)
}
