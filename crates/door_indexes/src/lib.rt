// What C and Rust call for an index beside a sheet, in lent memory: the number of its refusal, 0 where nothing is refused; what came of it is told.
#![tactic(auto)]

ghost use Rattle.std.specs.Prelude.{◌≡◌, [], ◌∷◌, length};
ghost use Rattle.base_lists.specs.Lists.{over};
ghost use Rattle.sheet_blocks.specs.Sheets.{join_behind};
ghost use Rattle.sheet_index.specs.Building.{built_of, built_text, built_table, built_tries, built_paper, counted_of, counted_table, counted_paper};
ghost use Rattle.sheet_index.specs.Finding.{find_record, find_row, look_paper};
ghost use Rattle.door_shared.specs.Tells.{told_in};
ghost use Rattle.door_indexes.specs.Indexes.{built_told, counted_told, look_told};

use base_refusals::Refusal;

// Tells how many records an index has, and how many bytes, as building and mending answer.
pub fn say_built(built: Result<(usize, usize), Refusal>, told: &mut [usize]) -> u8
    ensures value { result ≡ (built_paper built).number }
    ensures told_after { told.new ≡ told_in told.old (built_told built) }
{
    match built {
        Err(why) => {
            door_shared::tell(told, 0, 0);
            door_shared::tell(told, 1, 0);
            base_refusals::number(why)
        }
        Ok((records, bytes)) => {
            door_shared::tell(told, 0, records);
            door_shared::tell(told, 1, bytes);
            0
        }
    }
}

// Tells how many records were read.
fn say_counted(counted: Result<usize, Refusal>, told: &mut [usize]) -> u8
    ensures value { result ≡ (counted_paper counted).number }
    ensures told_after { told.new ≡ told_in told.old (counted_told counted) }
{
    match counted {
        Err(why) => {
            door_shared::tell(told, 0, 0);
            base_refusals::number(why)
        }
        Ok(n) => {
            door_shared::tell(told, 0, n);
            0
        }
    }
}

// Tells four numbers.
fn tell_row(told: &mut [usize], found: usize, line: usize, count: usize, offset: usize)
    ensures { told.new ≡ told_in told.old (found ∷ line ∷ count ∷ offset ∷ []) }
{
    door_shared::tell(told, 0, found);
    door_shared::tell(told, 1, line);
    door_shared::tell(told, 2, count);
    door_shared::tell(told, 3, offset);
}

// Tells whether a record was found, and where its block stands.
fn say_found(found: Result<Option<(usize, usize, usize)>, Refusal>, told: &mut [usize]) -> u8
    ensures value { result ≡ (look_paper found).number }
    ensures told_after { told.new ≡ told_in told.old (look_told found) }
{
    match found {
        Err(why) => {
            tell_row(told, 0, 0, 0, 0);
            base_refusals::number(why)
        }
        Ok(None) => {
            tell_row(told, 0, 0, 0, 0);
            0
        }
        Ok(Some((line, count, offset))) => {
            tell_row(told, 1, line, count, offset);
            0
        }
    }
}

// Builds the index of a sheet: its text, and its rows, five numbers each. Tells how many records it has, and how many bytes.
#[unsafe(no_mangle)]
pub extern "C" fn bridlesnow_index_build(
    text: &[u8],
    join: &mut [u8],
    table: &mut [usize],
    out: &mut [u8],
    told: &mut [usize],
) -> u8
    ensures value { result ≡ (built_paper (built_of text.now (length join.old) (length table.old) (length out.old))).number }
    ensures join_after { join.new ≡ join_behind join.old (built_tries text.now (length join.old)) }
    ensures table_after { table.new ≡ over (built_table text.now (length join.old) (length table.old) (length out.old)) table.old }
    ensures out_after { out.new ≡ over (built_text text.now (length join.old) (length table.old) (length out.old)) out.old }
    ensures told_after { told.new ≡ told_in told.old (built_told (built_of text.now (length join.old) (length table.old) (length out.old))) }
{
    say_built(sheet_index::build_index(text, join, table, out), told)
}

// Reads an index into rows. Tells how many records it has.
#[unsafe(no_mangle)]
pub extern "C" fn bridlesnow_index_read(index: &[u8], table: &mut [usize], told: &mut [usize]) -> u8
    ensures value { result ≡ (counted_paper (counted_of index.now (length table.old))).number }
    ensures table_after { table.new ≡ over (counted_table index.now (length table.old)) table.old }
    ensures told_after { told.new ≡ told_in told.old (counted_told (counted_of index.now (length table.old))) }
{
    say_counted(sheet_index::read_index(index, table), told)
}

// Looks up the first record of an id in an index, which is read whole. Tells 1 where there is one, and its first line, line count and offset.
#[unsafe(no_mangle)]
pub extern "C" fn bridlesnow_index_find<'a>(index: &'a [u8], id: &'a [u8], told: &mut [usize]) -> u8
    ensures value { result ≡ (look_paper (find_record index.now id.now)).number }
    ensures told_after { told.new ≡ told_in told.old (look_told (find_record index.now id.now)) }
{
    say_found(sheet_index::find_record(index, id), told)
}

// The same over rows already read: n of them, or as many as the table has.
#[unsafe(no_mangle)]
pub extern "C" fn bridlesnow_index_find_row<'a>(
    index: &'a [u8],
    table: &[usize],
    n: usize,
    id: &'a [u8],
    told: &mut [usize],
) -> u8
    ensures value { result ≡ (look_paper (find_row index.now table.now n id.now)).number }
    ensures told_after { told.new ≡ told_in told.old (look_told (find_row index.now table.now n id.now)) }
{
    say_found(sheet_index::find_row(index, table, n, id), told)
}
