// An index beside a sheet: building it, reading it, and looking a record up.
#![tactic(auto)]

ghost use Rattle.std.specs.Prelude.{◌≡◌, true, suc, ◌≤◌, ◌+◌, [], ◌∷◌, length, None, Ok};
ghost use Rattle.std.proofs.Math.Seq.{slice};
ghost use Rattle.base_lists.specs.Lists.{over};
ghost use Rattle.base_refusals.specs.Numbers.{max_text};
ghost use Rattle.base_refusals.specs.Orders.{on_paper};
ghost use Rattle.set_table.specs.Types.{two};
ghost use Rattle.sheet_blocks.specs.Sheets.{tries_at, join_behind};
ghost use Rattle.sheet_records.specs.Records.{record_line, index_header, index_text, index_rows, table_numbers};
ghost use Rattle.sheet_records.specs.Listed.{records_of};
ghost use Rattle.sheet_records.specs.Writing.{put_of, line_over, table_size};
ghost use Rattle.sheet_records.specs.Computed.{read_index, rows_from, id_in, record_in};
ghost use Rattle.sheet_index.specs.Building.{laid_by, build_order, built_of, built_text, built_table, built_tries, built_paper, is_read, rows_read, form_order, count_order, counted_of, counted_table, counted_paper};
ghost use Rattle.sheet_index.specs.Finding.{is_id, first_with, values_with, records_by, find_record, table_rows, find_row, look_paper};
ghost use Rattle.sheet_index.specs.Inner.{set_record, block_adds, most_line, adds_sizes, sizes_of, put_added, added_over, room_to_join, checked_order, checked_built, counted_by, or_first, found_among};

use base_refusals::Refusal;
use read_blocks::Block;
use set_table::Attrs;
use sheet_records::IndexRow;

// How many records a sheet has, and how many bytes their index.
#[derive(Clone, Copy)]
struct Sizes {
    records: usize,
    bytes: usize,
}

// How many bytes the line of a block takes, whose set is over these two texts.
fn set_len<'a>(
    first: &'a [u8],
    second: &'a [u8],
    n: usize,
    lines: usize,
    at: usize,
    set: Attrs,
) -> usize
    ensures { (result ≡ length (record_line (set_record (two first.now second.now) n lines at set))) × (result ≤ most_line) }
{
    let value = set.id;
    let raw = set_marks::raw_bytes(first, second, value);
    let k = sheet_records::numbers_len(n, lines, at);
    if set.given {
        return k + 2 + sheet_records::id_len(set_marks::is_quoted(value), raw);
    }
    k + 1
}

// What a block adds to the index: nothing where it isn't printed.
fn added<'a>(text: &'a [u8], join: &'a [u8], n: usize, at: usize, block: Block) -> Sizes
    ensures { (result ≡ adds_sizes (block_adds (two text.now (slice 0 block.joined join.now)) n block.lines at block.set block.outcome)) × (result.bytes ≤ most_line) }
{
    match sheet_verdicts::verdict_of(text, join, block) {
        Err(_) => Sizes {
            records: 0,
            bytes: 0,
        },
        Ok(()) => {
            let joined = set_table::bytes_of(join, 0, block.joined);
            let bytes = set_len(text, joined, n, block.lines, at, block.set);
            Sizes { records: 1, bytes }
        }
    }
}

// Measures the records of a sheet that has passed the checks.
fn measure(text: &[u8], join: &mut [u8]) -> Sizes
    requires { (length text.now ≤ max_text) × (max_text ≤ length join.old) }
    ensures value { result ≡ sizes_of (records_of text.now) }
    ensures join_after { join.new ≡ join_behind join.old (tries_at text.now max_text 1 0) }
{
    let mut at = 0;
    let mut line = 1;
    let mut records = 0;
    let mut bytes = sheet_records::HEADER;
    'sheet: loop {
        let next = sheet_blocks::next_block(text, at, join);
        let block = next.block;
        if block.lines == 0 {
            return Sizes { records, bytes };
        }
        let n = line + next.skipped;
        let more = added(text, join, n, next.at, block);
        records += more.records;
        bytes += more.bytes;
        line = n + block.lines;
        at = block.next;
        continue 'sheet;
    }
}

// Writes the line of a block, whose set is over these two texts.
fn put_set<'a>(
    out: &mut [u8],
    k: usize,
    first: &'a [u8],
    second: &'a [u8],
    n: usize,
    lines: usize,
    at: usize,
    set: Attrs,
) -> Option<IndexRow>
    ensures value { result ≡ put_of (length out.old) k (set_record (two first.now second.now) n lines at set) }
    ensures out_after { out.new ≡ line_over out.old k (set_record (two first.now second.now) n lines at set) }
{
    let value = set.id;
    let raw = set_marks::raw_bytes(first, second, value);
    let quoted = set_marks::is_quoted(value);
    sheet_records::put_record(out, k, n, lines, at, set.given, quoted, raw)
}

// Writes the line of a block where it is printed.
fn put_block<'a>(
    out: &mut [u8],
    k: usize,
    text: &'a [u8],
    join: &'a [u8],
    n: usize,
    at: usize,
    block: Block,
) -> Option<IndexRow>
    ensures value { result ≡ put_added (length out.old) k (block_adds (two text.now (slice 0 block.joined join.now)) n block.lines at block.set block.outcome) }
    ensures out_after { out.new ≡ added_over out.old k (block_adds (two text.now (slice 0 block.joined join.now)) n block.lines at block.set block.outcome) }
{
    match sheet_verdicts::verdict_of(text, join, block) {
        Err(_) => None,
        Ok(()) => {
            let joined = set_table::bytes_of(join, 0, block.joined);
            put_set(out, k, text, joined, n, block.lines, at, block.set)
        }
    }
}

// Lays the records of a sheet, which have room: their lines behind the first, and their rows.
fn lay(text: &[u8], join: &mut [u8], table: &mut [usize], out: &mut [u8])
    requires text_len_bound { (length text.now ≤ max_text) × (max_text ≤ length join.old) }
    requires text_len_bound_2 { (length (records_of text.now) ≤ table_size (length table.old)) × (length (index_text (records_of text.now)) ≤ length out.old) }
    ensures join_after { join.new ≡ join_behind join.old (tries_at text.now max_text 1 0) }
    ensures table_after { table.new ≡ over (table_numbers (index_rows (records_of text.now))) table.old }
    ensures out_after { out.new ≡ over (index_text (records_of text.now)) out.old }
{
    sheet_records::put_header(out);
    let mut at = 0;
    let mut line = 1;
    let mut i = 0;
    let mut k = sheet_records::HEADER;
    'sheet: loop {
        let next = sheet_blocks::next_block(text, at, join);
        let block = next.block;
        if block.lines == 0 {
            return;
        }
        let n = line + next.skipped;
        match put_block(out, k, text, join, n, next.at, block) {
            None => {
                line = n + block.lines;
                at = block.next;
                continue 'sheet;
            }
            Some(row) => {
                sheet_records::put_row(table, i, row);
                i += 1;
                k = row.next;
                line = n + block.lines;
                at = block.next;
                continue 'sheet;
            }
        }
    }
}

// Builds the index of a sheet that is a text: measured first, so that a refusal leaves table and buffer.
fn build_checked(
    text: &[u8],
    join: &mut [u8],
    table: &mut [usize],
    out: &mut [u8],
) -> Result<(usize, usize), Refusal>
    requires { length text.now ≤ max_text }
    ensures value { result ≡ checked_built text.now (length join.old) (length table.old) (length out.old) }
    ensures join_after { join.new ≡ join_behind join.old (laid_by (room_to_join (length join.old)) (tries_at text.now max_text 1 0)) }
    ensures table_after { table.new ≡ over (laid_by (checked_order text.now (length join.old) (length table.old) (length out.old)) (table_numbers (index_rows (records_of text.now)))) table.old }
    ensures out_after { out.new ≡ over (laid_by (checked_order text.now (length join.old) (length table.old) (length out.old)) (index_text (records_of text.now))) out.old }
{
    if join.len() < base_refusals::MAX_TEXT {
        return Err(Refusal::JoinFull);
    }
    let sizes = measure(text, join);
    if table.len() / 5 < sizes.records {
        return Err(Refusal::TableFull);
    }
    if out.len() < sizes.bytes {
        return Err(Refusal::IndexTooLong);
    }
    lay(text, join, table, out);
    Ok((sizes.records, sizes.bytes))
}

// The index of a sheet, its text in lent memory and its rows in a lent table, or why there is none.
pub fn build_index(
    text: &[u8],
    join: &mut [u8],
    table: &mut [usize],
    out: &mut [u8],
) -> Result<(usize, usize), Refusal>
    ensures value { result ≡ built_of text.now (length join.old) (length table.old) (length out.old) }
    ensures join_after { join.new ≡ join_behind join.old (built_tries text.now (length join.old)) }
    ensures table_after { table.new ≡ over (built_table text.now (length join.old) (length table.old) (length out.old)) table.old }
    ensures out_after { out.new ≡ over (built_text text.now (length join.old) (length table.old) (length out.old)) out.old }
    ensures result_value { built_paper result ≡ on_paper (build_order text.now (length join.old) (length table.old) (length out.old)) (length (records_of text.now) ∷ length (index_text (records_of text.now)) ∷ []) }
{
    text_checks::check_text(text)?;
    build_checked(text, join, table, out)
}

// Counts the rows of an index text behind its first line.
fn count_from(index: &[u8]) -> Result<usize, Refusal>
    ensures { result ≡ counted_by 0 (rows_from (suc (length index.now)) index.now (length index_header)) }
{
    let mut n: usize = 0;
    let mut at = sheet_records::HEADER;
    'rows: loop {
        if index.len() <= at {
            return Ok(n);
        }
        match sheet_records::record_at(index, at) {
            None => return Err(Refusal::NotAnIndex),
            Some(e) => {
                n += 1;
                at = e.next;
                continue 'rows;
            }
        }
    }
}

// Counts the rows of an index text.
fn count_rows(index: &[u8]) -> Result<usize, Refusal>
    ensures { result ≡ counted_by 0 (read_index index.now) }
{
    sheet_records::head_of(index)?;
    count_from(index)
}

// Lays the rows of an index text, which have room.
fn lay_rows(index: &[u8], table: &mut [usize])
    requires { (is_read (read_index index.now) ≡ true) × (length (rows_read (read_index index.now)) ≤ table_size (length table.old)) }
    ensures { table.new ≡ over (table_numbers (rows_read (read_index index.now))) table.old }
{
    let mut k = 0;
    let mut at = sheet_records::HEADER;
    'rows: loop {
        if index.len() <= at {
            return;
        }
        match sheet_records::record_at(index, at) {
            None => return,
            Some(e) => {
                sheet_records::put_row(table, k, e);
                k += 1;
                at = e.next;
                continue 'rows;
            }
        }
    }
}

// Reads an index text into a lent table; the whole text is read before the table counts.
pub fn read_index(index: &[u8], table: &mut [usize]) -> Result<usize, Refusal>
    ensures value { result ≡ counted_of index.now (length table.old) }
    ensures table_after { table.new ≡ over (counted_table index.now (length table.old)) table.old }
    ensures result_value { counted_paper result ≡ on_paper (count_order index.now (length table.old)) (length (rows_read (read_index index.now)) ∷ []) }
{
    let n = count_rows(index)?;
    if table.len() / 5 < n {
        return Err(Refusal::TableFull);
    }
    lay_rows(index, table);
    Ok(n)
}

// Whether the id that a row says is the one looked for.
fn has_id<'a>(index: &'a [u8], from: usize, to: usize, id: &'a [u8]) -> bool
    ensures { result ≡ is_id (id_in index.now from to) id.now }
{
    if from == 0 {
        return false;
    }
    base_lists::same_bytes(set_table::bytes_of(index, from, to), id)
}

// What was found, or else this row if it has the id.
fn first_of<'a>(
    found: Result<Option<(usize, usize, usize)>, Refusal>,
    index: &'a [u8],
    row: IndexRow,
    id: &'a [u8],
) -> Result<Option<(usize, usize, usize)>, Refusal>
    ensures { result ≡ or_first found (first_with id.now (record_in index.now row ∷ [])) }
{
    match found? {
        Some((line, count, offset)) => Ok(Some((line, count, offset))),
        None => {
            if has_id(index, row.from, row.to, id) {
                return Ok(Some((row.line, row.count, row.offset)));
            }
            Ok(None)
        }
    }
}

// Looks an id up in an index text behind its first line.
fn find_from<'a>(index: &'a [u8], id: &'a [u8]) -> Result<Option<(usize, usize, usize)>, Refusal>
    ensures { result ≡ found_among index.now (Ok None) id.now (rows_from (suc (length index.now)) index.now (length index_header)) }
{
    let mut found = Ok(None);
    let mut at = sheet_records::HEADER;
    'rows: loop {
        if index.len() <= at {
            return found;
        }
        match sheet_records::record_at(index, at) {
            None => return Err(Refusal::NotAnIndex), // Behind the record found too.
            Some(e) => {
                found = first_of(found, index, e, id);
                at = e.next;
                continue 'rows;
            }
        }
    }
}

// The first record of an id in an index text, which is read whole.
pub fn find_record<'a>(
    index: &'a [u8],
    id: &'a [u8],
) -> Result<Option<(usize, usize, usize)>, Refusal>
    ensures value { result ≡ find_record index.now id.now }
    ensures result_value { look_paper result ≡ on_paper (form_order index.now) (values_with id.now (records_by index.now (rows_read (read_index index.now)))) }
{
    sheet_records::head_of(index)?;
    find_from(index, id)
}

// The first record of an id over rows already read: n of them, or as many as the table has.
pub fn find_row<'a>(
    index: &'a [u8],
    table: &[usize],
    n: usize,
    id: &'a [u8],
) -> Result<Option<(usize, usize, usize)>, Refusal>
    ensures value { result ≡ find_row index.now table.now n id.now }
    ensures result_value { look_paper result ≡ on_paper [] (values_with id.now (records_by index.now (table_rows n table.now))) }
{
    let mut k = 0;
    let mut i = 0;
    'rows: loop {
        if n <= k {
            return Ok(None);
        }
        if table.len() - i < 5 {
            return Ok(None);
        }
        if has_id(index, table[i + 3], table[i + 4], id) {
            return Ok(Some((table[i], table[i + 1], table[i + 2])));
        }
        k += 1;
        i += 5;
        continue 'rows;
    }
}
