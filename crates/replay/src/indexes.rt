// Requests for an index beside a sheet.
use crate::fields::Said;
use crate::{fields, out, reports};
use base_refusals::Refusal;

// What a request lends: how many bytes to join in, how many rows and how many bytes of index text, and how many fields stand before these; 1 where one
// is bad.
#[derive(Clone, Copy)]
struct Lent {
    bad: u8,
    count: usize,
    cap: usize,
    rows: usize,
    buf: usize,
}

// A number lent, how many fields stand before it, and 1 where it is bad.
#[derive(Clone, Copy)]
struct Taken {
    bad: u8,
    count: usize,
    n: usize,
}

// The longest index text, and the most rows: no index text of that length has more records.
pub(crate) const INDEX: usize = 262144;

const ROWS: usize = 43690;
// Their numbers, five each.
pub(crate) const TABLE: usize = 218450;

// How many words there are, the number of a line that has none of them.
pub(crate) const NONE: usize = 4;

// The number of a request's word.
pub(crate) fn word_of(line: &[u8]) -> usize {
    fields::index_of(
        b"index_build/index_read/index_lookup/index_mend",
        fields::part(line, 0, fields::find(line, 0, b' ')),
    )
}

// Answers a request, its sheets laid into a and b and its index into `index`, with as much lent as it asks for.
pub(crate) fn answer(
    word: usize,
    line: &[u8],
    a: &mut [u8],
    b: &mut [u8],
    join: &mut [u8],
    index: &mut [u8],
    table: &mut [usize],
    laid: &mut [u8],
    output: &mut [u8],
    at: usize,
) -> usize {
    let lent = lent_by(word, line);
    if lent.bad != 0 {
        return reports::put_error(output, at);
    }
    if word == 0 {
        return build(line, lent, a, join, table, laid, output, at);
    }
    if word == 1 {
        return read(line, lent, index, table, output, at);
    }
    if word == 2 {
        return look_up(line, lent, a, index, table, output, at);
    }
    mend(line, lent, a, b, join, index, table, laid, output, at)
}

// ---- what is lent, in the order `cap=`, `rows=`, `buf=` behind the other fields

// Looking up is lent no rows, and only building and mending fill a buffer.
fn lent_by(word: usize, line: &[u8]) -> Lent {
    let n = fields::count(line, b' ');
    let buf = take_if(word % 3 == 0, line, n, b"buf=", INDEX);
    let rows = take_if(word != 2, line, buf.count, b"rows=", ROWS);
    let cap = take(line, rows.count, b"cap=", base_refusals::MAX_TEXT);
    Lent {
        bad: buf.bad | rows.bad | cap.bad,
        count: cap.count,
        cap: cap.n,
        rows: rows.n,
        buf: buf.n,
    }
}

fn take_if<'a>(asked: bool, line: &'a [u8], count: usize, word: &'a [u8], most: usize) -> Taken {
    if asked {
        return take(line, count, word, most);
    }
    untaken(count, most)
}

// The number behind a word where the last of so many fields begins with it; else the most that it may be.
fn take<'a>(line: &'a [u8], count: usize, word: &'a [u8], most: usize) -> Taken {
    if count < 2 {
        return untaken(count, most);
    }
    let last = fields::field(line, b' ', count - 1);
    if !last.starts_with(word) {
        return untaken(count, most);
    }
    within(
        fields::number(fields::part(last, word.len(), last.len())),
        count - 1,
        most,
    )
}

fn untaken(count: usize, most: usize) -> Taken {
    Taken {
        bad: 0,
        count,
        n: most,
    }
}

fn within(given: Said, count: usize, most: usize) -> Taken {
    if most < given.n {
        return Taken {
            bad: 1,
            count,
            n: 0,
        };
    }
    Taken {
        bad: given.bad,
        count,
        n: given.n,
    }
}

// ---- the requests

// A sheet: the index text that is built.
fn build(
    line: &[u8],
    lent: Lent,
    a: &mut [u8],
    join: &mut [u8],
    table: &mut [usize],
    laid: &mut [u8],
    output: &mut [u8],
    at: usize,
) -> usize {
    let text = fields::unhex(fields::field(line, b' ', 1), a);
    if text.bad != 0 {
        return reports::put_error(output, at);
    }
    if lent.count != 2 {
        return reports::put_error(output, at);
    }
    let built = build_in(fields::part(a, 0, text.n), lent, join, table, laid);
    put_built(output, at, built, laid)
}

// Builds an index with as much lent as was asked for, which is there.
fn build_in(
    text: &[u8],
    lent: Lent,
    join: &mut [u8],
    table: &mut [usize],
    laid: &mut [u8],
) -> Result<(usize, usize), Refusal> {
    let cap = lent.cap;
    if join.len() < cap {
        return Err(Refusal::JoinFull);
    }
    let rows = lent.rows;
    if table.len() / 5 < rows {
        return Err(Refusal::TableFull);
    }
    let buf = lent.buf;
    if laid.len() < buf {
        return Err(Refusal::IndexTooLong);
    }
    let numbers = rows * 5;
    let join_part = &mut join[..cap];
    let table_part = &mut table[..numbers];
    let laid_part = &mut laid[..buf];
    sheet_index::build_index(text, join_part, table_part, laid_part)
}

fn put_built(
    output: &mut [u8],
    at: usize,
    built: Result<(usize, usize), Refusal>,
    laid: &[u8],
) -> usize {
    match built {
        Err(why) => reports::put_refused(output, at, why),
        Ok((_, bytes)) => {
            let to = out::put(output, at, b"ok ");
            out::put_hex(output, to, fields::part(laid, 0, bytes))
        }
    }
}

// An index: its records.
fn read(
    line: &[u8],
    lent: Lent,
    index: &mut [u8],
    table: &mut [usize],
    output: &mut [u8],
    at: usize,
) -> usize {
    let text = fields::unhex(fields::field(line, b' ', 1), index);
    if text.bad != 0 {
        return reports::put_error(output, at);
    }
    if lent.count != 2 {
        return reports::put_error(output, at);
    }
    match read_in(fields::part(index, 0, text.n), lent.rows, table) {
        Err(why) => reports::put_refused(output, at, why),
        Ok(n) => put_records(output, at, index, table, n),
    }
}

// Reads an index with so many rows lent.
fn read_in(index: &[u8], rows: usize, table: &mut [usize]) -> Result<usize, Refusal> {
    if table.len() / 5 < rows {
        return Err(Refusal::TableFull);
    }
    let numbers = rows * 5;
    let table_part = &mut table[..numbers];
    sheet_index::read_index(index, table_part)
}

fn put_records(output: &mut [u8], at: usize, index: &[u8], table: &[usize], n: usize) -> usize {
    let head = out::put(output, at, b"records ");
    let mut to = out::put_number(output, head, n);
    let mut i = 0;
    for _ in 0..n {
        to = put_record(output, to, index, table, i);
        i = beyond(i, 5);
    }
    to
}

// Adds the record whose row begins at i.
fn put_record(output: &mut [u8], at: usize, index: &[u8], table: &[usize], i: usize) -> usize {
    let to = put_place(output, at, table, i);
    put_id(
        output,
        to,
        index,
        number_at(table, beyond(i, 3)),
        number_at(table, beyond(i, 4)),
    )
}

// Its first line, its line count and its offset.
fn put_place(output: &mut [u8], at: usize, table: &[usize], i: usize) -> usize {
    let line = put_next(output, at, number_at(table, i));
    let count = put_next(output, line, number_at(table, beyond(i, 1)));
    put_next(output, count, number_at(table, beyond(i, 2)))
}

// A space and its id, which stands from one place to another.
fn put_id(output: &mut [u8], at: usize, index: &[u8], from: usize, to: usize) -> usize {
    let next = out::put_byte(output, at, b' ');
    if from == 0 {
        return out::put(output, next, b"none");
    }
    out::put_hex(output, next, fields::part(index, from, to))
}

// Adds a space and a number.
fn put_next(output: &mut [u8], at: usize, n: usize) -> usize {
    let to = out::put_byte(output, at, b' ');
    out::put_number(output, to, n)
}

// The number of a place, 0 where there is none.
fn number_at(table: &[usize], i: usize) -> usize {
    if table.len() <= i {
        return 0;
    }
    table[i]
}

// The place so many behind another.
fn beyond(i: usize, n: usize) -> usize {
    if usize::MAX - i < n {
        return i;
    }
    i + n
}

// An index and an id: the first record of that id, looked up in the text and over its rows.
fn look_up(
    line: &[u8],
    lent: Lent,
    a: &mut [u8],
    index: &mut [u8],
    table: &mut [usize],
    output: &mut [u8],
    at: usize,
) -> usize {
    let text = fields::unhex(fields::field(line, b' ', 1), index);
    let id = fields::unhex(fields::field(line, b' ', 2), a);
    if text.bad | id.bad != 0 {
        return reports::put_error(output, at);
    }
    if lent.count != 3 {
        return reports::put_error(output, at);
    }
    let found = look_up_in(
        fields::part(index, 0, text.n),
        table,
        fields::part(a, 0, id.n),
    );
    put_found(output, at, found)
}

// What is found in the text, and a number that no sheet has where the rows say something else.
fn look_up_in<'a>(
    index: &'a [u8],
    table: &mut [usize],
    id: &'a [u8],
) -> Result<Option<(usize, usize, usize)>, Refusal> {
    let found = sheet_index::find_record(index, id);
    let by_rows = find_by_rows(index, table, id);
    if found == by_rows {
        return found;
    }
    Ok(Some((usize::MAX, usize::MAX, usize::MAX)))
}

// The first record of an id over the rows that an index is read into.
fn find_by_rows<'a>(
    index: &'a [u8],
    table: &mut [usize],
    id: &'a [u8],
) -> Result<Option<(usize, usize, usize)>, Refusal> {
    let n = sheet_index::read_index(index, table)?;
    sheet_index::find_row(index, table, n, id)
}

fn put_found(
    output: &mut [u8],
    at: usize,
    found: Result<Option<(usize, usize, usize)>, Refusal>,
) -> usize {
    match found {
        Err(why) => reports::put_refused(output, at, why),
        Ok(None) => out::put(output, at, b"not found"),
        Ok(Some((line, count, offset))) => {
            let to = out::put(output, at, b"record");
            let first = put_next(output, to, line);
            let second = put_next(output, first, count);
            put_next(output, second, offset)
        }
    }
}

// An edit and the index before it: 1 where a field is bad, the lines that were replaced, and how many bytes the old text, the new one and the index have.
#[derive(Clone, Copy)]
struct Edit {
    bad: u8,
    first: usize,
    last: usize,
    old: usize,
    new: usize,
    index: usize,
}

// Reads an edit, its texts laid into a and b and the index into `index`.
fn edit_of(line: &[u8], a: &mut [u8], b: &mut [u8], index: &mut [u8]) -> Edit {
    let first = fields::number(fields::field(line, b' ', 1));
    let last = fields::number(fields::field(line, b' ', 2));
    let old = fields::unhex(fields::field(line, b' ', 3), a);
    let new = fields::unhex(fields::field(line, b' ', 4), b);
    let text = fields::unhex(fields::field(line, b' ', 5), index);
    Edit {
        bad: first.bad | last.bad | old.bad | new.bad | text.bad,
        first: first.n,
        last: last.n,
        old: old.n,
        new: new.n,
        index: text.n,
    }
}

// Two lines, an old text, a new one and an index: the index text that is mended.
fn mend(
    line: &[u8],
    lent: Lent,
    a: &mut [u8],
    b: &mut [u8],
    join: &mut [u8],
    index: &mut [u8],
    table: &mut [usize],
    laid: &mut [u8],
    output: &mut [u8],
    at: usize,
) -> usize {
    let edit = edit_of(line, a, b, index);
    mend_by(edit, lent, a, b, index, join, table, laid, output, at)
}

// Answers an edit that was read.
fn mend_by<'a>(
    edit: Edit,
    lent: Lent,
    a: &'a [u8],
    b: &'a [u8],
    index: &'a [u8],
    join: &mut [u8],
    table: &mut [usize],
    laid: &mut [u8],
    output: &mut [u8],
    at: usize,
) -> usize {
    if edit.bad != 0 {
        return reports::put_error(output, at);
    }
    if lent.count != 6 {
        return reports::put_error(output, at);
    }
    let built = mend_in(
        edit,
        fields::part(a, 0, edit.old),
        fields::part(b, 0, edit.new),
        fields::part(index, 0, edit.index),
        lent,
        join,
        table,
        laid,
    );
    put_built(output, at, built, laid)
}

// Mends an index with as much lent as was asked for, which is there.
fn mend_in<'a>(
    edit: Edit,
    old: &'a [u8],
    new: &'a [u8],
    index: &'a [u8],
    lent: Lent,
    join: &mut [u8],
    table: &mut [usize],
    laid: &mut [u8],
) -> Result<(usize, usize), Refusal> {
    let cap = lent.cap;
    if join.len() < cap {
        return Err(Refusal::JoinFull);
    }
    let rows = lent.rows;
    if table.len() / 5 < rows {
        return Err(Refusal::TableFull);
    }
    let buf = lent.buf;
    if laid.len() < buf {
        return Err(Refusal::IndexTooLong);
    }
    let numbers = rows * 5;
    let join_part = &mut join[..cap];
    let table_part = &mut table[..numbers];
    let laid_part = &mut laid[..buf];
    sheet_mends::mend_index(
        old, new, edit.first, edit.last, index, join_part, table_part, laid_part,
    )
}
