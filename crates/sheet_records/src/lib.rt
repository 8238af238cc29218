// Records of an index: reading the one at a place, writing one, the first line, and the rows of a lent table.
#![tactic(auto)]

ghost use Rattle.std.specs.Prelude.{◌≡◌, ◌≤◌, ◌<◌, ◌+◌, leb, length, drop, Some};
ghost use Rattle.std.proofs.lemmas.List.Edits.{sets};
ghost use Rattle.base_refusals.specs.Numbers.{outcome_no};
ghost use Rattle.base_refusals.specs.Orders.{order_no};
ghost use Rattle.base_bytes.specs.Bytes.{is_digit};
ghost use Rattle.text_digits.specs.Decimal.{decimal};
ghost use Rattle.text_digits.specs.declared.Digits.TheVariants.{Zero, Number};
ghost use Rattle.set_marks.specs.Marks.{bytes_in};
ghost use Rattle.sheet_records.specs.Records.{most_number, numbers_text, index_version, index_header};
ghost use Rattle.sheet_records.specs.Computed.{least_number, field_at, id_end, id_at, end_at, offset_at, count_at, record_at, row_paper, is_headed, is_numbered, is_other, head_order, head_of};
ghost use Rattle.sheet_records.specs.Writing.{raw_id, put_of, line_over, put_paper, row_over};
ghost use Rattle.sheet_records.specs.Inner.{onward, line_size, end_text, row_to};

use base_refusals::Refusal;

// A record's numbers, where its id stands in the index, and where the next line begins. Without an id both places are 0.
#[derive(Clone, Copy)]
pub struct IndexRow {
    pub line: usize,
    pub count: usize,
    pub offset: usize,
    pub from: usize,
    pub to: usize,
    pub next: usize,
}

// A digit, by its range: the table that tells all kinds of bytes is made anew wherever one is asked.
fn is_digit(b: u8) -> bool
    ensures { result ≡ is_digit b }
{
    if b < b'0' {
        return false;
    }
    b <= b'9'
}

// A number that was read, from `least` on, and the place behind it.
fn up_from(n: usize, least: usize, next: usize) -> Option<(usize, usize)>
    ensures { result ≡ least_number least next (Some n) }
{
    if n < least {
        return None;
    }
    Some((n, next))
}

// The number behind a zero, which is alone.
fn zero_to(index: &[u8], next: usize, least: usize) -> Option<(usize, usize)>
    ensures { result ≡ onward least Zero next (drop next index.now) }
{
    if index.len() <= next {
        return up_from(0, least, next);
    }
    if is_digit(index[next]) {
        return None;
    }
    up_from(0, least, next)
}

// The number whose digits before a place are `first`.
fn number_to(index: &[u8], from: usize, first: usize, least: usize) -> Option<(usize, usize)>
    requires { first ≤ most_number }
    ensures { result ≡ onward least (Number first) from (drop from index.now) }
{
    let mut n = first;
    for i in from..index.len() {
        let b = index[i];
        if !is_digit(b) {
            return up_from(n, least, i);
        }
        n = n * 10 + (b - b'0') as usize;
        if 65535 < n {
            return None;
        }
    }
    up_from(n, least, from.max(index.len()))
}

// The number whose digits stand at a place.
fn field_at(index: &[u8], at: usize, least: usize) -> Option<(usize, usize)>
    ensures { result ≡ field_at index.now at least }
{
    if index.len() <= at {
        return None;
    }
    let b = index[at];
    if !is_digit(b) {
        return None;
    }
    if b == b'0' {
        return zero_to(index, at + 1, least);
    }
    number_to(index, at + 1, (b - b'0') as usize, least)
}

// Where an id ends: at LF, or where the text does.
fn id_end(index: &[u8], from: usize) -> usize
    ensures { result ≡ id_end index.now from }
{
    for i in from..index.len() {
        if index[i] == b'\n' {
            return i;
        }
    }
    from.max(index.len())
}

fn id_at(index: &[u8], line: usize, count: usize, offset: usize, from: usize) -> Option<IndexRow>
    ensures { result ≡ id_at index.now line count offset from }
{
    let to = id_end(index, from);
    if index.len() <= to {
        return None;
    }
    Some(IndexRow {
        line,
        count,
        offset,
        from,
        to,
        next: to + 1,
    })
}

fn end_at(index: &[u8], line: usize, count: usize, offset: usize, at: usize) -> Option<IndexRow>
    ensures { result ≡ end_at index.now line count offset at }
{
    if index.len() <= at {
        return None;
    }
    let b = index[at];
    if b == b'\n' {
        return Some(IndexRow {
            line,
            count,
            offset,
            from: 0,
            to: 0,
            next: at + 1,
        });
    }
    if b != b'\t' {
        return None;
    }
    id_at(index, line, count, offset, at + 1)
}

fn offset_at(index: &[u8], line: usize, count: usize, at: usize) -> Option<IndexRow>
    ensures { result ≡ offset_at index.now line count at }
{
    let f = field_at(index, at, 0);
    match f {
        None => None,
        Some((n, p)) => end_at(index, line, count, n, p),
    }
}

fn count_at(index: &[u8], line: usize, at: usize) -> Option<IndexRow>
    ensures { result ≡ count_at index.now line at }
{
    let f = field_at(index, at, 1);
    match f {
        None => None,
        Some((n, p)) => {
            if index.len() <= p {
                return None;
            }
            if index[p] != b'\t' {
                return None;
            }
            offset_at(index, line, n, p + 1)
        }
    }
}

// The record whose line begins at a place.
pub fn record_at(index: &[u8], at: usize) -> Option<IndexRow>
    ensures value { result ≡ record_at index.now at }
    ensures result_value { row_paper result ≡ row_paper (record_at index.now at) }
{
    let line = field_at(index, at, 1);
    match line {
        None => None,
        Some((n, p)) => {
            if index.len() <= p {
                return None;
            }
            if index[p] != b'\t' {
                return None;
            }
            count_at(index, n, p + 1)
        }
    }
}

// The length of the first line.
pub const HEADER: usize = 19;

// The numbers of a record take no more: three of at most 20 digits, and two tabs.
const FRONT: usize = 62;

// Writes the first line at the front of lent memory; what has no room is left out.
pub fn put_header(out: &mut [u8])
    ensures { out.new ≡ sets out.old 0 index_header }
{
    base_lists::put_bytes(out, 0, b"carve-attr-index\t2\n");
}

// Whether the first line is that of this version.
pub fn is_headed(index: &[u8]) -> bool
    ensures { result ≡ is_headed index.now }
{
    if index.len() < HEADER {
        return false;
    }
    let mut head = [0u8; HEADER];
    put_header(&mut head);
    let first = set_table::bytes_of(index, 0, HEADER);
    base_lists::same_bytes(first, &head)
}

// Whether the first line, with its LF, is that of some version.
fn is_numbered(index: &[u8]) -> bool
    ensures { result ≡ is_numbered index.now }
{
    let first = set_table::bytes_of(index, 0, 17);
    if !base_lists::same_bytes(first, b"carve-attr-index\t") {
        return false;
    }
    let number = field_at(index, 17, 0);
    match number {
        None => false,
        Some((_, p)) => {
            if index.len() <= p {
                return false;
            }
            index[p] == b'\n'
        }
    }
}

// Whether the first line, with its LF, is that of another version.
pub fn is_other(index: &[u8]) -> bool
    ensures { result ≡ is_other index_version index.now }
{
    if is_headed(index) {
        return false;
    }
    is_numbered(index)
}

// Whether the first line is that of this version, or why it isn't.
pub fn head_of(index: &[u8]) -> Result<(), Refusal>
    ensures value { result ≡ head_of index.now }
    ensures result_value { outcome_no result ≡ order_no (head_order index_version index.now) }
{
    if is_headed(index) {
        return Ok(());
    }
    if is_numbered(index) {
        return Err(Refusal::AnotherVersion);
    }
    Err(Refusal::NotAnIndex)
}

// Writes the numbers of a record at the front of lent memory; what has no room is left out.
fn lay_numbers(out: &mut [u8], line: usize, count: usize, offset: usize) -> usize
    ensures value { (result ≡ length (numbers_text line count offset)) × (result ≤ 62) }
    ensures out_after { out.new ≡ sets out.old 0 (numbers_text line count offset) }
{
    let a = text_digits::put_decimal(out, 0, line as u64);
    let b = a + text_digits::put_field(out, a, count as u64);
    b + text_digits::put_field(out, b, offset as u64)
}

// How many digits a number has; those of a record have at most five.
fn digits_len(n: usize) -> usize
    ensures { (result ≡ length (decimal n)) × (result ≤ 20) }
{
    if n < 10 {
        return 1;
    }
    if n < 100 {
        return 2;
    }
    if n < 1000 {
        return 3;
    }
    if n < 10000 {
        return 4;
    }
    if n < 100000 {
        return 5;
    }
    let mut digits = [0u8; 20];
    text_digits::put_decimal(&mut digits, 0, n as u64)
}

// How many bytes the numbers of a record take, which are not written for it.
fn numbers_size(line: usize, count: usize, offset: usize) -> usize
    ensures { (result ≡ length (numbers_text line count offset)) × (result ≤ 62) }
{
    digits_len(line) + digits_len(count) + digits_len(offset) + 2
}

// How many bytes the numbers of a record take.
pub fn numbers_len(line: usize, count: usize, offset: usize) -> usize
    ensures { result ≡ length (numbers_text line count offset) }
{
    numbers_size(line, count, offset)
}

// How many bytes an id has, quoted or not.
pub fn id_len(quoted: bool, raw: &[u8]) -> usize
    ensures { result ≡ length (bytes_in quoted raw.now) }
{
    if quoted {
        return text_escapes::unescaped_len(raw);
    }
    raw.len()
}

// Writes an id, which has room.
fn put_id(out: &mut [u8], at: usize, quoted: bool, raw: &[u8]) -> usize
    requires { at + length (bytes_in quoted raw.now) ≤ length out.old }
    ensures value { result ≡ at + length (bytes_in quoted raw.now) }
    ensures out_after { out.new ≡ sets out.old at (bytes_in quoted raw.now) }
{
    if quoted {
        match text_escapes::write_unescaped(out, at, raw) {
            None => return at,
            Some(e) => return e,
        }
    }
    base_lists::put_bytes(out, at, raw);
    at + raw.len()
}

// Whether a record's line has room at a place, where its numbers take n bytes and its id m.
fn has_room(size: usize, at: usize, n: usize, given: bool, m: usize) -> bool
    requires { n ≤ 62 }
    ensures { result ≡ leb (at + line_size n given m) size }
{
    if size < at {
        return false;
    }
    let room = size - at;
    if room <= n {
        return false;
    }
    if given {
        if room - n < 2 {
            return false;
        }
        return m <= room - n - 2;
    }
    true
}

// Writes the end of a line, which has room: a tab and the id where there is one, and the LF. Answers where the next line begins.
fn put_end(out: &mut [u8], at: usize, given: bool, quoted: bool, raw: &[u8]) -> usize
    requires { at + length (end_text (raw_id given quoted raw.now)) ≤ length out.old }
    ensures value { result ≡ at + length (end_text (raw_id given quoted raw.now)) }
    ensures out_after { out.new ≡ sets out.old at (end_text (raw_id given quoted raw.now)) }
{
    if given {
        out[at] = b'\t';
        let to = put_id(out, at + 1, quoted, raw);
        out[to] = b'\n';
        return to + 1;
    }
    out[at] = b'\n';
    at + 1
}

// The row of a line whose numbers end at `e` and behind which the next begins at `next`.
fn row_of(line: usize, count: usize, offset: usize, e: usize, given: bool, next: usize) -> IndexRow
    requires { e < next }
    ensures { result ≡ row_to line count offset e given next }
{
    if given {
        return IndexRow {
            line,
            count,
            offset,
            from: e + 1,
            to: next - 1,
            next,
        };
    }
    IndexRow {
        line,
        count,
        offset,
        from: 0,
        to: 0,
        next,
    }
}

// Writes a record's line from the place `at` on, where it has room, and answers its row.
pub fn put_record(
    out: &mut [u8],
    at: usize,
    line: usize,
    count: usize,
    offset: usize,
    given: bool,
    quoted: bool,
    raw: &[u8],
) -> Option<IndexRow>
    ensures value { result ≡ put_of (length out.old) at (record { line = line; count = count; offset = offset; id = raw_id given quoted raw.now }) }
    ensures out_after { out.new ≡ line_over out.old at (record { line = line; count = count; offset = offset; id = raw_id given quoted raw.now }) }
    ensures result_value { put_paper result ≡ put_paper (put_of (length out.old) at (record { line = line; count = count; offset = offset; id = raw_id given quoted raw.now })) }
{
    let n = numbers_size(line, count, offset);
    if !has_room(out.len(), at, n, given, id_len(quoted, raw)) {
        return None;
    }
    let mut front = [0u8; FRONT];
    lay_numbers(&mut front, line, count, offset);
    base_lists::put_bytes(out, at, set_table::bytes_of(&front, 0, n));
    let next = put_end(out, at + n, given, quoted, raw);
    Some(row_of(line, count, offset, at + n, given, next))
}

// Writes a row of a lent table, counted from 0, where the table has it.
pub fn put_row(table: &mut [usize], k: usize, row: IndexRow)
    ensures { table.new ≡ row_over table.old k row }
{
    if table.len() / 5 <= k {
        return;
    }
    let i = k * 5;
    table[i] = row.line;
    table[i + 1] = row.count;
    table[i + 2] = row.offset;
    table[i + 3] = row.from;
    table[i + 4] = row.to;
}
