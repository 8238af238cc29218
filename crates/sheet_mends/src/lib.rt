// Mending an index after lines of its sheet were replaced.
#![tactic(auto)]

ghost use Rattle.std.specs.Prelude.{◌≡◌, ◌&&◌, [], ◌∷◌, map, ◌≤◌, ◌+◌, length};
ghost use Rattle.std.proofs.Math.Seq.{slice};
ghost use Rattle.base_lists.specs.Lists.{over};
ghost use Rattle.base_refusals.specs.Numbers.{max_text};
ghost use Rattle.base_refusals.specs.Orders.{on_paper};
ghost use Rattle.text_lines.specs.Lines.{lines};
ghost use Rattle.set_marks.specs.Marks.{bytes_in};
ghost use Rattle.set_table.specs.Types.{two};
ghost use Rattle.sheet_blocks.specs.Sheets.{tries_at, join_behind};
ghost use Rattle.sheet_records.specs.Records.{AllIn, record_line, row_at, index_text, index_rows, table_numbers};
ghost use Rattle.sheet_records.specs.Listed.{records_of};
ghost use Rattle.sheet_records.specs.Computed.{id_in};
ghost use Rattle.sheet_records.specs.Writing.{raw_id, table_size};
ghost use Rattle.sheet_stands.specs.Stands.{stands_at};
ghost use Rattle.sheet_index.specs.Inner.{set_record, block_adds, lines_text, most_line};
ghost use Rattle.sheet_index.specs.Building.{room_for, built_paper};
ghost use Rattle.sheet_splits.specs.Parting.{moved_on};
ghost use Rattle.sheet_mends.specs.Inner.{so_few, one_more, at_most, most_text, most_index, most_kept, tell_one, tell_all};
ghost use Rattle.sheet_mends.specs.Mending.{mend_order, mended_of, mended_text, mended_table, mend_tries};
ghost use Rattle.sheet_mends.specs.Assembled.{AreAgain, OldParts, MayMend, seen_of, so_far, text_and_rest, behind_version, behind_edit, behind_texts, compared_tries, version_tries, checked_tries, answered_by, table_by, text_by};

use base_refusals::Refusal;
use read_blocks::Block;
use set_table::Attrs;
use sheet_records::IndexRow;

// Records that are told one after the other: whether their lines stand in an index, how many they are, and where the next line begins.
#[derive(Clone, Copy)]
struct Progress {
    good: bool,
    records: usize,
    next: usize,
}

// What is seen of an old text and an index: whether it is the text's own; how many lines stand before those that are read again and how many before those behind
// them; how many records stand before them, and where in the index their records begin and end.
#[derive(Clone, Copy)]
struct Seen {
    good: bool,
    line: usize,
    less: usize,
    records: usize,
    from: usize,
    to: usize,
}

// Whether both are so.
fn both(a: bool, b: bool) -> bool
    ensures { result ≡ a && b }
{
    if a {
        return b;
    }
    false
}

// The row of a record whose line begins at `at`.
fn row_of(
    at: usize,
    line: usize,
    count: usize,
    offset: usize,
    given: bool,
    quoted: bool,
    raw: &[u8],
) -> IndexRow
    requires { at + length (bytes_in quoted raw.now) ≤ 4611686018427387904 }
    ensures { result ≡ row_at at (record { line = line; count = count; offset = offset; id = raw_id given quoted raw.now }) }
{
    let end = at + sheet_records::numbers_len(line, count, offset);
    if given {
        let to = end + 1 + sheet_records::id_len(quoted, raw);
        return IndexRow {
            line,
            count,
            offset,
            from: end + 1,
            to,
            next: to + 1,
        };
    }
    IndexRow {
        line,
        count,
        offset,
        from: 0,
        to: 0,
        next: end + 1,
    }
}

// Whether the lines so far stand in the index, and this record's too; where one doesn't, no other is compared.
fn stands_too<'a>(
    good: bool,
    index: &'a [u8],
    at: usize,
    line: usize,
    count: usize,
    offset: usize,
    given: bool,
    quoted: bool,
    raw: &'a [u8],
) -> bool
    ensures { result ≡ good && stands_at index.now at (record_line (record { line = line; count = count; offset = offset; id = raw_id given quoted raw.now })) }
{
    if good {
        return sheet_stands::line_stands(index, at, line, count, offset, given, quoted, raw);
    }
    false
}

// Tells one record: its line is compared with the index, and its row and line are put where they have room.
fn tell<'a>(
    index: &'a [u8],
    table: &mut [usize],
    out: &mut [u8],
    line: usize,
    count: usize,
    offset: usize,
    given: bool,
    quoted: bool,
    raw: &'a [u8],
    so: Progress,
) -> Progress
    requires { (so.records ≤ 4611686018427387904) × (so.next + length (bytes_in quoted raw.now) ≤ 4611686018427387904) }
    ensures { record { so = result; table = table.new; out = out.new } ≡ tell_one index.now (record { so = so; table = table.old; out = out.old }) (record { line = line; count = count; offset = offset; id = raw_id given quoted raw.now }) }
{
    let row = row_of(so.next, line, count, offset, given, quoted, raw);
    let good = stands_too(
        so.good, index, so.next, line, count, offset, given, quoted, raw,
    );
    sheet_records::put_row(table, so.records, row);
    sheet_records::put_record(out, so.next, line, count, offset, given, quoted, raw);
    Progress {
        good,
        records: so.records + 1,
        next: row.next,
    }
}

// Tells the record of a block, whose set is over these two texts.
fn tell_set<'a>(
    index: &'a [u8],
    table: &mut [usize],
    out: &mut [u8],
    first: &'a [u8],
    second: &'a [u8],
    n: usize,
    lines: usize,
    at: usize,
    set: Attrs,
    so: Progress,
) -> Progress
    requires { one_more so }
    ensures out_after { record { so = result; table = table.new; out = out.new } ≡ tell_one index.now (record { so = so; table = table.old; out = out.old }) (set_record (two first.now second.now) n lines at set) }
    ensures at_most { at_most 1 most_line so result }
{
    let value = set.id;
    let raw = set_marks::raw_bytes(first, second, value);
    let quoted = set_marks::is_quoted(value);
    tell(index, table, out, n, lines, at, set.given, quoted, raw, so)
}

// Tells the record of a block, where it is printed.
fn tell_block<'a>(
    index: &'a [u8],
    table: &mut [usize],
    out: &mut [u8],
    text: &'a [u8],
    join: &'a [u8],
    n: usize,
    at: usize,
    block: Block,
    so: Progress,
) -> Progress
    requires { one_more so }
    ensures out_after { record { so = result; table = table.new; out = out.new } ≡ tell_all index.now (record { so = so; table = table.old; out = out.old }) (block_adds (two text.now (slice 0 block.joined join.now)) n block.lines at block.set block.outcome) }
    ensures at_most { at_most 1 most_line so result }
{
    match sheet_verdicts::verdict_of(text, join, block) {
        Err(_) => so,
        Ok(()) => {
            let joined = set_table::bytes_of(join, 0, block.joined);
            tell_set(
                index,
                table,
                out,
                text,
                joined,
                n,
                block.lines,
                at,
                block.set,
                so,
            )
        }
    }
}

// Tells the records of a part of a sheet, before which `line` lines and `offset` bytes stand.
fn tell_text<'a>(
    text: &'a [u8],
    line: usize,
    offset: usize,
    index: &'a [u8],
    join: &mut [u8],
    table: &mut [usize],
    out: &mut [u8],
    so: Progress,
) -> Progress
    requires text_len_bound { (length text.now ≤ max_text) × (max_text ≤ length join.old) }
    requires line_le_max_text { (line ≤ max_text) × (offset ≤ max_text) }
    requires so_few { so_few so }
    ensures out_after { record { so = result; table = table.new; out = out.new } ≡ tell_all index.now (record { so = so; table = table.old; out = out.old }) (map (moved_on line offset) (records_of text.now)) }
    ensures join_after { join.new ≡ join_behind join.old (tries_at text.now max_text 1 0) }
    ensures at_most { at_most max_text most_text so result }
{
    let mut told = so;
    let mut at = 0;
    let mut own = 1;
    'sheet: loop {
        let next = sheet_blocks::next_block(text, at, join);
        let block = next.block;
        if block.lines == 0 {
            return told;
        }
        let n = own + next.skipped;
        told = tell_block(
            index,
            table,
            out,
            text,
            join,
            line + n,
            offset + next.at,
            block,
            told,
        );
        own = n + block.lines;
        at = block.next;
        continue 'sheet;
    }
}

// Tells the record of a row of the index itself, its line and its offset moved.
fn tell_row(
    index: &[u8],
    row: IndexRow,
    line: usize,
    offset: usize,
    table: &mut [usize],
    out: &mut [u8],
    so: Progress,
) -> Progress
    requires { one_more so × (length index.now ≤ most_index) }
    ensures { record { so = result; table = table.new; out = out.new } ≡ tell_one index.now (record { so = so; table = table.old; out = out.old }) (record { line = line; count = row.count; offset = offset; id = id_in index.now row.from row.to }) }
{
    let raw = set_table::bytes_of(index, row.from, row.to);
    let given = 0 < row.from;
    tell(
        index, table, out, line, row.count, offset, given, false, raw, so,
    )
}

// Tells the records that stand in the index from one place up to another. They are those of a part of a sheet, before which `less` lines and `back`
// bytes stood and now `more` lines and `forth` bytes stand; the part itself isn't read.
fn tell_kept(
    text: &[u8],
    index: &[u8],
    from: usize,
    to: usize,
    less: usize,
    more: usize,
    back: usize,
    forth: usize,
    table: &mut [usize],
    out: &mut [u8],
    so: Progress,
) -> Progress
    requires from_le_to { (from ≤ to) × ((to ≤ length index.now) × (length index.now ≤ most_index)) }
    requires index_value { slice from to index.now ≡ lines_text (map (moved_on less back) (records_of text.now)) }
    requires all_in { AllIn (map (moved_on less back) (records_of text.now)) }
    requires more_le_max_text { (more ≤ max_text) × (forth ≤ max_text) }
    requires so_few { so_few so }
    ensures out_after { record { so = result; table = table.new; out = out.new } ≡ tell_all index.now (record { so = so; table = table.old; out = out.old }) (map (moved_on more forth) (records_of text.now)) }
    ensures at_most { at_most most_index most_kept so result }
{
    let mut told = so;
    let mut at = from;
    'rows: loop {
        if to <= at {
            return told;
        }
        match sheet_records::record_at(index, at) {
            None => return told,
            Some(e) => {
                let line = e.line - less + more;
                let offset = e.offset - back + forth;
                told = tell_row(index, e, line, offset, table, out, told);
                at = e.next;
                continue 'rows;
            }
        }
    }
}

// Compares the old text with the index, in three parts, so that it is seen where in the index the records of the lines that are read again stand. They are told into a
// table and a buffer that have room for none.
fn compare_old<'a>(old: &'a [u8], p: usize, e: usize, index: &'a [u8], join: &mut [u8]) -> Seen
    requires len_bound { (length old.now ≤ max_text) × (max_text ≤ length join.old) }
    requires old_parts { OldParts old.now p e }
    ensures value { result ≡ seen_of old.now p e index.now }
    ensures join_after { join.new ≡ join_behind join.old (tries_at old.now max_text 1 0) }
    ensures records_le_max_text { (result.records ≤ max_text) × (length (index_text (records_of old.now)) ≤ most_index) }
{
    let mut table = [0usize; 4];
    let mut out = [0u8; 1];
    let front = set_table::bytes_of(old, 0, p);
    let again = set_table::bytes_of(old, p, e);
    let rest = set_table::bytes_of(old, e, old.len());
    let start = Progress {
        good: sheet_records::is_headed(index),
        records: 0,
        next: sheet_records::HEADER,
    };
    let first = tell_text(front, 0, 0, index, join, &mut table, &mut out, start);
    let line = sheet_edits::line_count(front);
    let second = tell_text(again, line, p, index, join, &mut table, &mut out, first);
    let less = line + sheet_edits::line_count(again);
    let third = tell_text(rest, less, e, index, join, &mut table, &mut out, second);
    Seen {
        good: both(third.good, third.next == index.len()),
        line,
        less,
        records: first.records,
        from: first.next,
        to: second.next,
    }
}

// Tells the records of a text and, behind them, those that stand in the index from a place on, which are those of the rest of the old text and are moved.
fn tell_rest<'a>(
    text: &'a [u8],
    rest: &[u8],
    index: &'a [u8],
    to: usize,
    line: usize,
    offset: usize,
    less: usize,
    back: usize,
    join: &mut [u8],
    table: &mut [usize],
    out: &mut [u8],
    so: Progress,
) -> Progress
    requires text_len_bound { (length text.now ≤ max_text) × (max_text ≤ length join.old) }
    requires text_bound { (line + length (lines text.now) ≤ max_text) × (offset + length text.now ≤ max_text) }
    requires to_in_bounds { (to ≤ length index.now) × (length index.now ≤ most_index) }
    requires index_value { slice to (length index.now) index.now ≡ lines_text (map (moved_on less back) (records_of rest.now)) }
    requires all_in { AllIn (map (moved_on less back) (records_of rest.now)) }
    requires so_far { so_far so }
    ensures out_after { record { so = result; table = table.new; out = out.new } ≡ tell_all index.now (record { so = so; table = table.old; out = out.old }) (text_and_rest line offset text.now rest.now) }
    ensures join_after { join.new ≡ join_behind join.old (tries_at text.now max_text 1 0) }
{
    let told = tell_text(text, line, offset, index, join, table, out, so);
    let more = line + sheet_edits::line_count(text);
    let end = index.len();
    tell_kept(
        rest,
        index,
        to,
        end,
        less,
        more,
        back,
        offset + text.len(),
        table,
        out,
        told,
    )
}

// Measures the records of the new text, by telling them into a table and a buffer that have room for none: those before the lines that are read again are known.
fn measure_mended<'a>(
    old: &'a [u8],
    new: &'a [u8],
    p: usize,
    e: usize,
    n: usize,
    index: &'a [u8],
    seen: Seen,
    join: &mut [u8],
) -> Progress
    requires { MayMend old.now new.now p e n index.now join.old seen }
    ensures records_value { (result.records ≡ length (records_of new.now)) × (result.next ≡ length (index_text (records_of new.now))) }
    ensures join_after { join.new ≡ join_behind join.old (tries_at (slice p n new.now) max_text 1 0) }
{
    let mut table = [0usize; 4];
    let mut out = [0u8; 1];
    let text = set_table::bytes_of(new, p, n);
    let rest = set_table::bytes_of(old, e, old.len());
    // These records are only measured: where what comes before isn't good, none is compared with the index.
    let so = Progress {
        good: false,
        records: seen.records,
        next: seen.from,
    };
    tell_rest(
        text, rest, index, seen.to, seen.line, p, seen.less, e, join, &mut table, &mut out, so,
    )
}

// Lays the records of the new text, which have room: those before the lines that are read again, these, and those behind them.
fn lay_mended<'a>(
    old: &'a [u8],
    new: &'a [u8],
    p: usize,
    e: usize,
    n: usize,
    index: &'a [u8],
    seen: Seen,
    join: &mut [u8],
    table: &mut [usize],
    out: &mut [u8],
)
    requires may_mend { MayMend old.now new.now p e n index.now join.old seen }
    requires len_bound { (length (records_of new.now) ≤ table_size (length table.old)) × (length (index_text (records_of new.now)) ≤ length out.old) }
    ensures join_after { join.new ≡ join_behind join.old (tries_at (slice p n new.now) max_text 1 0) }
    ensures table_after { table.new ≡ over (table_numbers (index_rows (records_of new.now))) table.old }
    ensures out_after { out.new ≡ over (index_text (records_of new.now)) out.old }
{
    sheet_records::put_header(out);
    let front = set_table::bytes_of(old, 0, p);
    let text = set_table::bytes_of(new, p, n);
    let rest = set_table::bytes_of(old, e, old.len());
    // These records are only laid: where what comes before isn't good, none is compared with the index.
    let start = Progress {
        good: false,
        records: 0,
        next: sheet_records::HEADER,
    };
    let so = tell_kept(
        front,
        index,
        sheet_records::HEADER,
        seen.from,
        0,
        0,
        0,
        0,
        table,
        out,
        start,
    );
    tell_rest(
        text, rest, index, seen.to, seen.line, p, seen.less, e, join, table, out, so,
    );
}

// Mends an index that is the old text's own: measured first, so that a refusal leaves table and buffer.
fn mend_seen<'a>(
    old: &'a [u8],
    new: &'a [u8],
    p: usize,
    e: usize,
    n: usize,
    index: &'a [u8],
    seen: Seen,
    join: &mut [u8],
    table: &mut [usize],
    out: &mut [u8],
) -> Result<(usize, usize), Refusal>
    requires { MayMend old.now new.now p e n index.now join.old seen }
    ensures value { result ≡ answered_by (room_for (length table.old) (length out.old) (records_of new.now)) (records_of new.now) }
    ensures join_after { join.new ≡ join_behind join.old (tries_at (slice p n new.now) max_text 1 0) }
    ensures table_after { table.new ≡ table_by (room_for (length table.old) (length out.old) (records_of new.now)) (records_of new.now) table.old }
    ensures out_after { out.new ≡ text_by (room_for (length table.old) (length out.old) (records_of new.now)) (records_of new.now) out.old }
{
    let size = measure_mended(old, new, p, e, n, index, seen, join);
    if table.len() / 5 < size.records {
        return Err(Refusal::TableFull);
    }
    if out.len() < size.next {
        return Err(Refusal::IndexTooLong);
    }
    lay_mended(old, new, p, e, n, index, seen, join, table, out);
    Ok((size.records, size.next))
}

// Mends an index where it is known which lines are read again: the whole old text counts before the lent table does.
fn mend_lines<'a>(
    old: &'a [u8],
    new: &'a [u8],
    p: usize,
    e: usize,
    n: usize,
    index: &'a [u8],
    join: &mut [u8],
    table: &mut [usize],
    out: &mut [u8],
) -> Result<(usize, usize), Refusal>
    requires len_bound { (length old.now ≤ max_text) × ((length new.now ≤ max_text) × (max_text ≤ length join.old)) }
    requires all_in { AllIn (records_of old.now) }
    requires are_again { AreAgain old.now new.now p e n }
    ensures value { result ≡ answered_by (behind_version old.now new.now index.now (length table.old) (length out.old)) (records_of new.now) }
    ensures join_after { join.new ≡ join_behind join.old (compared_tries old.now index.now (slice p n new.now)) }
    ensures table_after { table.new ≡ table_by (behind_version old.now new.now index.now (length table.old) (length out.old)) (records_of new.now) table.old }
    ensures out_after { out.new ≡ text_by (behind_version old.now new.now index.now (length table.old) (length out.old)) (records_of new.now) out.old }
{
    let seen = compare_old(old, p, e, index, join);
    if !seen.good {
        return Err(Refusal::NotAnIndex);
    }
    mend_seen(old, new, p, e, n, index, seen, join, table, out)
}

// The same for an index of any version: another one is told by its first line, before the old text is read.
fn mend_version<'a>(
    old: &'a [u8],
    new: &'a [u8],
    p: usize,
    e: usize,
    n: usize,
    index: &'a [u8],
    join: &mut [u8],
    table: &mut [usize],
    out: &mut [u8],
) -> Result<(usize, usize), Refusal>
    requires len_bound { (length old.now ≤ max_text) × ((length new.now ≤ max_text) × (max_text ≤ length join.old)) }
    requires all_in { AllIn (records_of old.now) }
    requires are_again { AreAgain old.now new.now p e n }
    ensures value { result ≡ answered_by (behind_edit old.now new.now index.now (length table.old) (length out.old)) (records_of new.now) }
    ensures join_after { join.new ≡ join_behind join.old (version_tries old.now index.now (slice p n new.now)) }
    ensures table_after { table.new ≡ table_by (behind_edit old.now new.now index.now (length table.old) (length out.old)) (records_of new.now) table.old }
    ensures out_after { out.new ≡ text_by (behind_edit old.now new.now index.now (length table.old) (length out.old)) (records_of new.now) out.old }
{
    if sheet_records::is_other(index) {
        return Err(Refusal::AnotherVersion);
    }
    mend_lines(old, new, p, e, n, index, join, table, out)
}

// Mends an index where the two texts are texts.
fn mend_checked<'a>(
    old: &'a [u8],
    new: &'a [u8],
    a: usize,
    b: usize,
    index: &'a [u8],
    join: &mut [u8],
    table: &mut [usize],
    out: &mut [u8],
) -> Result<(usize, usize), Refusal>
    requires len_bound { (length old.now ≤ max_text) × (length new.now ≤ max_text) }
    requires all_in { AllIn (records_of old.now) }
    ensures value { result ≡ answered_by (behind_texts old.now new.now a b index.now (length join.old) (length table.old) (length out.old)) (records_of new.now) }
    ensures join_after { join.new ≡ join_behind join.old (checked_tries old.now new.now a b index.now (length join.old)) }
    ensures table_after { table.new ≡ table_by (behind_texts old.now new.now a b index.now (length join.old) (length table.old) (length out.old)) (records_of new.now) table.old }
    ensures out_after { out.new ≡ text_by (behind_texts old.now new.now a b index.now (length join.old) (length table.old) (length out.old)) (records_of new.now) out.old }
{
    if join.len() < base_refusals::MAX_TEXT {
        return Err(Refusal::JoinFull);
    }
    match sheet_edits::lines_again(old, new, a, b) {
        None => Err(Refusal::NothingThere),
        Some((p, e, n)) => mend_version(old, new, p, e, n, index, join, table, out),
    }
}

// The index of the new text, made of that of the old one and of the lines around those that were replaced, in lent memory with its rows in a lent table; or why
// there is none.
pub fn mend_index<'a>(
    old: &'a [u8],
    new: &'a [u8],
    a: usize,
    b: usize,
    index: &'a [u8],
    join: &mut [u8],
    table: &mut [usize],
    out: &mut [u8],
) -> Result<(usize, usize), Refusal>
    ensures value { result ≡ mended_of old.now new.now a b index.now (length join.old) (length table.old) (length out.old) }
    ensures join_after { join.new ≡ join_behind join.old (mend_tries old.now new.now a b index.now (length join.old)) }
    ensures table_after { table.new ≡ over (mended_table old.now new.now a b index.now (length join.old) (length table.old) (length out.old)) table.old }
    ensures out_after { out.new ≡ over (mended_text old.now new.now a b index.now (length join.old) (length table.old) (length out.old)) out.old }
    ensures result_value { built_paper result ≡ on_paper (mend_order old.now new.now a b index.now (length join.old) (length table.old) (length out.old)) (length (records_of new.now) ∷ length (index_text (records_of new.now)) ∷ []) }
{
    text_checks::check_both(old, new)?;
    mend_checked(old, new, a, b, index, join, table, out)
}
