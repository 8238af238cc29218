// The thirteen numbers of a sheet, and one sheet more in a report.
#![tactic(auto)]

ghost use Rattle.std.specs.Prelude.{◌≡◌, ◌≤◌, ◌<◌, ◌+◌, length, get_or, drop, [], ◌∷◌, cond, ltb};
ghost use Rattle.std.proofs.Math.Seq.{slice};
ghost use Rattle.base_refusals.specs.Numbers.{max_text, number_of};
ghost use Rattle.base_refusals.specs.Orders.{on_paper};
ghost use Rattle.text_lines.specs.Lines.{lines};
ghost use Rattle.set_table.specs.Types.{two};
ghost use Rattle.sheet_blocks.specs.Sheets.{tries_at, join_behind};
ghost use Rattle.sheet_verdicts.specs.Verdicts.{block_verdict};
ghost use Rattle.sheet_totals.specs.Totals.{total_places, max_total, numbers_added, added_paper};
ghost use Rattle.sheet_tally.specs.Counts.{numbers_of};
ghost use Rattle.sheet_tally.specs.Feeds.{feed_of, feed_order, feed_tries};
ghost use Rattle.sheet_tally.specs.Inner.{lines_within, Low, Lows, line_most, max_count, add_at, raised_to, with_run, with_printed, with_refused, with_tried, sheet_numbers, refused_numbers};

use base_refusals::Refusal;
use read_blocks::Block;
use sheet_totals::{Added, Totals};

// How many lines from the one on that begins at the place hold so many bytes. So the lines that a run has joined are counted again by its lookahead, since each has a
// byte; of a run that is refused nothing else tells their number.
fn lines_within(text: &[u8], at: usize, bytes: usize) -> usize
    ensures { result ≡ lines_within (lines (drop at text.now)) bytes }
{
    let mut n = 0;
    let mut left = bytes;
    let mut from = at;
    'lines: loop {
        if left == 0 {
            return n;
        }
        if text.len() <= from {
            return n;
        }
        let l = text_lines::line_from(text, from);
        let size = l.to - from;
        n += 1;
        if left <= size {
            return n;
        }
        left -= size;
        from = l.next;
        continue 'lines;
    }
}

// A number of a report raised by so much.
fn add_at(totals: Totals, place: usize, by: u64) -> Totals
    requires { (place < total_places) × (get_or totals.numbers place 0 + by ≤ max_total) }
    ensures { result ≡ record { numbers = add_at place by totals.numbers } }
{
    let mut t = totals;
    t.numbers[place] = totals.numbers[place] + by;
    t
}

// The longest block, where one of so many lines is longer.
fn raise_longest(totals: Totals, lines: u64) -> Totals
    ensures { result ≡ record { numbers = raised_to lines totals.numbers } }
{
    if totals.numbers[Totals::LONGEST] < lines {
        let mut t = totals;
        t.numbers[Totals::LONGEST] = lines;
        return t;
    }
    totals
}

// A measuring run more.
fn with_run(totals: Totals, joined: usize, lookahead: usize) -> Totals
    requires low { Low max_count totals.numbers }
    requires joined_le_max_text { (joined ≤ max_text) × (lookahead ≤ max_text) }
    ensures { result ≡ record { numbers = with_run joined lookahead totals.numbers } }
{
    let t = add_at(totals, Totals::JOINED, joined as u64);
    add_at(t, Totals::LOOKAHEAD, lookahead as u64)
}

// 1 for a block of more than one line, else 0.
fn wrapped_one(lines: usize) -> u64
    ensures { result ≡ cond (ltb 1 lines) 1 0 }
{
    if 1 < lines {
        return 1;
    }
    0
}

// A printed block more, of so many lines, classes and keys.
fn with_printed(totals: Totals, lines: usize, classes: u8, keys: u8) -> Totals
    requires { Low (max_count + max_text + max_text) totals.numbers }
    ensures value { result ≡ record { numbers = with_printed lines classes keys totals.numbers } }
    ensures lows { Lows (max_text + lines) totals.numbers result.numbers }
{
    let a = add_at(totals, Totals::BLOCKS, 1);
    let b = add_at(a, Totals::WRAPPED, wrapped_one(lines));
    let c = add_at(b, Totals::CLASSES, classes as u64);
    let d = add_at(c, Totals::KEYS, keys as u64);
    raise_longest(d, lines as u64)
}

// A refused block more: only 6, 7 and 10 are counted.
fn with_refused(totals: Totals, why: Refusal) -> Totals
    requires { Low (max_count + max_text + max_text) totals.numbers }
    ensures { result ≡ record { numbers = with_refused (number_of why) totals.numbers } }
{
    let n = base_refusals::number(why);
    if n == 6 {
        return add_at(totals, Totals::REFUSED_6, 1);
    }
    if n == 7 {
        return add_at(totals, Totals::REFUSED_7, 1);
    }
    if n == 10 {
        return add_at(totals, Totals::REFUSED_10, 1);
    }
    totals
}

// The numbers behind a line at which a block was looked for.
fn counted<'a>(totals: Totals, text: &'a [u8], join: &'a [u8], at: usize, block: Block) -> Totals
    requires low { Low max_count totals.numbers }
    requires text_len_bound { (length text.now ≤ max_text) × ((block.lookahead ≤ max_text) × (block.lines ≤ max_text)) }
    ensures value { result ≡ record { numbers = with_tried (lines_within (lines (drop at text.now)) block.lookahead) block (block_verdict (two text.now (slice 0 block.joined join.now)) block.set block.outcome) totals.numbers } }
    ensures lows { Lows line_most totals.numbers result.numbers }
{
    let joined = lines_within(text, at, block.lookahead);
    let t = with_run(totals, joined, block.lookahead);
    if block.lines == 0 {
        return t;
    }
    match sheet_verdicts::verdict_of(text, join, block) {
        Ok(()) => with_printed(t, block.lines, block.set.nclass, block.set.nkey),
        Err(why) => with_refused(t, why),
    }
}

// The numbers of one sheet, of which nothing is counted yet.
fn one_sheet() -> Totals
    ensures { result ≡ record { numbers = 1 ∷ 0 ∷ 0 ∷ 0 ∷ 0 ∷ 0 ∷ 0 ∷ 0 ∷ 0 ∷ 0 ∷ 0 ∷ 0 ∷ 0 ∷ [] } }
{
    let mut t = Totals::empty();
    t.numbers[Totals::SHEETS] = 1;
    t
}

// The numbers of a sheet that has passed the checks, line by line: one that can't open a block is passed by its first byte.
fn tally(text: &[u8], join: &mut [u8]) -> Totals
    requires { (length text.now ≤ max_text) × (max_text ≤ length join.old) }
    ensures value { result ≡ record { numbers = sheet_numbers text.now (tries_at text.now max_text 1 0) } }
    ensures join_after { join.new ≡ join_behind join.old (tries_at text.now max_text 1 0) }
{
    let mut totals = one_sheet();
    let mut at = 0;
    'lines: loop {
        if text.len() <= at {
            return totals;
        }
        if sheet_blocks::may_open(text, at) {
            let block = read_blocks::read_at(text, at, join);
            totals = counted(totals, text, join, at, block);
            if block.lines != 0 {
                at = block.next;
                continue 'lines;
            }
            let l = text_lines::line_from(text, at);
            at = l.next;
            continue 'lines;
        }
        let l = text_lines::line_from(text, at);
        at = l.next;
        continue 'lines;
    }
}

// The numbers of a sheet that is refused, 1 or 2.
fn refused_sheet(why: Refusal) -> Totals
    ensures { result ≡ record { numbers = refused_numbers (number_of why) } }
{
    let mut t = one_sheet();
    let n = base_refusals::number(why);
    if n == 1 {
        t.numbers[Totals::REFUSED_1] = 1;
        return t;
    }
    if n == 2 {
        t.numbers[Totals::REFUSED_2] = 1;
        return t;
    }
    t
}

// A report with one sheet more. A sheet of 1 or 2 is counted and refuses nothing.
pub fn feed(totals: Totals, text: &[u8], join: &mut [u8]) -> Added
    ensures value { result ≡ feed_of totals text.now (length join.old) }
    ensures join_after { join.new ≡ join_behind join.old (feed_tries text.now (length join.old)) }
    ensures result_value { added_paper result ≡ on_paper (feed_order totals text.now (length join.old)) (numbers_added totals.numbers (numbers_of (text.now ∷ []))) }
{
    match text_checks::check_text(text) {
        Err(why) => sheet_totals::add_totals(totals, refused_sheet(why)),
        Ok(()) => {
            if join.len() < base_refusals::MAX_TEXT {
                return Added {
                    outcome: Err(Refusal::JoinFull),
                    totals,
                };
            }
            sheet_totals::add_totals(totals, tally(text, join))
        }
    }
}
