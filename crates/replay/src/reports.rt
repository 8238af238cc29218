// Requests for reports over sheets, and for the runs that a report counts.
use crate::fields::Said;
use crate::{ask, fields, out, reply};
use base_refusals::Refusal;
use sheet_totals::{Added, Totals};

// The numbers of a field, and 1 where it has no thirteen.
#[derive(Clone, Copy)]
struct Given {
    bad: u8,
    totals: Totals,
}

// How many words there are, the number of a line that has none of them.
pub(crate) const NONE: usize = 4;

// The number of a request's word.
pub(crate) fn word_of(line: &[u8]) -> usize {
    fields::index_of(
        b"report/report_feed/report_add/runs",
        fields::part(line, 0, fields::find(line, 0, b' ')),
    )
}

// Answers a request, its sheets laid into a one after the other, with a join buffer as long as it was asked for.
pub(crate) fn answer(
    word: usize,
    line: &[u8],
    a: &mut [u8],
    join: &mut [u8],
    output: &mut [u8],
    at: usize,
) -> usize {
    let cap = cap_of(word, line);
    if cap.bad != 0 {
        return put_error(output, at);
    }
    if join.len() < cap.n {
        return put_error(output, at);
    }
    let part = &mut join[..cap.n];
    answer_by(word, line, a, part, output, at)
}

// Answers it by the number of its word and how many fields it has.
fn answer_by(
    word: usize,
    line: &[u8],
    a: &mut [u8],
    join: &mut [u8],
    output: &mut [u8],
    at: usize,
) -> usize {
    let count = count_of(line);
    if word == 0 {
        return report(line, count, a, join, output, at);
    }
    if word == 2 {
        return add(line, count, output, at);
    }
    if word == 1 {
        return feed(line, count, a, join, output, at);
    }
    runs(line, count, a, join, output, at)
}

// Whether the last field is the length of the join buffer.
fn has_cap(line: &[u8]) -> bool {
    last_of(line).starts_with(b"cap=")
}

fn last_of(line: &[u8]) -> &[u8] {
    let n = fields::count(line, b' ');
    if n == 0 {
        return fields::part(line, 0, 0);
    }
    fields::field(line, b' ', n - 1)
}

// How many fields stand before that one.
fn count_of(line: &[u8]) -> usize {
    let n = fields::count(line, b' ');
    if n == 0 {
        return 0;
    }
    if has_cap(line) {
        return n - 1;
    }
    n
}

fn cap_of(word: usize, line: &[u8]) -> Said {
    if has_cap(line) {
        return heeded(word, ask::cap_at(last_of(line)));
    }
    fields::good(base_refusals::MAX_TEXT)
}

// The length that was asked for; a report over sheets takes the word and doesn't heed it.
fn heeded(word: usize, cap: Said) -> Said {
    if cap.bad != 0 {
        return cap;
    }
    if word == 0 {
        return fields::good(base_refusals::MAX_TEXT);
    }
    cap
}

pub(crate) fn put_error(output: &mut [u8], at: usize) -> usize {
    reply::put_phrase(output, at, reply::ERROR)
}

pub(crate) fn put_refused(output: &mut [u8], at: usize, why: Refusal) -> usize {
    let to = reply::put_phrase(output, at, reply::REFUSED);
    out::put_number(output, to, fields::wide(base_refusals::number(why)))
}

// Adds a word and the thirteen numbers, parted by commas.
fn put_totals(output: &mut [u8], at: usize, totals: Totals) -> usize {
    let mut to = out::put(output, at, b"report");
    for (k, n) in totals.numbers.iter().enumerate() {
        to = out::put_byte(output, to, mark(k));
        to = out::put_number(output, to, *n as usize);
    }
    to
}

// What stands before the number of that place.
fn mark(k: usize) -> u8 {
    if k == 0 {
        return b' ';
    }
    b','
}

// The thirteen numbers of a field.
fn numbers_of(s: &[u8]) -> Given {
    let mut totals = Totals::empty();
    if fields::count(s, b',') != Totals::PLACES {
        return Given { bad: 1, totals };
    }
    for k in 0..Totals::PLACES {
        let n = fields::number(fields::field(s, b',', k));
        if n.bad != 0 {
            return Given { bad: 1, totals };
        }
        totals.numbers[k] = n.n as u64;
    }
    Given { bad: 0, totals }
}

// Sheets: the report over all of them, one fed after the other.
fn report(
    line: &[u8],
    count: usize,
    a: &mut [u8],
    join: &mut [u8],
    output: &mut [u8],
    at: usize,
) -> usize {
    if count < 2 {
        return put_error(output, at);
    }
    let mut totals = Totals::empty();
    for k in 1..count {
        let text = fields::unhex(fields::field(line, b' ', k), a);
        if text.bad != 0 {
            return put_error(output, at);
        }
        let fed = sheet_tally::feed(totals, fields::part(a, 0, text.n), join);
        let outcome = fed.outcome;
        match outcome {
            Err(why) => return put_refused(output, at, why),
            Ok(()) => totals = fed.totals,
        }
    }
    put_totals(output, at, totals)
}

// A report and a sheet: the report after that sheet, and where it is refused the number before it.
fn feed(
    line: &[u8],
    count: usize,
    a: &mut [u8],
    join: &mut [u8],
    output: &mut [u8],
    at: usize,
) -> usize {
    let given = numbers_of(fields::field(line, b' ', 1));
    let text = fields::unhex(fields::field(line, b' ', 2), a);
    if given.bad | text.bad != 0 {
        return put_error(output, at);
    }
    if count != 3 {
        return put_error(output, at);
    }
    put_fed(
        output,
        at,
        sheet_tally::feed(given.totals, fields::part(a, 0, text.n), join),
    )
}

fn put_fed(output: &mut [u8], at: usize, fed: Added) -> usize {
    let outcome = fed.outcome;
    match outcome {
        Ok(()) => put_totals(output, at, fed.totals),
        Err(why) => {
            let number = put_refused(output, at, why);
            let to = out::put_byte(output, number, b' ');
            put_totals(output, to, fed.totals)
        }
    }
}

// Two reports, added up.
fn add(line: &[u8], count: usize, output: &mut [u8], at: usize) -> usize {
    let first = numbers_of(fields::field(line, b' ', 1));
    let second = numbers_of(fields::field(line, b' ', 2));
    if first.bad | second.bad != 0 {
        return put_error(output, at);
    }
    if count != 3 {
        return put_error(output, at);
    }
    put_added(
        output,
        at,
        sheet_totals::add_totals(first.totals, second.totals),
    )
}

fn put_added(output: &mut [u8], at: usize, sum: Added) -> usize {
    let outcome = sum.outcome;
    match outcome {
        Ok(()) => put_totals(output, at, sum.totals),
        Err(why) => put_refused(output, at, why),
    }
}

// A sheet: its blocks, refused ones too, the lines joined and the lookahead over its runs, and what the join buffer then holds.
fn runs(
    line: &[u8],
    count: usize,
    a: &mut [u8],
    join: &mut [u8],
    output: &mut [u8],
    at: usize,
) -> usize {
    let text = fields::unhex(fields::field(line, b' ', 1), a);
    if text.bad != 0 {
        return put_error(output, at);
    }
    if count != 2 {
        return put_error(output, at);
    }
    let sheet = fields::part(a, 0, text.n);
    match text_checks::check_text(sheet) {
        Err(why) => put_refused(output, at, why),
        Ok(()) => {
            let fed = sheet_tally::feed(Totals::empty(), sheet, join);
            put_runs(output, at, fed, join)
        }
    }
}

fn put_runs(output: &mut [u8], at: usize, fed: Added, join: &[u8]) -> usize {
    let outcome = fed.outcome;
    match outcome {
        Err(why) => put_refused(output, at, why),
        Ok(()) => {
            let t = fed.totals;
            let head = put_counts(output, at, blocks_in(t), number_in(t, Totals::JOINED));
            let empty = reply::alone(reply::NOTHING);
            let run = reply::with_run(empty, number_in(t, Totals::LOOKAHEAD), join);
            reply::put(output, head, run, fields::part(join, 0, 0), join)
        }
    }
}

fn put_counts(output: &mut [u8], at: usize, blocks: usize, lines: usize) -> usize {
    let a = out::put(output, at, b"blocks ");
    let b = out::put_number(output, a, blocks);
    let c = out::put(output, b, b" lines ");
    out::put_number(output, c, lines)
}

// All blocks: those that are printed, and those of each refusal.
fn blocks_in(t: Totals) -> usize {
    let printed = number_in(t, Totals::BLOCKS);
    let six = number_in(t, Totals::REFUSED_6);
    let seven = number_in(t, Totals::REFUSED_7);
    let ten = number_in(t, Totals::REFUSED_10);
    sum(sum(printed, six), sum(seven, ten))
}

// The number at a place, 0 where there is none.
fn number_in(t: Totals, k: usize) -> usize {
    if Totals::PLACES <= k {
        return 0;
    }
    t.numbers[k] as usize
}

// Two numbers together, as far as that fits.
fn sum(x: usize, y: usize) -> usize {
    if usize::MAX - x < y {
        return usize::MAX;
    }
    x + y
}
