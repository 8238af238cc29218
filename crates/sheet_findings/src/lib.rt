// Lines of a sheet that look like a block and are none, and blocks that the report refuses: what is wrong with each, and where.
#![tactic(auto)]

ghost use Rattle.std.specs.Prelude.{◌≡◌, true, ◌<◌, ◌≤◌, length};
ghost use Rattle.base_refusals.specs.Numbers.{max_text};
ghost use Rattle.base_refusals.specs.Orders.{on_paper};
ghost use Rattle.block_trimmed_line.specs.Fronts.{front_of, opens_at};
ghost use Rattle.sheet_findings.specs.Findings.{kind_no, is_clear, here, open_finding, chain_finding, joined_finding, left_kind, stop_finding, run_finding, run_holds, fault_finding, fault_holds, indented_finding, mark_finding, limit_finding, step_of, step_holds, next_finding, next_holds, next_order, found_paper};

use base_refusals::Refusal;
use block_faults::Fault;
use block_trimmed_line::Front;
use run_refused::RunReply;
use run_stops::{Stop, Why};

// What is wrong with a line: nothing; its block is refused by a limit; a byte order mark, or a space or a tab, stands before its brace; the payload goes wrong; text
// stands behind the last brace; the block is never closed; a quote is left open; a blank line stands in it; a line of it isn't indented far enough (`Left`), or that is
// all that is wrong with it (`Shallow`); a line of it isn't whole entries.
#[derive(Clone, Copy)]
pub enum Kind {
    Clear,
    Limit,
    Marked,
    Indented,
    Mistake,
    Behind,
    Unclosed,
    Quoted,
    Blank,
    Left,
    Shallow,
    Entries,
}

// What is wrong, how many lines below the first, at which place of the text, and its number: the refusal of a limit, the bytes before the brace of an indented block,
// the column beyond which a line has to be indented; else 0.
#[derive(Clone, Copy)]
pub struct Finding {
    pub kind: Kind,
    pub row: usize,
    pub place: usize,
    pub number: usize,
}

// A line's finding, how many lines it takes, and where the next begins.
#[derive(Clone, Copy)]
pub struct Step {
    pub finding: Finding,
    pub lines: usize,
    pub next: usize,
}

// The next finding: how many lines are gone past before its line, where that begins, how many it takes, and where to go on.
#[derive(Clone, Copy)]
pub struct Next {
    pub told: Result<Option<Finding>, Refusal>,
    pub skipped: usize,
    pub at: usize,
    pub lines: usize,
    pub next: usize,
}

// The number of a kind.
pub fn kind_number(kind: Kind) -> u8
    ensures { result ≡ kind_no kind }
{
    match kind {
        Kind::Clear => 0,
        Kind::Limit => 1,
        Kind::Marked => 2,
        Kind::Indented => 3,
        Kind::Mistake => 4,
        Kind::Behind => 5,
        Kind::Unclosed => 6,
        Kind::Quoted => 7,
        Kind::Blank => 8,
        Kind::Left => 9,
        Kind::Shallow => 10,
        Kind::Entries => 11,
    }
}

// A finding in the line itself.
fn here(kind: Kind, place: usize) -> Finding
    ensures { result ≡ here kind place }
{
    Finding {
        kind,
        row: 0,
        place,
        number: 0,
    }
}

// A block whose brace stands at the place isn't closed: for a quote that is left open, or by itself.
fn open_finding(s: &[u8], at: usize) -> Finding
    ensures { result ≡ open_finding s.now at }
{
    match run_stops::quote_left(s, at) {
        None => here(Kind::Unclosed, at),
        Some(p) => here(Kind::Quoted, p),
    }
}

// What is wrong with blocks that should stand back to back from the place on up to the end.
fn chain_finding(s: &[u8], from: usize) -> Finding
    ensures { result ≡ chain_finding s.now from }
{
    match block_faults::chain_fault(s, from) {
        None => here(Kind::Clear, 0),
        Some(Fault::Behind(i)) => here(Kind::Behind, i),
        Some(Fault::Open(i)) => open_finding(s, i),
        Some(Fault::Wrong(i)) => here(Kind::Mistake, i),
    }
}

// What is wrong with the joined text of so many lines, told where it stands in the sheet.
fn joined_finding(text: &[u8], at: usize, lines: usize, joined: &[u8]) -> Finding
    ensures { result ≡ joined_finding text.now at lines joined.now }
{
    let f = chain_finding(joined, 0);
    let s = run_stops::source_place(text, at, lines, f.place);
    let kind = f.kind;
    Finding {
        kind,
        row: s.row,
        place: s.place,
        number: 0,
    }
}

// Whether a line too far left is all that is wrong with a run.
fn left_kind(answer: Result<RunReply, Refusal>) -> Kind
    ensures { result ≡ left_kind answer }
{
    match answer {
        Ok(RunReply::No(_)) => Kind::Left,
        Ok(RunReply::Lines(_)) => Kind::Shallow,
        Ok(RunReply::NoEnd) => Kind::Left,
        Err(_) => Kind::Left,
    }
}

// Why a run ends before it is closed; its first brace stands at `from`.
fn stop_finding(s: Stop, from: usize, left: Kind) -> Finding
    ensures { result ≡ stop_finding s from left }
{
    let why = s.why;
    match why {
        Why::End => here(Kind::Unclosed, from),
        Why::Blank => Finding {
            kind: Kind::Blank,
            row: s.row,
            place: s.place,
            number: 0,
        },
        Why::Quoted => Finding {
            kind: Kind::Quoted,
            row: s.row,
            place: s.place,
            number: 0,
        },
        Why::Left => Finding {
            kind: left,
            row: s.row,
            place: s.place,
            number: s.brace,
        },
        Why::Entries => Finding {
            kind: Kind::Entries,
            row: s.row,
            place: s.place,
            number: 0,
        },
    }
}

// What is wrong with a line that doesn't end in a close, by the run from it on.
fn run_finding(text: &[u8], at: usize, from: usize, join: &mut [u8]) -> Finding
    ensures value { result ≡ run_finding text.now (length join.old) at from }
    ensures join_after { join.new ≡ run_holds text.now (length join.old) at join.old }
{
    let j = run_lines::join_run(text, at, 0, join);
    let stop = j.stop;
    match stop {
        Ok(()) => joined_finding(text, at, j.lines, &join[..j.len]),
        Err(_) => {
            let s = run_stops::run_stop(text, at, j.lines);
            let r = run_refused::refused_run_at(text, at, join);
            let answer = r.answer;
            stop_finding(s, from, left_kind(answer))
        }
    }
}

// What is wrong with a line that opens with a brace and is no block.
fn fault_finding(text: &[u8], at: usize, f: Front, join: &mut [u8]) -> Finding
    requires { (f ≡ front_of text.now at) × (at < length text.now) }
    ensures value { result ≡ fault_finding text.now (length join.old) at }
    ensures join_after { join.new ≡ fault_holds text.now (length join.old) at join.old }
{
    if f.closes {
        return chain_finding(&text[..f.to], f.from);
    }
    run_finding(text, at, f.from, join)
}

// What is wrong with a line that doesn't open with a brace: at its trimmed front a byte order mark stands before one.
fn mark_finding(text: &[u8], at: usize) -> Finding
    requires { (length text.now ≤ max_text) × (at ≤ length text.now) }
    ensures { result ≡ mark_finding text.now at }
{
    let mark = [239, 187, 191];
    if !base_lists::same_bytes(set_table::bytes_of(text, at, at + 3), &mark) {
        return here(Kind::Clear, 0);
    }
    let f = block_trimmed_line::trimmed_line(text, at + 3);
    if f.opens {
        return here(Kind::Marked, at);
    }
    here(Kind::Clear, 0)
}

// What the report says of a block whose brace stands at the place.
fn limit_finding(verdict: Result<(), Refusal>, place: usize) -> Finding
    ensures { result ≡ limit_finding verdict place }
{
    match verdict {
        Ok(()) => here(Kind::Clear, 0),
        Err(why) => Finding {
            kind: Kind::Limit,
            row: 0,
            place,
            number: base_refusals::number(why) as usize,
        },
    }
}

// A line that is no block, with what is wrong with it.
fn one_line(finding: Finding, next: usize) -> Step
    ensures { result ≡ record { finding = finding; lines = 1; next = next } }
{
    Step {
        finding,
        lines: 1,
        next,
    }
}

// What is wrong with the line that begins at the place, which belongs to no block before it.
fn step_at(text: &[u8], at: usize, join: &mut [u8]) -> Step
    requires { (length text.now ≤ max_text) × (at < length text.now) }
    ensures value { result ≡ step_of text.now (length join.old) at }
    ensures join_after { join.new ≡ step_holds text.now (length join.old) at join.old }
{
    let f = block_trimmed_line::trimmed_line(text, at);
    if !f.opens {
        return one_line(mark_finding(text, f.from), f.next);
    }
    let block = read_blocks::read_at(text, at, join);
    if block.lines == 0 {
        return one_line(fault_finding(text, at, f, join), f.next);
    }
    if block_trimmed_line::is_indented(text, at) {
        return one_line(
            Finding {
                kind: Kind::Indented,
                row: 0,
                place: at,
                number: f.from - at,
            },
            f.next,
        );
    }
    Step {
        finding: limit_finding(sheet_verdicts::verdict_of(text, join, block), f.from),
        lines: block.lines,
        next: block.next,
    }
}

// Nothing is told but that.
fn at_once(told: Result<Option<Finding>, Refusal>, at: usize) -> Next
    ensures { result ≡ record { told = told; skipped = 0; at = at; lines = 0; next = at } }
{
    Next {
        told,
        skipped: 0,
        at,
        lines: 0,
        next: at,
    }
}

// Whether nothing is wrong.
fn is_clear(kind: Kind) -> bool
    ensures { result ≡ is_clear kind }
{
    kind_number(kind) == 0
}

// The first finding from the line on that begins at `at`. The caller has checked the text.
pub fn next_finding(text: &[u8], at: usize, join: &mut [u8]) -> Next
    ensures value { result ≡ next_finding text.now (length join.old) at }
    ensures join_after { join.new ≡ next_holds text.now (length join.old) at join.old }
    ensures told_value { found_paper result.told ≡ on_paper (next_order text.now (length join.old)) (found_paper (next_finding text.now (length join.old) at).told).values }
{
    if base_refusals::MAX_TEXT < text.len() {
        return at_once(Err(Refusal::TextTooLong), at);
    }
    if join.len() < base_refusals::MAX_TEXT {
        return at_once(Err(Refusal::JoinFull), at);
    }
    let mut skipped = 0;
    let mut from = at;
    'lines: loop {
        if text.len() <= from {
            return at_once(Ok(None), at);
        }
        let step = step_at(text, from, join);
        let finding = step.finding;
        let kind = finding.kind;
        if is_clear(kind) {
            skipped += step.lines;
            from = step.next;
            continue 'lines;
        }
        return Next {
            told: Ok(Some(finding)),
            skipped,
            at: from,
            lines: step.lines,
            next: step.next,
        };
    }
}
