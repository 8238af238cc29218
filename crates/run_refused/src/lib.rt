// Brace runs and comment runs that are refused only for a line too far left.
#![tactic(auto)]

ghost use Rattle.std.specs.Prelude.{◌≡◌, true, false, ◌&&◌, ◌+◌, ◌-◌, ◌*◌, ◌<◌, ◌≤◌, max, eqb, length, drop, Err, None, Ok};
ghost use Rattle.base_lists.specs.Lists.{over};
ghost use Rattle.base_refusals.specs.Numbers.{max_text};
ghost use Rattle.base_refusals.specs.Orders.{on_paper};
ghost use Rattle.text_lines.specs.Lines.{lines};
ghost use Rattle.block_chain.specs.Chain.{good_line};
ghost use Rattle.run_scanners.specs.Scanners.{hold_start};
ghost use Rattle.run_spots.specs.Spots.{spot_after};
ghost use Rattle.run_refused.specs.Refused.{reply_paper, halts, pad_of, entered_at, comment_by, comment_from, run_answer, unjoined, judged, refused_of, refused_at, refused_run, handed_out, place_order, refused_order};
ghost use Rattle.run_refused.specs.declared.RefusedWalk.TheVariants.{No};
ghost use Rattle.run_refused.specs.Inner.{spots_from, walk_at, shown_walk, is_stretch, padded_run, ran_of, far_column, max_column};

use base_refusals::Refusal;
use block_grammar::Scan;
use run_joins::{Effect, State};
use run_spots::Spot;

// What is said of a run: it is refused and takes so many lines; it isn't, and a comment run was looked at over so many lines, or to the
// end; or a refusal.
#[derive(Clone, Copy)]
pub enum RunReply {
    No(usize),
    Lines(usize),
    NoEnd,
}

// The answer, with the lookahead and how many bytes are joined.
#[derive(Clone, Copy)]
pub struct RefusedRun {
    pub answer: Result<RunReply, Refusal>,
    pub lookahead: usize,
    pub joined: usize,
}

// What the first walk finds: no block, or one of so many lines, and whether one of them stands too far left.
#[derive(Clone, Copy)]
enum RefusedWalk {
    No(usize),
    Block(usize, bool),
}

// How the run over padded lines ends, and what it joined.
#[derive(Clone, Copy)]
struct Ran {
    stop: Result<(), Refusal>,
    len: usize,
    lines: usize,
    lookahead: usize,
}

// The walk passes a byte.
fn spot_after(p: Spot, b: u8) -> Spot
    requires { p.column < far_column }
    ensures { result ≡ spot_after p b }
{
    let st = p.scan;
    Spot {
        scan: run_scanners::pass(false, st, b),
        column: run_scanners::column_behind(st.escaped, p.column, b),
        inside: run_spots::inside_after(p, b),
        brace: run_spots::brace_after(p, b),
    }
}

// The walk passes a line without a stray close.
fn pass_over(s: &[u8], p: Spot) -> Spot
    requires { p.column + 4 * length s.now < far_column }
    ensures { result ≡ spots_from p s.now }
{
    let mut spot = p;
    for b in s {
        spot = spot_after(spot, *b);
    }
    spot
}

// Whether the run is at its end before the line.
fn halts_at(n: usize, brace: usize, opener: usize, line: &[u8]) -> bool
    requires { brace < far_column }
    ensures { result ≡ halts (eqb n 0) brace opener line.now }
{
    if text_lines::is_blank_line(line) {
        return true;
    }
    if n == 0 {
        return false;
    }
    if brace + 1 < opener {
        return true;
    }
    run_spots::opens_brace(line)
}

// The larger of two numbers.
fn larger(a: usize, b: usize) -> usize
    ensures { result ≡ max a b }
{
    if a < b { b } else { a }
}

// By how much a is the larger one, or 0.
fn beyond(a: usize, b: usize) -> usize
    ensures { result ≡ a - b }
{
    if a < b {
        return 0;
    }
    a - b
}

// How many columns are put before the line.
fn pad_of(n: usize, column: usize, brace: usize, opener: usize) -> usize
    requires { brace < far_column }
    ensures { result ≡ pad_of (eqb n 0) column brace opener }
{
    if n == 0 {
        return 0;
    }
    let least = larger(beyond(brace + 1, opener), 1);
    larger(beyond(column, opener), least)
}

// Where the walk enters the line.
fn spot_at(n: usize, brace: usize, line: &[u8]) -> Spot
    requires { length line.now ≤ max_text }
    ensures { result ≡ entered_at (eqb n 0) brace line.now }
{
    Spot {
        scan: Scan {
            quote: None,
            escaped: false,
        },
        column: text_tabs::indent_columns(line),
        inside: n != 0,
        brace,
    }
}

// No block closes.
fn no_block() -> RefusedWalk
    ensures { result ≡ No 0 }
{
    RefusedWalk::No(0)
}

// The first walk: up to the line behind which no block is open. A stray close leaves both loops at once.
fn walk_run(text: &[u8], start: usize, opener: usize) -> RefusedWalk
    requires { (length text.now ≤ max_text) × (opener ≤ max_column) }
    ensures { result ≡ shown_walk (walk_at opener text.now start) }
{
    let mut n = 0;
    let mut at = start;
    let mut brace = opener;
    let mut shallow = false;
    // A loop: a step is a whole line, as long as that line is.
    'lines: loop {
        if text.len() <= at {
            break 'lines no_block();
        }
        let l = text_lines::line_from(text, at);
        let to = l.to;
        if halts_at(n, brace, opener, &text[at..to]) {
            break 'lines no_block();
        }
        let mut spot = spot_at(n, brace, &text[at..to]);
        shallow = run_spots::shallow_or(shallow, n, spot.column, brace);
        let from = at + text_lines::trim_ascii_start(&text[at..to]);
        for i in from..to {
            if run_spots::is_stray(spot, text[i]) {
                break 'lines RefusedWalk::No(0);
            }
            spot = spot_after(spot, text[i]);
        }
        n += 1;
        if !spot.inside {
            break 'lines RefusedWalk::Block(n, shallow);
        }
        brace = spot.brace;
        at = l.next;
    }
}

// What is said of a comment that closes in line n.
fn comment_answer(shallow: bool, n: usize) -> Result<RunReply, Refusal>
    ensures { result ≡ comment_by shallow n }
{
    if shallow {
        return Ok(RunReply::Lines(n));
    }
    Ok(RunReply::No(n))
}

// The walk over a comment, up to the line with its close.
fn comment_run(text: &[u8], start: usize, opener: usize) -> Result<RunReply, Refusal>
    requires { length text.now ≤ max_text }
    ensures { result ≡ comment_from opener 0 false (lines (drop start text.now)) }
{
    let mut n = 0;
    let mut at = start;
    let mut shallow = false;
    // A loop: a step is a whole line, as long as that line is.
    'lines: loop {
        if text.len() <= at {
            break 'lines Ok(RunReply::NoEnd);
        }
        let l = text_lines::line_from(text, at);
        let to = l.to;
        if text_lines::is_blank_line(&text[at..to]) {
            break 'lines Ok(RunReply::NoEnd);
        }
        let column = text_tabs::indent_columns(&text[at..to]);
        shallow = run_spots::shallow_or(shallow, n, column, opener);
        if run_spots::closes_comment(&text[at..to]) {
            break 'lines comment_answer(shallow, n + 1);
        }
        n += 1;
        at = l.next;
    }
}

// The run is closed.
fn closed_run(len: usize, lines: usize, lookahead: usize) -> Ran
    ensures { result ≡ record { stop = Ok tt; len = len; lines = lines; lookahead = lookahead } }
{
    Ran {
        stop: Ok(()),
        len,
        lines,
        lookahead,
    }
}

// The run is refused.
fn stopped(no: Refusal, len: usize, lines: usize, lookahead: usize) -> Ran
    ensures { result ≡ record { stop = Err no; len = len; lines = lines; lookahead = lookahead } }
{
    Ran {
        stop: Err(no),
        len,
        lines,
        lookahead,
    }
}

// Before the first line of a run.
fn run_start() -> State
    ensures { result ≡ record { len = 0; brace = 0; base = 0; quote = None; hold = hold_start } }
{
    State {
        len: 0,
        brace: 0,
        base: 0,
        quote: None,
        hold: run_scanners::hold_start(),
    }
}

// The run over the lines of a block, with its pads: the walk is made again, and nothing of the first is kept.
fn join_padded(text: &[u8], start: usize, opener: usize, join: &mut [u8]) -> Ran
    requires { (length text.now ≤ max_text) × ((opener ≤ max_column) × (is_stretch (walk_at opener text.now start) ≡ true)) }
    ensures value { result ≡ ran_of (padded_run (length join.old) opener text.now start) }
    ensures join_after { join.new ≡ over (padded_run (length join.old) opener text.now start).text join.old }
{
    let mut st = run_start();
    let mut n = 0;
    let mut lookahead = 0;
    let mut at = start;
    let mut brace = opener;
    // A loop: a step is a whole line, as long as that line is.
    'lines: loop {
        let l = text_lines::line_from(text, at);
        let to = l.to;
        let from = at + text_lines::trim_ascii_start(&text[at..to]);
        let spot = spot_at(n, brace, &text[at..to]);
        let pad = pad_of(n, spot.column, brace, opener);
        match run_joins::join_line(&text[from..to], pad, st, join) {
            Effect::Broken => break 'lines stopped(Refusal::NoReading, st.len, n, lookahead),
            Effect::Full => break 'lines stopped(Refusal::JoinFull, st.len, n, lookahead),
            Effect::Closes(v) => break 'lines closed_run(v.len, n + 1, lookahead + (to - at)),
            Effect::Go(v) => {
                let end = pass_over(&text[from..to], spot);
                n += 1;
                lookahead += to - at;
                if !end.inside {
                    break 'lines stopped(Refusal::NoReading, v.len, n, lookahead);
                }
                st = v;
                brace = end.brace;
                at = l.next;
                continue 'lines;
            }
        }
    }
}

// What the run over the padded lines, so many, says of it.
fn answer_of(r: Ran, count: usize, join: &[u8]) -> Result<RunReply, Refusal>
    ensures { result ≡ run_answer r.stop (eqb r.lines count && good_line join.now 0 r.len) count }
{
    let stop = r.stop;
    match stop {
        Ok(()) => {
            if r.lines != count {
                return Ok(RunReply::No(0));
            }
            if block_chain::good_line(join, 0, r.len) {
                return Ok(RunReply::Lines(count));
            }
            Ok(RunReply::No(0))
        }
        Err(x) => {
            if x == Refusal::JoinFull {
                return Err(x);
            }
            Ok(RunReply::No(0))
        }
    }
}

// Nothing is joined.
fn unjoined_run(answer: Result<RunReply, Refusal>) -> RefusedRun
    ensures { result ≡ handed_out (unjoined answer) }
{
    RefusedRun {
        answer,
        lookahead: 0,
        joined: 0,
    }
}

// The block of so many lines, one of which stands too far left.
fn refused_block(text: &[u8], at: usize, opener: usize, count: usize, join: &mut [u8]) -> RefusedRun
    requires { (length text.now ≤ max_text) × ((opener ≤ max_column) × (is_stretch (walk_at opener text.now at) ≡ true)) }
    ensures value { result ≡ handed_out (judged count (padded_run (length join.old) opener text.now at)) }
    ensures join_after { join.new ≡ over (padded_run (length join.old) opener text.now at).text join.old }
{
    let r = join_padded(text, at, opener, join);
    RefusedRun {
        answer: answer_of(r, count, join),
        lookahead: r.lookahead,
        joined: r.len,
    }
}

// The run whose first line begins at the place: over a comment if this opens one, else over blocks.
fn refused_at(text: &[u8], at: usize, join: &mut [u8]) -> RefusedRun
    requires { (length text.now ≤ max_text) × (at < length text.now) }
    ensures value { result ≡ handed_out (refused_of (length join.old) (lines (drop at text.now))) }
    ensures join_after { join.new ≡ over (refused_of (length join.old) (lines (drop at text.now))).text join.old }
{
    let l = text_lines::line_from(text, at);
    let to = l.to;
    if !run_spots::opens_brace(&text[at..to]) {
        return unjoined_run(Ok(RunReply::No(0)));
    }
    let opener = text_tabs::indent_columns(&text[at..to]);
    if run_spots::opens_comment(&text[at..to]) {
        return unjoined_run(comment_run(text, at, opener));
    }
    match walk_run(text, at, opener) {
        RefusedWalk::No(n) => unjoined_run(Ok(RunReply::No(n))),
        RefusedWalk::Block(count, shallow) => {
            if shallow {
                return refused_block(text, at, opener, count, join);
            }
            unjoined_run(Ok(RunReply::No(0)))
        }
    }
}

// The run whose first line begins at the place, for a caller that has checked the text.
pub fn refused_run_at(text: &[u8], at: usize, join: &mut [u8]) -> RefusedRun
    ensures value { result ≡ handed_out (refused_at (length join.old) text.now at) }
    ensures join_after { join.new ≡ over (refused_at (length join.old) text.now at).text join.old }
    ensures answer_value { reply_paper result.answer ≡ on_paper (place_order (length join.old) text.now at) (reply_paper (refused_at (length join.old) text.now at).answer).values }
{
    if base_refusals::MAX_TEXT < text.len() {
        return unjoined_run(Err(Refusal::TextTooLong));
    }
    if text.len() <= at {
        return unjoined_run(Ok(RunReply::No(0)));
    }
    refused_at(text, at, join)
}

// Whether the run at the line of that number, over blocks or a comment, is refused only for a line too far left.
pub fn refused_brace_run(text: &[u8], line: usize, join: &mut [u8]) -> RefusedRun
    ensures value { result ≡ handed_out (refused_run (length join.old) text.now line) }
    ensures join_after { join.new ≡ over (refused_run (length join.old) text.now line).text join.old }
    ensures answer_value { reply_paper result.answer ≡ on_paper (refused_order (length join.old) text.now line) (reply_paper (refused_run (length join.old) text.now line).answer).values }
{
    match text_checks::check_text(text) {
        Err(r) => unjoined_run(Err(r)),
        Ok(()) => match text_lines::line_of(text, line) {
            None => unjoined_run(Ok(RunReply::No(0))),
            Some(r) => refused_at(text, r.from, join),
        },
    }
}
