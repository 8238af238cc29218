// Why the lines of a wrapped run end where they do, and where a place of the joined text stands in the sheet.
#![tactic(auto)]

ghost use Rattle.std.specs.Prelude.{◌≡◌, cond, ◌&&◌, ◌+◌, ◌-◌, ◌<◌, ◌≤◌, eqb, length, get_or, take};
ghost use Rattle.base_bytes.specs.declared.Mode.TheVariants.{Loose};
ghost use Rattle.base_bytes.specs.Bytes.{close_brace, open_brace};
ghost use Rattle.text_lines.specs.Lines.{line_at};
ghost use Rattle.text_lines.specs.Trim.{trim};
ghost use Rattle.block_grammar.specs.Close.{close_paper};
ghost use Rattle.block_tokens.specs.Shown.{payload_tested};
ghost use Rattle.run_scanners.specs.Scanners.{open_quote_at_end};
ghost use Rattle.run_stops.specs.Stops.{quote_left, kept_at, brace_or, edge_after, edge_of, why_of, quote_place, stops_at, last_from, closes_at, entries_in, entries_place, stop_at, stop_paper, source_of};

use base_bytes::Mode;
use block_grammar::Scan;

// What the lines joined so far leave: where the next begins and where the last of them begins, the column of the last brace that opened, and the quote left open.
#[derive(Clone, Copy)]
pub struct Edge {
    pub at: usize,
    pub last: usize,
    pub brace: usize,
    pub quote: Option<u8>,
}

// Why a run isn't joined further: a quote is left open in the line before; else no line is left; the next is blank; it isn't indented far enough; or it isn't whole entries.
#[derive(Clone, Copy)]
pub enum Why {
    End,
    Blank,
    Quoted,
    Left,
    Entries,
}

// Why, how many lines below the first, at which place, and the column beyond which a line has to be indented.
#[derive(Clone, Copy)]
pub struct Stop {
    pub why: Why,
    pub row: usize,
    pub place: usize,
    pub brace: usize,
}

// Where a place of the joined text stands: how many lines below the first, and at which place of the text.
#[derive(Clone, Copy)]
pub struct Source {
    pub row: usize,
    pub place: usize,
}

// The place of the quote that is open; outside quotes it is the present one.
fn kept(q: Option<u8>, at: usize, i: usize) -> usize
    ensures { result ≡ kept_at q at i }
{
    match q {
        None => i,
        Some(_) => at,
    }
}

// The place of the quote that is left open at the end, from `from` on.
pub fn quote_left(s: &[u8], from: usize) -> Option<usize>
    ensures value { result ≡ quote_left s.now from }
    ensures result_value { close_paper result ≡ close_paper (quote_left s.now from) }
{
    let mut st = Scan {
        quote: None,
        escaped: false,
    };
    let mut at = from;
    for i in from..s.len() {
        let q = st.quote;
        at = kept(q, at, i);
        st = run_scanners::pass(true, st, s[i]);
    }
    let q = st.quote;
    match q {
        None => None,
        Some(_) => Some(at),
    }
}

// The column of the last brace that opened, where the one found in a line counts.
fn brace_or(brace: usize, found: Option<usize>) -> usize
    ensures { result ≡ brace_or brace found }
{
    match found {
        None => brace,
        Some(c) => c,
    }
}

// The line that begins at the place; no bytes where the text has none there.
fn line_at(text: &[u8], at: usize) -> &[u8]
    ensures { result.now ≡ line_at text.now at }
{
    if text.len() <= at {
        return &text[..0];
    }
    let l = text_lines::line_from(text, at);
    let to = l.to;
    &text[at..to]
}

// The quote that a line leaves open.
fn quote_behind(line: &[u8]) -> Option<u8>
    ensures { result ≡ open_quote_at_end (trim line.now) }
{
    let r = text_lines::trim_ascii(line);
    let from = r.from;
    let to = r.to;
    run_scanners::open_quote_at_end(&line[from..to])
}

// One line more.
fn edge_after(text: &[u8], e: Edge) -> Edge
    ensures { result ≡ edge_after text.now e }
{
    let l = text_lines::line_from(text, e.at);
    let line = line_at(text, e.at);
    let quote = quote_behind(line);
    let brace = brace_or(e.brace, run_scanners::last_open_brace_column(line, None, 0));
    Edge {
        at: l.next,
        last: e.at,
        brace,
        quote,
    }
}

// What so many lines leave, from the one on that begins at the place.
fn edge_of(text: &[u8], at: usize, lines: usize) -> Edge
    ensures { result ≡ edge_of text.now at lines }
{
    let mut e = Edge {
        at,
        last: at,
        brace: 0,
        quote: None,
    };
    for _ in 0..lines {
        e = edge_after(text, e);
    }
    e
}

// Why the line behind these isn't joined.
fn why_of(text: &[u8], e: Edge) -> Why
    ensures { result ≡ why_of text.now e }
{
    let q = e.quote;
    match q {
        Some(_) => Why::Quoted,
        None => {
            if text.len() <= e.at {
                return Why::End;
            }
            let line = line_at(text, e.at);
            if text_lines::is_blank_line(line) {
                return Why::Blank;
            }
            if text_tabs::indent_columns(line) <= e.brace {
                return Why::Left;
            }
            Why::Entries
        }
    }
}

// The front of the text up to `to`; the whole of it where it is shorter.
fn front(text: &[u8], to: usize) -> &[u8]
    ensures { result.now ≡ take to text.now }
{
    if to <= text.len() {
        return &text[..to];
    }
    text
}

// Where the quote stands that a line leaves open; where it leaves none, the line's front.
fn quote_place(text: &[u8], at: usize) -> usize
    ensures { result ≡ quote_place text.now at }
{
    let l = text_lines::line_from(text, at);
    match quote_left(front(text, l.to), at) {
        None => at,
        Some(p) => p,
    }
}

// Behind `}{` at i, or as before.
fn behind(s: &[u8], i: usize, best: usize) -> usize
    requires { i + 1 < length s.now }
    ensures { result ≡ cond (eqb (get_or s.now i 0) close_brace && eqb (get_or s.now (i + 1) 0) open_brace) (i + 2) best }
{
    if s[i] == b'}' && s[i + 1] == b'{' {
        i + 2
    } else {
        best
    }
}

// Where what stands behind the last `}{` begins; 0 where there is none.
fn behind_last(s: &[u8]) -> usize
    ensures { result ≡ last_from s.now }
{
    let mut best = 0;
    for i in 1..s.len() {
        best = behind(s, i - 1, best);
    }
    best
}

// How many bytes are entries, of such as aren't whole entries.
fn stops_at(s: &[u8]) -> usize
    ensures { result ≡ stops_at (payload_tested Loose s.now) }
{
    match block_tokens::payload_test(s, Mode::Loose) {
        Ok(()) => 0,
        Err(n) => n,
    }
}

// Whether a `}` at n ends whole entries that begin at `from`, or at the front those of the lines above.
fn closes_at(core: &[u8], from: usize, n: usize) -> bool
    requires { from ≤ n }
    ensures { result ≡ closes_at core.now from n }
{
    if core.len() <= n {
        return false;
    }
    if core[n] != b'}' {
        return false;
    }
    if n == 0 {
        return true;
    }
    text_names::is_whole(block_tokens::payload_test(&core[from..n], Mode::Loose))
}

// How many bytes of a trimmed line are what may stand there.
fn entries_in(core: &[u8]) -> usize
    ensures { result ≡ entries_in core.now }
{
    let from = behind_last(core);
    let n = from + stops_at(&core[from..]);
    if closes_at(core, from, n) {
        return n + 1;
    }
    n
}

// Where a line stops being entries.
fn entries_place(text: &[u8], at: usize) -> usize
    ensures { result ≡ entries_place text.now at }
{
    let line = line_at(text, at);
    let r = text_lines::trim_ascii(line);
    let from = r.from;
    let to = r.to;
    at + from + entries_in(&line[from..to])
}

// The number before n; 0 has none.
fn before(n: usize) -> usize
    ensures { result ≡ n - 1 }
{
    if n == 0 {
        return 0;
    }
    n - 1
}

// Why the line behind so many lines isn't joined to them.
pub fn run_stop(text: &[u8], at: usize, lines: usize) -> Stop
    ensures value { result ≡ stop_at text.now at lines }
    ensures result_value { stop_paper result ≡ stop_paper (stop_at text.now at lines) }
{
    let e = edge_of(text, at, lines);
    match why_of(text, e) {
        Why::End => Stop {
            why: Why::End,
            row: 0,
            place: at,
            brace: 0,
        },
        Why::Blank => Stop {
            why: Why::Blank,
            row: lines,
            place: e.at,
            brace: 0,
        },
        Why::Quoted => Stop {
            why: Why::Quoted,
            row: before(lines),
            place: quote_place(text, e.last),
            brace: 0,
        },
        Why::Left => Stop {
            why: Why::Left,
            row: lines,
            place: e.at,
            brace: e.brace,
        },
        Why::Entries => Stop {
            why: Why::Entries,
            row: lines,
            place: entries_place(text, e.at),
            brace: 0,
        },
    }
}

// Where the byte at k of what so many lines join stands in the text.
pub fn source_place(text: &[u8], at: usize, lines: usize, k: usize) -> Source
    ensures { result ≡ source_of text.now at lines k }
{
    let mut from = at;
    let mut rest = k;
    for row in 0..lines {
        let f = block_trimmed_line::trimmed_line(text, from);
        let size = f.to - f.from;
        if rest <= size {
            return Source {
                row,
                place: f.from + rest,
            };
        }
        rest = rest - size - 1;
        from = f.next;
    }
    Source {
        row: lines,
        place: from,
    }
}
