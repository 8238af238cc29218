// The scanners of wrapped runs: the quote left open, the column of the last open brace, whether a block is still open.
#![tactic(auto)]

ghost use Rattle.std.specs.Prelude.{◌≡◌, not, ◌&&◌, ◌||◌};
ghost use Rattle.base_lists.specs.Lists.{all, is_in};
ghost use Rattle.text_tabs.specs.Columns.{capped};
ghost use Rattle.block_grammar.specs.Close.{turned};
ghost use Rattle.run_scanners.specs.Scanners.{in_quote, takes, passed, is_bare, open_quote_at_end, column_behind, seek_step, last_open_brace, capped_at, held_step, hold_from, hold_start, is_held, holds_open, quote_paper, scan_paper, column_paper, hold_paper};
ghost use Rattle.run_scanners.specs.Inner.{capped_seek, LastBrace};
ghost use Rattle.base_bytes.specs.Bytes.{is_quote, close_brace};

use block_grammar::Scan;

// Where the search for the last open brace stands: the column of the next byte, and the brace found so far.
#[derive(Clone, Copy)]
pub struct Seek {
    pub scan: Scan,
    pub column: usize,
    pub found: Option<usize>,
}

// Whether a block is open, and where its scanner stands.
#[derive(Clone, Copy)]
pub struct Held {
    pub scan: Scan,
    pub inside: bool,
}

// What a byte that no backslash covers does to a quote.
fn turn(q: Option<u8>, b: u8) -> Option<u8>
    ensures { result ≡ turned q b }
{
    match q {
        None => {
            if base_bytes::is_quote(b) {
                return Some(b);
            }
            None
        }
        Some(k) => {
            if b == k {
                return None;
            }
            Some(k)
        }
    }
}

// Whether b is a backslash that covers the next byte: in quotes and, if `outside` says so, anywhere.
fn covers(outside: bool, q: Option<u8>, b: u8) -> bool
    ensures { result ≡ takes outside q b }
{
    match q {
        None => {
            if outside {
                return b == b'\\';
            }
            false
        }
        Some(_) => b == b'\\',
    }
}

// A byte of a scan in which a backslash covers the next one in quotes and, if `outside` says so, anywhere.
pub fn pass(outside: bool, st: Scan, b: u8) -> Scan
    ensures value { result ≡ passed outside st b }
    ensures result_value { scan_paper result ≡ scan_paper (passed outside st b) }
{
    let q = st.quote;
    if st.escaped {
        return Scan {
            quote: q,
            escaped: false,
        };
    }
    if covers(outside, q, b) {
        return Scan {
            quote: q,
            escaped: true,
        };
    }
    Scan {
        quote: turn(q, b),
        escaped: false,
    }
}

// Whether the byte is c, and no quote and no backslash covers it.
pub fn is_bare(st: Scan, b: u8, c: u8) -> bool
    ensures { result ≡ is_bare st b c }
{
    let q = st.quote;
    if st.escaped {
        return false;
    }
    match q {
        None => b == c,
        Some(_) => false,
    }
}

// Whether a quote was met before, or this byte is one.
fn or_quote(met: bool, b: u8) -> bool
    ensures { result ≡ (met || is_quote b) }
{
    if met {
        return met;
    }
    base_bytes::is_quote(b)
}

// Whether no quote stands in s: a loop without a way out, so that many bytes are told at once.
fn lacks_quotes(s: &[u8]) -> bool
    ensures { result ≡ all (λ b. not (is_quote b)) s.now }
{
    let mut met = false;
    for b in s {
        met = or_quote(met, *b);
    }
    !met
}

// The quote that is left open at the end, byte by byte.
fn scan_quotes(s: &[u8]) -> Option<u8>
    ensures { result ≡ open_quote_at_end s.now }
{
    let mut st = Scan {
        quote: None,
        escaped: false,
    };
    for b in s {
        st = pass(true, st, *b);
    }
    st.quote
}

// The quote that is left open at the end; where there is no quote, none is.
pub fn open_quote_at_end(s: &[u8]) -> Option<u8>
    ensures value { result ≡ open_quote_at_end s.now }
    ensures result_value { quote_paper result ≡ quote_paper (open_quote_at_end s.now) }
{
    if lacks_quotes(s) {
        return None;
    }
    scan_quotes(s)
}

// The column behind the byte b at column c, where a backslash may cover it.
pub fn column_behind(escaped: bool, c: usize, b: u8) -> usize
    ensures { result ≡ capped (column_behind escaped c b) }
{
    if !escaped {
        return text_tabs::column_after(c, b);
    }
    if b == b'\t' {
        return text_tabs::column_after(c, b' ');
    }
    text_tabs::column_after(c, b)
}

// A byte of the search for the last open brace.
fn seek_step(k: Seek, b: u8) -> Seek
    requires { capped_seek k ≡ k }
    ensures { result ≡ capped_seek (seek_step k b) }
{
    let st = k.scan;
    let found = k.found;
    let column = column_behind(st.escaped, k.column, b);
    let scan = pass(false, st, b);
    if is_bare(st, b, b'{') {
        return Seek {
            scan,
            column,
            found: Some(k.column),
        };
    }
    Seek {
        scan,
        column,
        found,
    }
}

// The column of the last `{` outside quotes, byte by byte.
fn seek_brace(line: &[u8], quote: Option<u8>, start: usize) -> Option<usize>
    ensures { result ≡ capped_at (last_open_brace quote start line.now) }
{
    let mut k = Seek {
        scan: Scan {
            quote,
            escaped: false,
        },
        column: start,
        found: None,
    };
    for b in line {
        k = seek_step(k, *b);
    }
    k.found
}

// The place behind the last `{`, 0 where there is none.
fn behind_brace(s: &[u8]) -> usize
    ensures { LastBrace s.now result }
{
    s.iter()
        .rposition(|b| *b == b'{')
        .map_or(0, |brace| brace + 1)
}

// Whether a scan that begins in the quote `quote` is outside quotes behind every byte of `front`, since no quote is there.
fn stays_out(quote: Option<u8>, front: &[u8]) -> bool
    ensures { result ≡ (not (in_quote quote) && all (λ b. not (is_quote b)) front.now) }
{
    match quote {
        None => lacks_quotes(front),
        Some(_open) => false,
    }
}

// The column of the last `{` outside quotes, where the line's first byte stands in column `start` and in the quote `quote`. Only bytes before the last `{`
// matter, and where no quote is among them it is the one.
pub fn last_open_brace_column(line: &[u8], quote: Option<u8>, start: usize) -> Option<usize>
    ensures value { result ≡ capped_at (last_open_brace quote start line.now) }
    ensures result_value { column_paper result ≡ column_paper (capped_at (last_open_brace quote start line.now)) }
{
    let e = behind_brace(line);
    if e == 0 {
        return None;
    }
    let front = &line[..e - 1];
    if stays_out(quote, front) {
        return Some(text_tabs::columns(start, front));
    }
    seek_brace(line, quote, start)
}

// A byte of the scan for an open block.
fn held_step(h: Held, b: u8) -> Option<Held>
    ensures { result ≡ held_step h b }
{
    let st = h.scan;
    let inside = h.inside;
    if is_bare(st, b, b'{') {
        if inside {
            return None;
        }
        return Some(Held {
            scan: st,
            inside: true,
        });
    }
    if is_bare(st, b, b'}') {
        if inside {
            return Some(Held {
                scan: st,
                inside: false,
            });
        }
        return None;
    }
    Some(Held {
        scan: pass(false, st, b),
        inside,
    })
}

// The scan goes on over s.
pub fn hold_on(s: &[u8], from: Option<Held>) -> Option<Held>
    ensures value { result ≡ hold_from from s.now }
    ensures result_value { hold_paper result ≡ hold_paper (hold_from from s.now) }
{
    let Some(first) = from else {
        return None;
    };
    let mut h = first;
    for b in s {
        match held_step(h, *b) {
            None => return None,
            Some(v) => h = v,
        }
    }
    Some(h)
}

// Nothing was read yet.
pub fn hold_start() -> Option<Held>
    ensures value { result ≡ hold_start }
    ensures result_value { hold_paper result ≡ hold_paper hold_start }
{
    Some(Held {
        scan: Scan {
            quote: None,
            escaped: false,
        },
        inside: false,
    })
}

// Whether a block is open where the scan stands.
pub fn is_held(h: Option<Held>) -> bool
    ensures { result ≡ is_held h }
{
    match h {
        None => false,
        Some(v) => v.inside,
    }
}

// Whether the run's last block is still open.
pub fn holds_open_attr_block(run: &[u8]) -> bool
    ensures { result ≡ holds_open run.now }
{
    is_held(hold_on(run, hold_start()))
}

// Whether a `}` stands anywhere in s.
pub fn contains_close(s: &[u8]) -> bool
    ensures { result ≡ is_in s.now close_brace }
{
    s.contains(&b'}')
}
