// Trimming, blank lines, and the lines of a text.
#![tactic(auto)]

ghost use Rattle.std.specs.Prelude.{◌≡◌, ◌||◌, ◌+◌, ◌≤◌, eqb, ltb, length, drop};
ghost use Rattle.base_lists.specs.Lists.{run};
ghost use Rattle.base_bytes.specs.Bytes.{is_space, lf};
ghost use Rattle.text_lines.specs.Trim.{trim_end, trim_range, is_blank_line};
ghost use Rattle.text_lines.specs.Lines.{eol, line_from, line_of, line_paper, numbered_line};

// The bytes from `from` up to `to` of a text.
#[derive(Clone, Copy)]
pub struct Range {
    pub from: usize,
    pub to: usize,
}

// Where a line's bytes end, and where the next line begins.
#[derive(Clone, Copy)]
pub struct LineEnd {
    pub to: usize,
    pub next: usize,
}

// How many whitespace bytes stand at the front.
pub fn trim_ascii_start(s: &[u8]) -> usize
    ensures { result ≡ run is_space s.now }
{
    s.iter().take_while(|b| base_bytes::is_space(**b)).count()
}

// How many bytes are left without the whitespace at the end.
pub fn trim_ascii_end(s: &[u8]) -> usize
    ensures { result ≡ length (trim_end s.now) }
{
    let spaces = s
        .iter()
        .rev()
        .take_while(|last| base_bytes::is_space(**last))
        .count();
    s.len() - spaces
}

// Where what remains without the whitespace at both ends stands.
pub fn trim_ascii(s: &[u8]) -> Range
    ensures { result ≡ trim_range s.now }
{
    let from = trim_ascii_start(s);
    let left = trim_ascii_end(&s[from..]);
    Range {
        from,
        to: from + left,
    }
}

// Whether nothing but whitespace is there.
pub fn is_blank_line(s: &[u8]) -> bool
    ensures { result ≡ is_blank_line s.now }
{
    let from = trim_ascii_start(s);
    from == s.len()
}

// Whether an LF was found before, or this byte is one.
fn or_lf(found: bool, b: u8) -> bool
    ensures { result ≡ (found || eqb b lf) }
{
    if found {
        return true;
    }
    b == b'\n'
}

// Whether an LF stands among the 16 bytes from i on: a loop without a way out, which the compiler makes one comparison of.
fn has_lf(text: &[u8], i: usize) -> bool
    requires { i + 16 ≤ length text.now }
    ensures { result ≡ ltb (i + eol (drop i text.now)) (i + 16) }
{
    let mut found = false;
    for b in &text[i..i + 16] {
        found = or_lf(found, *b);
    }
    found
}

// Past strides of 16 bytes from `at` on, until an LF stands among the next, or fewer are left: the line ends where it did.
fn past_strides(text: &[u8], at: usize) -> usize
    ensures { result + eol (drop result text.now) ≡ at + eol (drop at text.now) }
{
    if text.len() < 16 {
        return at;
    }
    let last = text.len() - 16;
    let mut i = at;
    // A while: a step is 16 bytes, and where the steps stop is the answer, which no range gives.
    while i <= last {
        if has_lf(text, i) {
            return i;
        }
        i += 16;
    }
    i
}

// The place of the LF behind the line that begins at `at`, or the text's end.
fn line_feed(text: &[u8], at: usize) -> usize
    ensures { result ≡ at + eol (drop at text.now) }
{
    let from = past_strides(text, at);
    for i in from..text.len() {
        if text[i] == b'\n' {
            return i;
        }
    }
    from.max(text.len())
}

// Where the line that begins at `at` ends, and where the next one begins; both are `at` where the text has no byte there.
pub fn line_from(text: &[u8], at: usize) -> LineEnd
    ensures { result ≡ line_from text.now at }
{
    let end = line_feed(text, at);
    if text.len() <= end {
        return LineEnd { to: end, next: end };
    }
    let next = end + 1;
    if at == end {
        return LineEnd { to: end, next };
    }
    if text[end - 1] == b'\r' {
        return LineEnd { to: end - 1, next };
    }
    LineEnd { to: end, next }
}

// The line of a number, counted from 1.
pub fn line_of(text: &[u8], number: usize) -> Option<Range>
    ensures value { result ≡ line_of number text.now }
    ensures result_value { line_paper result ≡ numbered_line number text.now }
{
    if number == 0 {
        return None;
    }
    let mut at = 0;
    let mut left = number;
    // A while: a step is a whole line, as long as that line is.
    while at < text.len() {
        let l = line_from(text, at);
        if left == 1 {
            return Some(Range { from: at, to: l.to });
        }
        left -= 1;
        at = l.next;
    }
    None
}
