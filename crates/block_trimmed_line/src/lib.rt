// The line that begins at a place, trimmed.
#![tactic(auto)]

ghost use Rattle.std.specs.Prelude.{◌≡◌};
ghost use Rattle.text_lines.specs.Lines.{line_at};
ghost use Rattle.block_payloads.specs.Payloads.{begins_open, ends_in_close};
ghost use Rattle.block_trimmed_line.specs.Fronts.{front_of, begins_indented};

// A line without the whitespace at its ends, where the next one begins, and which braces stand at its ends.
#[derive(Clone, Copy)]
pub struct Front {
    pub from: usize,
    pub to: usize,
    pub next: usize,
    pub opens: bool,
    pub closes: bool,
}

// Whether a trimmed line opens with a brace.
fn begins_open(line: &[u8]) -> bool
    ensures { result ≡ begins_open line.now }
{
    if line.len() == 0 {
        return false;
    }
    line[0] == b'{'
}

// Whether a trimmed line ends in a close.
fn ends_in_close(line: &[u8]) -> bool
    ensures { result ≡ ends_in_close line.now }
{
    let n = line.len();
    if n == 0 {
        return false;
    }
    line[n - 1] == b'}'
}

// The line that begins at the place, trimmed.
pub fn trimmed_line(text: &[u8], at: usize) -> Front
    ensures { result ≡ front_of text.now at }
{
    let l = text_lines::line_from(text, at);
    if text.len() <= at {
        return Front {
            from: at,
            to: at,
            next: l.next,
            opens: false,
            closes: false,
        };
    }
    let end = l.to;
    let r = text_lines::trim_ascii(&text[at..end]);
    let from = at + r.from;
    let to = at + r.to;
    let line = &text[from..to];
    let opens = begins_open(line);
    let closes = ends_in_close(line);
    Front {
        from,
        to,
        next: l.next,
        opens,
        closes,
    }
}

// Whether the line that begins at the place begins with a space or a tab.
pub fn is_indented(text: &[u8], at: usize) -> bool
    ensures { result ≡ begins_indented (line_at text.now at) }
{
    if text.len() <= at {
        return false;
    }
    base_bytes::is_indent(text[at])
}
