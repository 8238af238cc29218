// Lines of a text that were replaced: where they stood, and which lines have to be read again.
#![tactic(auto)]

ghost use Rattle.std.specs.Prelude.{◌≡◌, length, get_or, ◌-◌, ◌<◌, ◌≤◌, eqb};
ghost use Rattle.text_lines.specs.Lines.{lines};
ghost use Rattle.sheet_splits.specs.Parting.{is_whole};
ghost use Rattle.sheet_edits.specs.Edits.{span_to, span_of, keeps, is_flat, last_flat, till_flat, again_in, again_of, again_paper};
ghost use Rattle.base_bytes.specs.Bytes.{lf};

// The lines from the one that begins at `from` up to line b.
fn span_to(text: &[u8], from: usize, b: usize) -> Option<(usize, usize)>
    ensures { result ≡ span_to text.now from b }
{
    match text_lines::line_of(text, b) {
        None => None,
        Some(l) => {
            let e = text_lines::line_from(text, l.from);
            Some((from, e.next))
        }
    }
}

// Lines a to b.
fn span_of(text: &[u8], a: usize, b: usize) -> Option<(usize, usize)>
    ensures { result ≡ span_of text.now a b }
{
    if b < a {
        return None;
    }
    match text_lines::line_of(text, a) {
        None => None,
        Some(l) => {
            if a == b {
                let e = text_lines::line_from(text, l.from);
                return Some((l.from, e.next));
            }
            span_to(text, l.from, b)
        }
    }
}

// Whether the new text begins with the old bytes before a place and, without overlap, ends with those from another on.
fn keeps_rest(old: &[u8], new: &[u8], from: usize, to: usize) -> bool
    requires { to ≤ length old.now }
    ensures { result ≡ keeps old.now new.now from to }
{
    let behind = old.len() - to;
    if new.len() < behind {
        return false;
    }
    let end = new.len() - behind;
    if end < from {
        return false;
    }
    if !base_lists::same_bytes(
        set_table::bytes_of(new, 0, from),
        set_table::bytes_of(old, 0, from),
    ) {
        return false;
    }
    base_lists::same_bytes(
        set_table::bytes_of(new, end, new.len()),
        set_table::bytes_of(old, to, old.len()),
    )
}

// Whether a text is empty or ends in an LF.
fn is_whole(text: &[u8]) -> bool
    ensures { result ≡ is_whole text.now }
{
    if text.len() == 0 {
        return true;
    }
    text[text.len() - 1] == b'\n'
}

// Whether a byte is the first of a line, and indents it not.
fn is_flat(fresh: bool, b: u8) -> bool
    ensures { result ≡ is_flat fresh b }
{
    if !fresh {
        return false;
    }
    !base_bytes::is_indent(b)
}

// Whether a line that begins with neither space nor tab begins at a place behind the front.
fn begins_flat(text: &[u8], at: usize) -> bool
    requires { (0 < at) × (at < length text.now) }
    ensures { result ≡ is_flat (eqb (get_or text.now (at - 1) 0) lf) (get_or text.now at 0) }
{
    is_flat(text[at - 1] == b'\n', text[at])
}

// The place of the last line that begins with neither space nor tab, 0 where there is none: sought from the end.
fn last_flat(text: &[u8]) -> usize
    ensures { result ≡ last_flat text.now }
{
    for i in (1..text.len()).rev() {
        if begins_flat(text, i) {
            return i;
        }
    }
    0
}

// How many bytes stand before the first line that begins with neither space nor tab, all where there is none; a line begins at the front if it is fresh.
fn till_flat(text: &[u8], front: bool) -> usize
    ensures { (result ≡ till_flat front text.now) × (result ≤ length text.now) }
{
    let mut fresh = front;
    for (i, b) in text.iter().enumerate() {
        if is_flat(fresh, *b) {
            return i;
        }
        fresh = *b == b'\n';
    }
    text.len()
}

// How many lines a text has.
pub fn line_count(text: &[u8]) -> usize
    ensures { result ≡ length (lines text.now) }
{
    let mut n: usize = 0;
    let mut at = 0;
    // A while: where a line ends is known only once it is gone through, so no range or iterator gives the places.
    while at < text.len() {
        let l = text_lines::line_from(text, at);
        n += 1;
        at = l.next;
    }
    n
}

// The lines to read again, where those from one place up to another were replaced.
fn again_in(old: &[u8], new: &[u8], from: usize, to: usize) -> Option<(usize, usize, usize)>
    requires { to ≤ length old.now }
    ensures { result ≡ again_in old.now new.now from to }
{
    if !keeps_rest(old, new, from, to) {
        return None;
    }
    let end = new.len() - (old.len() - to);
    let fresh = is_whole(set_table::bytes_of(new, 0, end));
    let more = till_flat(set_table::bytes_of(old, to, old.len()), fresh);
    let first = last_flat(set_table::bytes_of(old, 0, from));
    Some((first, to + more, end + more))
}

// The lines to read again after lines a to b were replaced: from the last line before a that begins with neither space nor tab, else from the front, up to the
// first such line behind the replaced part, else to the end.
pub fn lines_again(old: &[u8], new: &[u8], a: usize, b: usize) -> Option<(usize, usize, usize)>
    ensures value { result ≡ again_of old.now new.now a b }
    ensures result_value { again_paper result ≡ again_paper (again_of old.now new.now a b) }
{
    match span_of(old, a, b) {
        None => None,
        Some((from, to)) => again_in(old, new, from, to),
    }
}
