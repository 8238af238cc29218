// The raw bytes of a value, and the backslashes that its bytes take in the canonical text.
#![tactic(auto)]

ghost use Rattle.std.specs.Prelude.{◌≡◌, ◌≤◌, length};
ghost use Rattle.base_lists.specs.Lists.{same};
ghost use Rattle.base_refusals.specs.Numbers.{max_text};
ghost use Rattle.text_escapes.specs.Unescape.{piece_paper};
ghost use Rattle.set_canon.specs.Canon.{marked, escape};
ghost use Rattle.set_table.specs.Types.{two, value_bytes};
ghost use Rattle.set_marks.specs.Marks.{bytes_in, piece_in, raw_bytes, is_quoted};
ghost use Rattle.base_bytes.specs.Bytes.{is_marked};

use set_table::{Text, Value};

// Whether a byte takes a backslash.
pub fn is_marked(b: u8) -> bool
    ensures { result ≡ is_marked b }
{
    match b {
        b'"' | b'\\' => true,
        _ => false,
    }
}

// How many bytes a byte takes with its backslash.
fn marked_len(b: u8) -> usize
    ensures { result ≡ length (marked b) }
{
    if is_marked(b) {
        return 2;
    }
    1
}

// The byte of a value at i of its raw text, and where the next one stands: a quoted value is unescaped.
pub fn value_piece(s: &[u8], i: usize, quoted: bool) -> Option<(u8, usize)>
    ensures value { result ≡ piece_in quoted s.now i }
    ensures result_value { piece_paper result ≡ piece_paper (piece_in quoted s.now i) }
{
    if quoted {
        return text_escapes::piece_at(s, i);
    }
    if s.len() <= i {
        return None;
    }
    Some((s[i], i + 1))
}

// How many bytes a value takes with its backslashes.
pub fn escaped_len(s: &[u8], quoted: bool) -> usize
    ensures { result ≡ length (escape (bytes_in quoted s.now)) }
{
    let mut n: usize = 0;
    let mut i = 0;
    'pieces: loop {
        match value_piece(s, i, quoted) {
            None => break 'pieces n,
            Some((b, next)) => {
                n += marked_len(b);
                i = next;
                continue 'pieces;
            }
        }
    }
}

// The raw bytes of a value.
pub fn raw_bytes<'a>(first: &'a [u8], second: &'a [u8], value: Value) -> &'a [u8]
    ensures { (result.now ≡ raw_bytes (two first.now second.now) value) × (length result.now ≤ max_text) }
{
    let v = value.text;
    match v {
        Text::Plain(o, f, t) => set_table::range_of(first, second, o, f as usize, t as usize),
        Text::Quoted(o, f, t) => set_table::range_of(first, second, o, f as usize, t as usize),
        Text::Empty => &first[0..0],
    }
}

// Whether a value is to be unescaped.
pub fn is_quoted(value: Value) -> bool
    ensures { result ≡ is_quoted value }
{
    let v = value.text;
    match v {
        Text::Plain(_, _, _) => false,
        Text::Quoted(_, _, _) => true,
        Text::Empty => false,
    }
}

// Whether two raw texts stand for the same bytes, each quoted or not.
fn same_pieces(x: &[u8], p: bool, y: &[u8], q: bool) -> bool
    ensures { result ≡ same (bytes_in p x.now) (bytes_in q y.now) }
{
    let mut i = 0;
    let mut j = 0;
    'pieces: loop {
        match value_piece(x, i, p) {
            None => match value_piece(y, j, q) {
                None => return true,
                Some((_, _)) => return false,
            },
            Some((b, next)) => match value_piece(y, j, q) {
                None => return false,
                Some((c, after)) => {
                    if b != c {
                        return false;
                    }
                    i = next;
                    j = after;
                    continue 'pieces;
                }
            },
        }
    }
}

// Whether two values stand for the same bytes: as they stand where neither is quoted, else byte by byte.
pub fn same_values<'a>(first: &'a [u8], second: &'a [u8], a: Value, b: Value) -> bool
    ensures { result ≡ same (value_bytes (two first.now second.now) a) (value_bytes (two first.now second.now) b) }
{
    let x = raw_bytes(first, second, a);
    let y = raw_bytes(first, second, b);
    let p = is_quoted(a);
    let q = is_quoted(b);
    if p {
        return same_pieces(x, p, y, q);
    }
    if q {
        return same_pieces(x, p, y, q);
    }
    base_lists::same_bytes(x, y)
}
