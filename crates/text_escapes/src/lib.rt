// Unescaping without a second buffer: stepping, comparing and writing.
#![tactic(auto)]

ghost use Rattle.std.specs.Prelude.{◌≡◌, ◌+◌, ◌≤◌, ◌<◌, length};
ghost use Rattle.std.proofs.lemmas.List.Edits.{sets};
ghost use Rattle.base_lists.specs.Lists.{same};
ghost use Rattle.text_escapes.specs.Unescape.{unescape, is_pair, piece_at, piece_paper, written_to, written_paper, content_of};

// Whether an escape begins at i.
fn is_pair(s: &[u8], i: usize) -> bool
    requires { i < length s.now }
    ensures { result ≡ is_pair s.now i }
{
    if s[i] != b'\\' {
        return false;
    }
    if i + 1 == s.len() {
        return false;
    }
    base_bytes::is_punct(s[i + 1])
}

// The first byte of what the raw text from i on stands for, and where the next one stands. A walk starts at the value's front and
// passes the value alone, so that no pair is cut.
pub fn piece_at(s: &[u8], i: usize) -> Option<(u8, usize)>
    ensures value { result ≡ piece_at s.now i }
    ensures result_value { piece_paper result ≡ piece_paper (piece_at s.now i) }
{
    if s.len() <= i {
        return None;
    }
    if is_pair(s, i) {
        return Some((s[i + 1], i + 2));
    }
    Some((s[i], i + 1))
}

// How many bytes the unescaped text has.
pub fn unescaped_len(s: &[u8]) -> usize
    ensures { result ≡ length (unescape s.now) }
{
    let mut n: usize = 0;
    let mut i = 0;
    'pieces: loop {
        match piece_at(s, i) {
            None => break 'pieces n,
            Some((_, next)) => {
                n += 1;
                i = next;
                continue 'pieces;
            }
        }
    }
}

// Whether the unescaped text is the bytes t.
pub fn same_unescaped(s: &[u8], t: &[u8]) -> bool
    ensures { result ≡ same (unescape s.now) t.now }
{
    let mut k = 0;
    let mut i = 0;
    'pieces: loop {
        match piece_at(s, i) {
            None => break 'pieces k == t.len(),
            Some((b, next)) => {
                if t.len() <= k {
                    break 'pieces false;
                }
                if b != t[k] {
                    break 'pieces false;
                }
                k += 1;
                i = next;
                continue 'pieces;
            }
        }
    }
}

// Writes the unescaped text from `at` on, where it has room.
fn put_unescaped(buf: &mut [u8], at: usize, s: &[u8]) -> usize
    requires { at + length (unescape s.now) ≤ length buf.old }
    ensures value { result ≡ at + length (unescape s.now) }
    ensures buf_after { buf.new ≡ sets buf.old at (unescape s.now) }
{
    let mut k = at;
    let mut i = 0;
    'pieces: loop {
        match piece_at(s, i) {
            None => break 'pieces k,
            Some((b, next)) => {
                buf[k] = b;
                k += 1;
                i = next;
                continue 'pieces;
            }
        }
    }
}

// Writes the unescaped text into lent memory from `at` on, or nothing where it has no room.
pub fn write_unescaped(buf: &mut [u8], at: usize, s: &[u8]) -> Option<usize>
    ensures value { result ≡ written_to buf.old at (unescape s.now) }
    ensures buf_after { buf.new ≡ content_of buf.old at (unescape s.now) }
    ensures result_value { written_paper result ≡ written_paper (written_to buf.old at (unescape s.now)) }
{
    if buf.len() < at {
        return None;
    }
    if buf.len() - at < unescaped_len(s) {
        return None;
    }
    let to = put_unescaped(buf, at, s);
    Some(to)
}
