// The fields of a request line: words, numbers and bytes in hex. Each function is defined for all bytes and places.
ghost use Rattle.std.specs.Prelude.{◌≤◌};

// What a field says: a number, or how many bytes it put into the buffer; 1 and 0 where it is bad, else 0 and that.
#[derive(Clone, Copy)]
pub(crate) struct Said {
    pub(crate) bad: u8,
    pub(crate) n: usize,
}

// A byte, or that there is none.
#[derive(Clone, Copy)]
struct Byte {
    bad: u8,
    b: u8,
}

// What a bad field says.
pub(crate) fn bad() -> Said {
    Said { bad: 1, n: 0 }
}

// What a good one says.
pub(crate) fn good(n: usize) -> Said {
    Said { bad: 0, n }
}

// The bytes from `from` up to `to`, none where there are no such places.
pub(crate) fn part(s: &[u8], from: usize, to: usize) -> &[u8] {
    if s.len() < to {
        return &s[..0];
    }
    if to < from {
        return &s[..0];
    }
    &s[from..to]
}

// The first place from `from` on that has the byte, or one with no byte behind the last.
pub(crate) fn find(s: &[u8], from: usize, byte: u8) -> usize
    ensures { from ≤ result }
{
    for i in from..s.len() {
        if s[i] == byte {
            return i;
        }
    }
    from.max(s.len())
}

// How many fields the byte parts.
pub(crate) fn count(s: &[u8], byte: u8) -> usize {
    s.iter().filter(|b| **b == byte).count() + 1
}

// The field of a number, counted from 0, of those that the byte parts; no bytes where there are fewer.
pub(crate) fn field(s: &[u8], byte: u8, k: usize) -> &[u8] {
    let mut from = 0;
    for _ in 0..k {
        let end = find(s, from, byte);
        if s.len() <= end {
            return &s[..0];
        }
        from = end + 1;
    }
    part(s, from, find(s, from, byte))
}

// The byte at a place, 0 behind the last.
pub(crate) fn byte_at(s: &[u8], k: usize) -> u8 {
    if s.len() <= k {
        return 0;
    }
    s[k]
}

// The number of a word among those of a list, parted by `/`, or how many there are where it isn't one of them.
pub(crate) fn index_of<'a>(list: &'a [u8], word: &'a [u8]) -> usize {
    let n = count(list, b'/');
    for k in 0..n {
        if field(list, b'/', k) == word {
            return k;
        }
    }
    n
}

// A decimal number up to 2^64 - 1, with no sign.
pub(crate) fn number(s: &[u8]) -> Said {
    if s.len() == 0 {
        return bad();
    }
    let mut n = 0;
    for digit in s {
        let m = longer(n, *digit);
        if m.bad != 0 {
            return m;
        }
        n = m.n;
    }
    good(n)
}

// The number with one digit more.
fn longer(n: usize, digit: u8) -> Said {
    if digit < b'0' {
        return bad();
    }
    if b'9' < digit {
        return bad();
    }
    if 1844674407370955161 < n {
        return bad();
    }
    let d = wide(digit - b'0');
    if 18446744073709551615 - n * 10 < d {
        return bad();
    }
    good(n * 10 + d)
}

pub(crate) fn wide(b: u8) -> usize {
    b as usize
}

// Lays the bytes that a field has in lower-case hex, `-` for none, into the buffer, and says how many.
pub(crate) fn unhex(s: &[u8], text: &mut [u8]) -> Said {
    if s.len() == 0 {
        return bad();
    }
    if s == b"-".as_slice() {
        return good(0);
    }
    unhex_pairs(s, text)
}

fn unhex_pairs(s: &[u8], text: &mut [u8]) -> Said {
    for i in (0..s.len()).step_by(2) {
        if !unhex_pair(s, i, text) {
            return bad();
        }
    }
    good(s.len() / 2)
}

// Lays the byte of the two digits from i on where it belongs, and says whether they are digits and it has room.
fn unhex_pair(s: &[u8], i: usize, text: &mut [u8]) -> bool {
    let byte = byte_of(s, i);
    if byte.bad != 0 {
        return false;
    }
    if text.len() <= i / 2 {
        return false;
    }
    text[i / 2] = byte.b;
    true
}

// The byte of the two digits from i on.
fn byte_of(s: &[u8], i: usize) -> Byte {
    let rest = part(s, i, s.len());
    let high = nibble(byte_at(rest, 0));
    let low = nibble(byte_at(rest, 1));
    if 15 < high {
        return Byte { bad: 1, b: 0 };
    }
    if 15 < low {
        return Byte { bad: 1, b: 0 };
    }
    Byte {
        bad: 0,
        b: high * 16 + low,
    }
}

// The value of a digit in hex, 16 for any other byte.
fn nibble(b: u8) -> u8
    ensures { result ≤ 16 }
{
    match b {
        b'0'..=b'9' => b - b'0',
        b'a'..=b'f' => b - b'a' + 10,
        _ => 16,
    }
}
