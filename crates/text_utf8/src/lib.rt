// Well-formed UTF-8 (RFC 3629, section 4), character boundaries, and the count of characters.
#![tactic(auto)]

ghost use Rattle.std.specs.Prelude.{◌≡◌, ◌+◌, ◌≤◌, ◌<◌, length, get_or, false, cond, not, leb, eqb};
ghost use Rattle.base_bytes.specs.Bytes.{is_tail};
ghost use Rattle.text_utf8.specs.Computed.{is_utf8};
ghost use Rattle.text_utf8.specs.Utf8.{is_boundary, char_count};
ghost use Rattle.text_utf8.specs.Inner.{Tells, Lows, Ascii, PassedTo, Begins, is_never, goes_on, is_low, is_high, is_wrong, goes_on_at, Judged, Fits};

// 1 where b is at least m, else 0. The tests of bytes are numbers, so that 16 bytes can be judged at once.
fn least(m: u8, b: u8) -> u8
    ensures { Tells result (leb m b) }
{
    if m <= b { 1 } else { 0 }
}

// 1 where b is at most m, else 0.
fn most(m: u8, b: u8) -> u8
    ensures { Tells result (leb b m) }
{
    if b <= m { 1 } else { 0 }
}

// 1 where b is m, else 0.
fn same(m: u8, b: u8) -> u8
    ensures { Tells result (eqb m b) }
{
    if m == b { 1 } else { 0 }
}

// 0 where all bytes from i to before e are ASCII.
fn wides(s: &[u8], i: usize, e: usize) -> u8
    requires { e ≤ length s.now }
    ensures { Lows s.now i e result }
{
    let mut m: u8 = 0;
    for k in i..e {
        m |= least(0x80, s[k]);
    }
    m
}

// Past all blocks of 128 bytes from i on that are ASCII.
fn past_blocks(s: &[u8], i: usize) -> usize
    requires { i ≤ length s.now }
    ensures { Ascii s.now i result }
{
    let mut k = i;
    // A while: a range by steps of 128, which can be proved too, took nearly twice as long over ASCII, as each step has more to ask.
    while 128 <= s.len() - k {
        if wides(s, k, k + 128) != 0 {
            return k;
        }
        k += 128;
    }
    k
}

// Past all parts of 16 bytes from i on that are ASCII.
fn past_parts(s: &[u8], i: usize) -> usize
    requires { i ≤ length s.now }
    ensures { Ascii s.now i result }
{
    for k in (i..s.len()).step_by(16) {
        if s.len() - k < 16 || wides(s, k, k + 16) != 0 {
            return k;
        }
    }
    s.len()
}

// The place behind the byte at k, where it goes on a character; else 0.
fn past_tail(s: &[u8], k: usize) -> usize
    requires { k < length s.now }
    ensures { result ≡ cond (is_tail (get_or s.now k 0)) (k + 1) 0 }
{
    if base_bytes::is_tail(s[k]) { k + 1 } else { 0 }
}

// Past the character of two bytes at i: this and what follows gives the place behind, or 0 where no such character stands.
fn past_two(s: &[u8], i: usize) -> usize
    requires { Begins s.now i 1 0x80 0xBF }
    ensures { PassedTo s.now i result }
{
    let left = s.len() - i;
    if left < 2 { 0 } else { past_tail(s, i + 1) }
}

// Past the character of three bytes at i, the second of them from lo to hi.
fn past_three(s: &[u8], i: usize, lo: u8, hi: u8) -> usize
    requires { Begins s.now i 2 lo hi }
    ensures { PassedTo s.now i result }
{
    if s.len() - i < 3 {
        return 0;
    }
    let b = s[i + 1];
    if b < lo {
        return 0;
    }
    if hi < b {
        return 0;
    }
    past_tail(s, i + 2)
}

// Past the character of four bytes at i, the second of them from lo to hi.
fn past_four(s: &[u8], i: usize, lo: u8, hi: u8) -> usize
    requires { Begins s.now i 3 lo hi }
    ensures { PassedTo s.now i result }
{
    if s.len() - i < 4 {
        return 0;
    }
    let b = s[i + 1];
    if b < lo {
        return 0;
    }
    if hi < b {
        return 0;
    }
    if !base_bytes::is_tail(s[i + 2]) {
        return 0;
    }
    past_tail(s, i + 3)
}

// Past the character at i, which is no ASCII: two bytes are tested first, as they are the most common.
fn past_wide(s: &[u8], i: usize) -> usize
    requires { (i < length s.now) × (0x7F < get_or s.now i 0) }
    ensures { PassedTo s.now i result }
{
    let a = s[i];
    if a < 0xC2 {
        return 0;
    }
    if a <= 0xDF {
        return past_two(s, i);
    }
    match a {
        0xE0 => past_three(s, i, 0xA0, 0xBF),
        0xE1..=0xEC => past_three(s, i, 0x80, 0xBF),
        0xED => past_three(s, i, 0x80, 0x9F),
        0xEE..=0xEF => past_three(s, i, 0x80, 0xBF),
        0xF0 => past_four(s, i, 0x90, 0xBF),
        0xF1..=0xF3 => past_four(s, i, 0x80, 0xBF),
        0xF4 => past_four(s, i, 0x80, 0x8F),
        _ => 0,
    }
}

// Whether s is well-formed UTF-8, one character at a time behind parts of ASCII: the quickest way through a short text.
fn by_chars(s: &[u8]) -> bool
    ensures { result ≡ is_utf8 s.now }
{
    let mut k = past_parts(s, 0);
    // A while: a step is one to four bytes, so no range or iterator gives it.
    'chars: while k < s.len() {
        if s[k] <= 0x7F {
            k += 1;
            continue 'chars;
        }
        k = past_wide(s, k);
        if k == 0 {
            return false;
        }
    }
    true
}

// 1 where no character has the byte d.
fn never(d: u8) -> u8
    ensures { Tells result (is_never d) }
{
    least(0xF5, d) | same(0xC0, d) | same(0xC1, d)
}

// 1 where a character that begins with one of the bytes a, b, c goes on behind them.
fn goes_on(a: u8, b: u8, c: u8) -> u8
    ensures { Tells result (goes_on a b c) }
{
    least(0xC0, c) | least(0xE0, b) | least(0xF0, a)
}

// 1 where d goes on a character.
fn tail(d: u8) -> u8
    ensures { Tells result (is_tail d) }
{
    least(0x80, d) & most(0xBF, d)
}

// 1 where d can't follow c, with which a character begins: it would be longer than need be.
fn too_low(c: u8, d: u8) -> u8
    ensures { Tells result (is_low c d) }
{
    (same(0xE0, c) & most(0x9F, d)) | (same(0xF0, c) & most(0x8F, d))
}

// 1 where d can't follow c, with which a character begins: it would be a surrogate, or beyond the last one.
fn too_high(c: u8, d: u8) -> u8
    ensures { Tells result (is_high c d) }
{
    (same(0xED, c) & least(0xA0, d)) | (same(0xF4, c) & least(0x90, d))
}

// 1 where the byte d can't stand behind the bytes a, b, c.
fn wrong(a: u8, b: u8, c: u8, d: u8) -> u8
    ensures { Tells result (is_wrong a b c d) }
{
    never(d) | (goes_on(a, b, c) ^ tail(d)) | too_low(c, d) | too_high(c, d)
}

// 0 where no byte from i to before e is wrong behind the three before it. The loop has no way out, so that 16 turns are made at once.
fn faults(s: &[u8], i: usize, e: usize) -> u8
    requires { (3 ≤ i) × (e ≤ length s.now) }
    ensures { Judged s.now i e result }
{
    let mut bad: u8 = 0;
    for k in i..e {
        bad |= wrong(s[k - 3], s[k - 2], s[k - 1], s[k]);
    }
    bad
}

// The same of the first three bytes.
fn first_faults(s: &[u8]) -> u8
    requires { 3 ≤ length s.now }
    ensures { Judged s.now 0 3 result }
{
    if wides(s, 0, 3) == 0 {
        return 0;
    }
    wrong(0, 0, 0, s[0]) | wrong(0, 0, s[0], s[1]) | wrong(0, s[0], s[1], s[2])
}

// Whether no character begins before i and goes on there.
fn whole(s: &[u8], i: usize) -> bool
    requires { (3 ≤ i) × (i ≤ length s.now) }
    ensures { result ≡ not (goes_on_at s.now i) }
{
    goes_on(s[i - 3], s[i - 2], s[i - 1]) == 0
}

// Whether s is well-formed, where no byte before k is wrong and fewer than 16 follow: the last 16 are judged, some of them again.
fn ends(s: &[u8], k: usize) -> bool
    requires { (19 ≤ length s.now) × (length s.now < k + 16) × Fits s.now k }
    ensures { result ≡ is_utf8 s.now }
{
    let n = s.len();
    if wides(s, n - 16, n) == 0 {
        return whole(s, k);
    }
    if faults(s, n - 16, n) != 0 {
        return false;
    }
    whole(s, n)
}

// Whether s is well-formed, where no byte before i is wrong: parts of ASCII are passed, and others judged.
fn by_parts(s: &[u8], i: usize) -> bool
    requires { (19 ≤ length s.now) × (3 ≤ i) × Fits s.now i }
    ensures { result ≡ is_utf8 s.now }
{
    let mut k = i;
    // A while: a step is one part, or all the ASCII from there on, so no range or iterator gives it.
    'parts: while 16 <= s.len() - k {
        if wides(s, k, k + 16) == 0 {
            if !whole(s, k) {
                return false;
            }
            k = past_parts(s, past_blocks(s, k + 16));
            continue 'parts;
        }
        if faults(s, k, k + 16) != 0 {
            return false;
        }
        k += 16;
    }
    ends(s, k)
}

// Whether s is well-formed, where it has 32 bytes or more: after a first part, or the first three bytes, the rest follows in parts.
fn in_parts(s: &[u8]) -> bool
    requires { 32 ≤ length s.now }
    ensures { result ≡ is_utf8 s.now }
{
    if wides(s, 0, 16) == 0 {
        return by_parts(s, past_parts(s, past_blocks(s, 16)));
    }
    if first_faults(s) != 0 {
        return false;
    }
    by_parts(s, 3)
}

// Whether characters are the quicker way: below 32 bytes, and below 64 where the first byte is no ASCII.
fn is_short(s: &[u8]) -> bool
    ensures { result ≡ false → 32 ≤ length s.now }
{
    if s.len() < 32 {
        return true;
    }
    if 64 <= s.len() {
        return false;
    }
    0x7F < s[0]
}

// Whether s is well-formed UTF-8: in a longer text ASCII is passed by blocks, and other bytes are judged by the three before each, 16 at once.
pub fn is_utf8(s: &[u8]) -> bool
    ensures { result ≡ is_utf8 s.now }
{
    if is_short(s) {
        by_chars(s)
    } else {
        in_parts(s)
    }
}

// Whether i is the text's end, or a place whose byte goes on no character.
pub fn is_char_boundary(s: &[u8], i: usize) -> bool
    ensures { result ≡ is_boundary s.now i }
{
    if s.len() <= i {
        return i == s.len();
    }
    !base_bytes::is_tail(s[i])
}

// How many characters there are.
pub fn char_count(s: &[u8]) -> usize
    ensures { result ≡ char_count s.now }
{
    let mut n = 0;
    for b in s {
        n = counted(n, *b);
    }
    n
}

// One more, where the byte begins a character.
fn counted(n: usize, b: u8) -> usize
    requires { n < 18446744073709551615 }
    ensures { result ≡ cond (is_tail b) n (n + 1) }
{
    if base_bytes::is_tail(b) { n } else { n + 1 }
}
