// The token at a place of a text, by ranges of it, and whether bytes are a payload; where they are none, how far they can be continued to one.
#![tactic(auto)]

ghost use Rattle.std.specs.Prelude.{◌≡◌, true, false, cond, ◌&&◌, ◌+◌, ◌-◌, ◌<◌, ◌≤◌, length, get_or, drop};
ghost use Rattle.base_lists.specs.Lists.{run};
ghost use Rattle.base_bytes.specs.Bytes.{is_plain, is_blank};
ghost use Rattle.text_names.specs.Tested.{tested_paper};
ghost use Rattle.block_grammar.specs.Grammar.{Item};
ghost use Rattle.block_grammar.specs.Computed.{ends, shut_of, value_token};
ghost use Rattle.block_places.specs.Computed.{Spot};
ghost use Rattle.block_tokens.specs.Shown.{shown, token_at, token_paper, payload_tested};
ghost use Rattle.block_tokens.specs.Lent.{tests_of, tag_by, name_by, word_by, tag_place_by, name_place_by, word_place_by, token_by};
ghost use Rattle.block_tokens.specs.Inner.{starts_eq, quoted_from, part, shut_at, spot_place, behind_of};

use base_bytes::Mode;

// No token, with the place of the byte that no token can have there, or of the end; a tag, an id or a class by the range of its name;
// a key by its range, with the place behind its value; a bare name.
#[derive(Clone, Copy)]
pub enum Token {
    Bad(usize),
    Tag(usize, usize),
    Id(usize, usize),
    Class(usize, usize),
    Plain(usize, usize, usize),
    Quoted(usize, usize, usize),
    Bare(usize, usize),
}

// Behind the blanks from i on.
pub fn blank_end(s: &[u8], i: usize, mode: Mode) -> usize
    ensures { result ≡ i + run (is_blank mode) (drop i s.now) }
{
    for a in i..s.len() {
        if !base_bytes::is_blank(mode, s[a]) {
            return a;
        }
    }
    i.max(s.len())
}

// A byte of an unquoted value; from `(` to `{` all but `\` are, which are told first.
fn is_value_byte(b: u8) -> bool
    ensures { result ≡ is_plain b }
{
    match b {
        b'('..=b'[' | b']'..=b'{' => true,
        _ => base_bytes::is_plain(b),
    }
}

// Behind the bytes of an unquoted value from i on.
fn plain_end(s: &[u8], i: usize) -> usize
    ensures { result ≡ i + run is_plain (drop i s.now) }
{
    for k in i..s.len() {
        if !is_value_byte(s[k]) {
            return k;
        }
    }
    i.max(s.len())
}

// The token t, if it is good and a token may end before e; else it goes wrong there.
fn finish(s: &[u8], e: usize, mode: Mode, good: bool, t: Token) -> Token
    ensures { result ≡ cond (good && ends mode (drop e s.now)) t (Token.Bad e) }
{
    if !good {
        return Token::Bad(e);
    }
    if s.len() <= e {
        return t;
    }
    if !base_bytes::is_blank(mode, s[e]) {
        return Token::Bad(e);
    }
    t
}

// What stands behind the `:` at i. This and the next three are lent the table of classes.
fn tag_token(table: &[u64; 16], s: &[u8], i: usize, mode: Mode) -> Token
    requires { i < length s.now }
    ensures { result ≡ shown i (i + 1 + tag_place_by (tests_of table.now) (drop (i + 1) s.now)) (tag_by (tests_of table.now) mode (drop (i + 1) s.now)) }
{
    let a = i + 1;
    let e = base_letters::run_end(table, base_letters::NAME_PART, s, a);
    match text_names::language_by(table, &s[a..e]) {
        Ok(()) => finish(s, e, mode, true, Token::Tag(a, e)),
        Err(n) => Token::Bad(a + n),
    }
}

// What stands behind the `#` at i.
fn id_token(table: &[u64; 16], s: &[u8], i: usize, mode: Mode) -> Token
    requires { i < length s.now }
    ensures { result ≡ shown i (i + 1 + name_place_by (tests_of table.now) (drop (i + 1) s.now)) (name_by (tests_of table.now) mode (λ n. Item.id n) (drop (i + 1) s.now)) }
{
    let a = i + 1;
    let e = base_letters::front_end(table, base_letters::NAME_START, s, a);
    finish(s, e, mode, a < e, Token::Id(a, e))
}

// What stands behind the `.` at i.
fn class_token(table: &[u64; 16], s: &[u8], i: usize, mode: Mode) -> Token
    requires { i < length s.now }
    ensures { result ≡ shown i (i + 1 + name_place_by (tests_of table.now) (drop (i + 1) s.now)) (name_by (tests_of table.now) mode (λ n. Item.class n) (drop (i + 1) s.now)) }
{
    let a = i + 1;
    let e = base_letters::front_end(table, base_letters::NAME_START, s, a);
    finish(s, e, mode, a < e, Token::Class(a, e))
}

// Where the quote q closes, from i on.
fn quote_end(s: &[u8], i: usize, q: u8) -> Option<usize>
    ensures { result ≡ shut_at i (shut_of q (drop i s.now) false) }
{
    let mut k = i;
    // A loop: a step is one byte, or two where a backslash takes the next along.
    'bytes: loop {
        if s.len() <= k {
            break 'bytes None;
        }
        if s[k] == q {
            break 'bytes Some(k);
        }
        if s[k] == b'\\' {
            k += 2;
            continue 'bytes;
        }
        k += 1;
        continue 'bytes;
    }
}

// The value in quotes behind the key from i to k, whose `=` stands at k.
fn quoted_token(s: &[u8], i: usize, k: usize, mode: Mode) -> Token
    requires { (i ≤ k) × (k + 1 < length s.now) }
    ensures { result ≡ shown i (spot_place (Spot.quoted (get_or s.now (k + 1) 0) false) (k + 2) s.now) (quoted_from mode (part i k s.now) (get_or s.now (k + 1) 0) (drop (k + 2) s.now)) }
{
    match quote_end(s, k + 2, s[k + 1]) {
        None => Token::Bad(s.len()),
        Some(e) => finish(s, e + 1, mode, true, Token::Quoted(i, k, e + 1)),
    }
}

// The value behind the key from i to k, whose `=` stands at k.
fn value_token(s: &[u8], i: usize, k: usize, mode: Mode) -> Token
    requires { (i ≤ k) × (k < length s.now) }
    ensures { result ≡ shown i (spot_place Spot.due (k + 1) s.now) (value_token mode (part i k s.now) (drop (k + 1) s.now)) }
{
    let v = k + 1;
    if v == s.len() {
        return Token::Bad(v);
    }
    if base_bytes::is_quote(s[v]) {
        return quoted_token(s, i, k, mode);
    }
    let e = plain_end(s, v);
    finish(s, e, mode, v < e, Token::Plain(i, k, e))
}

// Whether `=` stands at i.
fn has_equals(s: &[u8], i: usize) -> bool
    ensures { result ≡ starts_eq (drop i s.now) }
{
    if s.len() <= i {
        return false;
    }
    s[i] == b'='
}

// A key with its value, or a bare name, from i on.
fn name_token(table: &[u64; 16], s: &[u8], i: usize, mode: Mode) -> Token
    requires { i ≤ length s.now }
    ensures { result ≡ shown i (i + word_place_by (tests_of table.now) (drop i s.now)) (word_by (tests_of table.now) mode (drop i s.now)) }
{
    let e = base_letters::front_end(table, base_letters::KEY_START, s, i);
    if e == i {
        return Token::Bad(i);
    }
    if has_equals(s, e) {
        return value_token(s, i, e, mode);
    }
    let good = base_letters::is_of(table, base_letters::LETTER, s[i]);
    finish(s, e, mode, good, Token::Bare(i, e))
}

// The token at i, for a caller that reads many and lends the table of classes.
pub fn token_by(table: &[u64; 16], s: &[u8], i: usize, mode: Mode) -> Token
    ensures value { result ≡ token_by (tests_of table.now) mode s.now i }
    ensures result_value { token_paper result ≡ token_paper (token_by (tests_of table.now) mode s.now i) }
{
    if s.len() <= i {
        return Token::Bad(i);
    }
    match s[i] {
        b':' => tag_token(table, s, i, mode),
        b'#' => id_token(table, s, i, mode),
        b'.' => class_token(table, s, i, mode),
        _ => name_token(table, s, i, mode),
    }
}

// The token at i.
pub fn token_at(s: &[u8], i: usize, mode: Mode) -> Token
    ensures value { result ≡ token_at mode s.now i }
    ensures result_value { token_paper result ≡ token_paper (token_at mode s.now i) }
{
    let table = base_letters::CLASS;
    token_by(&table, s, i, mode)
}

// The place behind a token, or where it goes wrong.
fn behind_token(t: Token) -> Result<usize, usize>
    ensures { result ≡ behind_of t }
{
    match t {
        Token::Bad(n) => Err(n),
        Token::Tag(_, e) => Ok(e),
        Token::Id(_, e) => Ok(e),
        Token::Class(_, e) => Ok(e),
        Token::Plain(_, _, e) => Ok(e),
        Token::Quoted(_, _, e) => Ok(e),
        Token::Bare(_, e) => Ok(e),
    }
}

// Whether s is a payload, and else how far it can be continued to one.
pub fn payload_test(s: &[u8], mode: Mode) -> Result<(), usize>
    ensures value { result ≡ payload_tested mode s.now }
    ensures result_value { tested_paper result ≡ tested_paper (payload_tested mode s.now) }
{
    let table = base_letters::CLASS;
    let mut some = false;
    let mut i = 0;
    // A loop: a step is a whole token, as long as that token is.
    'tokens: loop {
        let a = blank_end(s, i, mode);
        if a == s.len() {
            break 'tokens text_names::whole_or_stops(some, a);
        }
        match behind_token(token_by(&table, s, a, mode)) {
            Err(n) => break 'tokens Err(n),
            Ok(e) => {
                some = true;
                i = e;
                continue 'tokens;
            }
        }
    }
}
