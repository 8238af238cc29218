// Reading an attribute block at a brace in one walk over its bytes, which finds the close and the meaning together.
#![tactic(auto)]

ghost use Rattle.std.specs.Prelude.{◌≡◌, true, false, not, cond, ◌&&◌, List, [], ◌∷◌, ℕ, suc, ◌+◌, ◌-◌, ◌<◌, ◌≤◌, length, get_or, take, drop};
ghost use Rattle.std.proofs.Math.Seq.{slice};
ghost use Rattle.base_lists.specs.Lists.{run, same};
ghost use Rattle.base_bytes.specs.Bytes.{is_space, is_plain, is_quote};
ghost use Rattle.base_letters.specs.Classes.{is_of, TellsBytes};
ghost use Rattle.base_refusals.specs.Numbers.{max_text};
ghost use Rattle.base_refusals.specs.Orders.{on_paper};
ghost use Rattle.text_utf8.specs.Computed.{is_utf8};
ghost use Rattle.block_grammar.specs.Computed.{ends, name_token, value_token};
ghost use Rattle.block_grammar.specs.ComputedClose.{find_close};
ghost use Rattle.block_grammar.specs.Meaning.{lang_name};
ghost use Rattle.block_places.specs.Computed.{Spot};
ghost use Rattle.block_tokens.specs.declared.Token.{Token};
ghost use Rattle.block_tokens.specs.Shown.{shown};
ghost use Rattle.block_tokens.specs.Inner.{starts_eq, tag_token, id_token, class_token, quoted_from, part, spot_place, word_place};
ghost use Rattle.block_close.specs.Inner.{no_lf_first};
ghost use Rattle.set_fill.specs.Inner.{tokens_from};
ghost use Rattle.read_brace.specs.Brace.{brace_paper, place_said, place_at, brace_at, payload_of, read_attrs_at, brace_order, behind_close};
ghost use Rattle.read_tags.specs.Tagged.{read_tagged, tagged_order, tagged_place_at};
ghost use Rattle.read_tags.specs.Inner.{passes_with};
ghost use Rattle.read_once.specs.declared.Sort.TheVariants.{Wrong};
ghost use Rattle.read_once.specs.Inner.{is_gap, is_calm, tag_stop, tag_ends, QuoteEnds, token_seen, is_token, is_closing, seen_of, Spans, Sees, Found, Stands, rest_at, classes_in, named_puts, value_in, name_by, span_bytes, lang_by, span_allowed, asked, stop_move, put_move, piece_move, Puts, Moves, unread_to, verdict_of, is_next, no_set, once_to};

use base_bytes::Mode;
use base_refusals::Refusal;
use read_brace::{NotRead, Read};
use read_tags::Tags;
use set_table::{Attrs, Name, Origin, Row, Slot, SlotRecord, Text, Value};

// What stands at a place: the close, bytes that no token has there, or a token.
#[derive(Clone, Copy)]
enum Sort {
    Close,
    Wrong,
    Tag,
    Id,
    Class,
    Plain,
    Quoted,
    Bare,
}

// It by places: a token's name from `name` up to `key`, and where the token ends or the bytes go wrong.
#[derive(Clone, Copy)]
struct Seen {
    pub sort: Sort,
    pub name: usize,
    pub key: usize,
    pub end: usize,
}

// Where a tag stops, and how many bytes its last subtag has there.
#[derive(Clone, Copy)]
struct TagStop {
    pub end: usize,
    pub size: usize,
}

// What a value is: its bytes as they stand, bytes that were quoted, or nothing behind a bare name.
#[derive(Clone, Copy)]
enum Kind {
    Plain,
    Quoted,
    Empty,
}

// A value of this kind from `from` up to `to`.
#[derive(Clone, Copy)]
struct Span {
    pub kind: Kind,
    pub from: usize,
    pub to: usize,
}

// What the walk comes to: the close, a wrong byte, or something that is put; `Lang` is a key named so, `Tag` what `:` gives.
#[derive(Clone, Copy)]
enum Code {
    Close,
    Wrong,
    Id,
    Class,
    Key,
    Lang,
    Tag,
}

// What is put is the value from `from` up to `to`, under the name from `name` up to `key`; then come the pieces of a class value
// from `at` up to `end`, and the tokens from `next` on.
#[derive(Clone, Copy)]
struct Moved {
    pub code: Code,
    pub kind: Kind,
    pub name: usize,
    pub key: usize,
    pub from: usize,
    pub to: usize,
    pub at: usize,
    pub end: usize,
    pub next: usize,
}

// What is seen, by its parts.
fn seen_as(sort: Sort, name: usize, key: usize, end: usize) -> Seen
    ensures { result ≡ seen_of sort name key end }
{
    Seen {
        sort,
        name,
        key,
        end,
    }
}

// No token can go on at e.
fn wrong_at(e: usize) -> Seen
    ensures { result ≡ seen_of Wrong e e e }
{
    seen_as(Sort::Wrong, e, e, e)
}

// A blank that is no LF: at a brace an LF means no close, in either mode.
fn is_gap(mode: Mode, b: u8) -> bool
    ensures { result ≡ is_gap mode b }
{
    if b == b'\n' {
        return false;
    }
    base_bytes::is_blank(mode, b)
}

// Behind the blanks from i on.
fn gap_end(s: &[u8], i: usize, mode: Mode) -> usize
    ensures { result ≡ i + run (is_gap mode) (drop i s.now) }
{
    let mut a = i;
    while a < s.len() {
        if !is_gap(mode, s[a]) {
            return a;
        }
        a += 1;
    }
    a
}

// A byte of an unquoted value; from `(` to `{` all but `\` are, which are told first.
fn is_value_byte(b: u8) -> bool
    ensures { result ≡ is_plain b }
{
    match b {
        b'('..=b'[' | b']'..=b'{' => true,
        _ => base_bytes::is_plain(b),
    }
}

// Behind the bytes of an unquoted value from i on.
fn plain_end(s: &[u8], i: usize) -> usize
    ensures { result ≡ i + run is_plain (drop i s.now) }
{
    let mut k = i;
    while k < s.len() {
        if !is_value_byte(s[k]) {
            return k;
        }
        k += 1;
    }
    k
}

// Behind the whitespace from `at` on.
fn space_end(s: &[u8], at: usize) -> usize
    ensures { result ≡ at + run is_space (drop at s.now) }
{
    let mut i = at;
    while i < s.len() {
        if !base_bytes::is_space(s[i]) {
            return i;
        }
        i += 1;
    }
    i
}

// Behind the bytes from `at` on that are no whitespace.
fn piece_end(s: &[u8], at: usize) -> usize
    ensures { result ≡ at + run (λ b. not (is_space b)) (drop at s.now) }
{
    let mut i = at;
    while i < s.len() {
        if base_bytes::is_space(s[i]) {
            return i;
        }
        i += 1;
    }
    i
}

// Whether the line goes on at k: a byte that is no LF stands there.
fn goes_on(s: &[u8], k: usize) -> bool
    ensures { result ≡ no_lf_first (drop k s.now) }
{
    if s.len() <= k {
        return false;
    }
    s[k] != b'\n'
}

// Where the quote q closes, from i on; an LF before that means no close.
fn quote_end(s: &[u8], i: usize, q: u8) -> Option<usize>
    requires { is_quote q ≡ true }
    ensures { QuoteEnds s.now q i result }
{
    let mut k = i;
    'bytes: loop {
        if !goes_on(s, k) {
            break 'bytes None;
        }
        if s[k] == q {
            break 'bytes Some(k);
        }
        if s[k] == b'\\' {
            if !goes_on(s, k + 1) {
                break 'bytes None;
            }
            k += 2;
            continue 'bytes;
        }
        k += 1;
        continue 'bytes;
    }
}

// A byte that leaves the search for the close where it is.
fn is_calm(b: u8) -> bool
    ensures { result ≡ is_calm b }
{
    match b {
        b'\n' | b'"' | b'\'' | b'\\' | b'}' => false,
        _ => true,
    }
}

// Past such bytes from i on, four a turn; the last three of the text may be left.
fn calm_end(s: &[u8], i: usize) -> usize
    ensures { (i ≤ result) × (find_close s.now result ≡ find_close s.now i) }
{
    let mut k = i;
    while k < s.len() {
        if s.len() - k < 4 {
            return k;
        }
        if !is_calm(s[k]) {
            return k;
        }
        if !is_calm(s[k + 1]) {
            return k + 1;
        }
        if !is_calm(s[k + 2]) {
            return k + 2;
        }
        if !is_calm(s[k + 3]) {
            return k + 3;
        }
        k += 4;
    }
    k
}

// Behind a wrong byte only the close is still sought: the first `}` from `at` on that no quote and no backslash covers. Bytes that
// leave the search where it is are passed by the stretch, behind one of them and behind a quote.
fn close_behind(s: &[u8], at: usize) -> Option<usize>
    ensures { result ≡ find_close s.now at }
{
    let mut i = at;
    'bytes: loop {
        if !goes_on(s, i) {
            break 'bytes None;
        }
        match s[i] {
            b'}' => break 'bytes Some(i),
            b'\\' => {
                if !goes_on(s, i + 1) {
                    break 'bytes None;
                }
                i += 2;
                continue 'bytes;
            }
            b'"' | b'\'' => match quote_end(s, i + 1, s[i]) {
                None => break 'bytes None,
                Some(e) => {
                    i = calm_end(s, e + 1);
                    continue 'bytes;
                }
            },
            _ => {
                i = calm_end(s, i + 1);
                continue 'bytes;
            }
        }
    }
}

// The token t, if it is good and a token may end before e: at the close, at a blank, or with the text; else it goes wrong there.
fn finish(text: &[u8], e: usize, mode: Mode, good: bool, t: Seen) -> Seen
    requires { (e ≤ length text.now) × ((t.end ≡ e) × (is_closing t.sort ≡ false)) }
    ensures { (i : ℕ) → Spans i t → Sees text.now i e (λ c. cond (good && ends mode (drop e (take c text.now))) (token_seen t) (Token.Bad e)) result }
{
    if !good {
        return wrong_at(e);
    }
    if text.len() <= e {
        return t;
    }
    if text[e] == b'}' {
        return t;
    }
    if !base_bytes::is_blank(mode, text[e]) {
        return wrong_at(e);
    }
    t
}

// Where the tag from i on stops: a letter or a digit is passed where its subtag has room, and a hyphen behind one of them.
fn tag_end(table: &[u64; 16], s: &[u8], i: usize) -> TagStop
    ensures { result ≡ tag_stop (is_of table.now 3) s.now i }
{
    let mut size: usize = 0;
    let mut k = i;
    while k < s.len() {
        if base_letters::is_of(table, base_letters::ALNUM, s[k]) {
            if size == 8 {
                return TagStop { end: k, size };
            }
            size += 1;
            k += 1;
            continue;
        }
        if s[k] != b'-' {
            return TagStop { end: k, size };
        }
        if size == 0 {
            return TagStop { end: k, size };
        }
        size = 0;
        k += 1;
    }
    TagStop { end: k, size }
}

// Whether a tag from a on may end at e: there is none, or its last subtag has a byte.
fn may_end(a: usize, e: usize, size: usize) -> bool
    ensures { result ≡ tag_ends a e size }
{
    if a == e {
        return true;
    }
    0 < size
}

// What stands behind the `:` at i. This and the next two are lent the table of classes.
fn tag_seen(table: &[u64; 16], text: &[u8], i: usize, mode: Mode) -> Seen
    requires { (i < length text.now) × TellsBytes table.now }
    ensures { Sees text.now i (i + 1) (λ c. shown i (spot_place (Spot.tag 0 true) (i + 1) (take c text.now)) (tag_token mode (drop (i + 1) (take c text.now)))) result }
{
    let a = i + 1;
    let stop = tag_end(table, text, a);
    let e = stop.end;
    let good = may_end(a, e, stop.size);
    finish(text, e, mode, good, seen_as(Sort::Tag, a, e, e))
}

// What stands behind the `#` at i.
fn id_seen(table: &[u64; 16], text: &[u8], i: usize, mode: Mode) -> Seen
    requires { (i < length text.now) × TellsBytes table.now }
    ensures { Sees text.now i (i + 1) (λ c. shown i (spot_place Spot.sigil (i + 1) (take c text.now)) (id_token mode (drop (i + 1) (take c text.now)))) result }
{
    let a = i + 1;
    let e = base_letters::front_end(table, base_letters::NAME_START, text, a);
    finish(text, e, mode, a < e, seen_as(Sort::Id, a, e, e))
}

// What stands behind the `.` at i.
fn class_seen(table: &[u64; 16], text: &[u8], i: usize, mode: Mode) -> Seen
    requires { (i < length text.now) × TellsBytes table.now }
    ensures { Sees text.now i (i + 1) (λ c. shown i (spot_place Spot.sigil (i + 1) (take c text.now)) (class_token mode (drop (i + 1) (take c text.now)))) result }
{
    let a = i + 1;
    let e = base_letters::front_end(table, base_letters::NAME_START, text, a);
    finish(text, e, mode, a < e, seen_as(Sort::Class, a, e, e))
}

// The value in quotes behind the key from i to k, whose `=` stands at k.
fn quoted_seen(text: &[u8], i: usize, k: usize, mode: Mode) -> Seen
    requires { (i ≤ k) × ((k + 1 < length text.now) × (is_quote (get_or text.now (k + 1) 0) ≡ true)) }
    ensures { Sees text.now i (k + 1) (λ c. shown i (spot_place (Spot.quoted (get_or text.now (k + 1) 0) false) (k + 2) (take c text.now)) (quoted_from mode (part i k (take c text.now)) (get_or text.now (k + 1) 0) (drop (k + 2) (take c text.now)))) result }
{
    match quote_end(text, k + 2, text[k + 1]) {
        None => wrong_at(text.len()),
        Some(e) => finish(text, e + 1, mode, true, seen_as(Sort::Quoted, i, k, e + 1)),
    }
}

// The value behind the key from i to k, whose `=` stands at k.
fn value_seen(text: &[u8], i: usize, k: usize, mode: Mode) -> Seen
    requires { (i ≤ k) × (k < length text.now) }
    ensures { Sees text.now i (k + 1) (λ c. shown i (spot_place Spot.due (k + 1) (take c text.now)) (value_token mode (part i k (take c text.now)) (drop (k + 1) (take c text.now)))) result }
{
    let v = k + 1;
    if v == text.len() {
        return wrong_at(v);
    }
    if base_bytes::is_quote(text[v]) {
        return quoted_seen(text, i, k, mode);
    }
    let e = plain_end(text, v);
    finish(text, e, mode, v < e, seen_as(Sort::Plain, i, k, e))
}

// Whether `=` stands at i.
fn has_equals(s: &[u8], i: usize) -> bool
    ensures { result ≡ starts_eq (drop i s.now) }
{
    if s.len() <= i {
        return false;
    }
    s[i] == b'='
}

// A key with its value, or a bare name, from i on.
fn name_seen(table: &[u64; 16], text: &[u8], i: usize, mode: Mode) -> Seen
    requires { (i < length text.now) × TellsBytes table.now }
    ensures { (Sees text.now i i (λ c. shown i (i + word_place (drop i (take c text.now))) (name_token mode (drop i (take c text.now)))) result) × (is_token result.sort ≡ true → i < result.end) }
{
    let e = base_letters::front_end(table, base_letters::KEY_START, text, i);
    if e == i {
        return wrong_at(i);
    }
    if has_equals(text, e) {
        return value_seen(text, i, e, mode);
    }
    let good = base_letters::is_of(table, base_letters::LETTER, text[i]);
    finish(text, e, mode, good, seen_as(Sort::Bare, i, e, e))
}

// What stands at i, where a token may begin.
fn token_seen(table: &[u64; 16], text: &[u8], i: usize, mode: Mode) -> Seen
    requires { (i ≤ length text.now) × TellsBytes table.now }
    ensures { Found mode text.now i result }
{
    if text.len() <= i {
        return wrong_at(i);
    }
    match text[i] {
        b'}' => seen_as(Sort::Close, i, i, i),
        b':' => tag_seen(table, text, i, mode),
        b'#' => id_seen(table, text, i, mode),
        b'.' => class_seen(table, text, i, mode),
        _ => name_seen(table, text, i, mode),
    }
}

// Nothing is put: the walk has come to its end at `next`.
fn stop(code: Code, next: usize) -> Moved
    ensures { result ≡ stop_move code next }
{
    Moved {
        code,
        kind: Kind::Plain,
        name: next,
        key: next,
        from: next,
        to: next,
        at: next,
        end: next,
        next,
    }
}

// One value is put, and then come the tokens from `next` on.
fn put(
    code: Code,
    name: usize,
    key: usize,
    kind: Kind,
    from: usize,
    to: usize,
    next: usize,
) -> Moved
    ensures { result ≡ put_move code name key kind from to next }
{
    Moved {
        code,
        kind,
        name,
        key,
        from,
        to,
        at: next,
        end: next,
        next,
    }
}

// The piece of a class value from `from` on, which ends before `to`.
fn piece(text: &[u8], from: usize, kind: Kind, to: usize, next: usize) -> Moved
    requires { (from ≤ to) × (to ≤ length text.now) }
    ensures { result ≡ piece_move text.now from kind to next }
{
    let e = piece_end(&text[..to], from);
    Moved {
        code: Code::Class,
        kind,
        name: from,
        key: from,
        from,
        to: e,
        at: e,
        end: to,
        next,
    }
}

// The first piece of a class value; a value without one is a class as a whole.
fn first_piece(text: &[u8], kind: Kind, at: usize, to: usize, next: usize) -> Moved
    requires { (Stands text.now at to next) × (0 < at) }
    ensures { Puts text.now (at - 1) next (classes_in text.now kind at to) [] result }
{
    let from = space_end(&text[..to], at);
    if from == to {
        return put(Code::Class, at, at, kind, at, to, next);
    }
    piece(text, from, kind, to, next)
}

// What the name from f up to k puts, whose value stands from `at` up to `to`: `id` and `class` are no keys.
fn named(text: &[u8], f: usize, k: usize, kind: Kind, at: usize, to: usize, next: usize) -> Moved
    requires { (Stands text.now at to next) × ((f ≤ k) × ((k ≤ at) × (f < at))) }
    ensures { Puts text.now f next (named_puts text.now f k kind at to) (cond (same (slice f k text.now) lang_name) (span_bytes text.now kind at to ∷ []) []) result }
{
    let name = &text[f..k];
    if base_lists::same_bytes(name, b"id") {
        return put(Code::Id, f, k, kind, at, to, next);
    }
    if base_lists::same_bytes(name, b"class") {
        return first_piece(text, kind, at, to, next);
    }
    if base_lists::same_bytes(name, b"lang") {
        return put(Code::Lang, f, k, kind, at, to, next);
    }
    put(Code::Key, f, k, kind, at, to, next)
}

// What the token from i on puts, blanks passed.
fn token_move(table: &[u64; 16], text: &[u8], i: usize, mode: Mode) -> Moved
    requires { (i ≤ length text.now) × TellsBytes table.now }
    ensures { Moves mode text.now i i (λ s. tokens_from mode s i) result }
{
    let a = gap_end(text, i, mode);
    let s = token_seen(table, text, a, mode);
    let sort = s.sort;
    let f = s.name;
    let k = s.key;
    let e = s.end;
    match sort {
        Sort::Close => stop(Code::Close, e),
        Sort::Wrong => stop(Code::Wrong, e),
        Sort::Tag => put(Code::Tag, f, k, Kind::Plain, f, e, e),
        Sort::Id => put(Code::Id, f, k, Kind::Plain, f, e, e),
        Sort::Class => put(Code::Class, f, k, Kind::Plain, f, e, e),
        Sort::Plain => named(text, f, k, Kind::Plain, k + 1, e, e),
        Sort::Quoted => named(text, f, k, Kind::Quoted, k + 2, e - 1, e),
        Sort::Bare => named(text, f, e, Kind::Empty, e, e, e),
    }
}

// What is put next from where the walk stands: the next piece, or what the next token puts.
fn next_move(
    table: &[u64; 16],
    text: &[u8],
    mode: Mode,
    kind: Kind,
    at: usize,
    to: usize,
    next: usize,
) -> Moved
    requires { (Stands text.now at to next) × TellsBytes table.now }
    ensures { Moves mode text.now at next (λ s. rest_at mode text.now s kind at to next) result }
{
    let from = space_end(&text[..to], at);
    if from == to {
        return token_move(table, text, next, mode);
    }
    piece(text, from, kind, to, next)
}

// A value by its kind and its place.
fn value_of(kind: Kind, from: usize, to: usize) -> Value
    requires { (from ≤ max_text) × (to ≤ max_text) }
    ensures { result ≡ value_in kind from to }
{
    match kind {
        Kind::Plain => Value {
            text: Text::Plain(Origin::First, from as u16, to as u16),
        },
        Kind::Quoted => Value {
            text: Text::Quoted(Origin::First, from as u16, to as u16),
        },
        Kind::Empty => Value { text: Text::Empty },
    }
}

// The name under which a key is put.
fn name_of(code: Code, name: usize, key: usize) -> Name
    requires { (name ≤ max_text) × (key ≤ max_text) }
    ensures { result ≡ name_by code name key }
{
    match code {
        Code::Tag => Name::Lang,
        _ => Name::Range(Origin::First, name as u16, key as u16),
    }
}

// The last value of `lang`, with what is put now.
fn spoken(code: Code, last: Span, kind: Kind, from: usize, to: usize) -> Span
    ensures { (t : List ℕ) → span_allowed t result ≡ passes_with (span_allowed t last) (lang_by code (span_bytes t kind from to)) }
{
    match code {
        Code::Tag => Span { kind, from, to },
        Code::Lang => Span { kind, from, to },
        _ => last,
    }
}

// Whether a value of `lang` is empty or a well-formed tag.
fn is_allowed(text: &[u8], last: Span) -> bool
    ensures { result ≡ span_allowed text.now last }
{
    let kind = last.kind;
    match kind {
        Kind::Plain => text_langtags::is_allowed_tag(set_table::bytes_of(text, last.from, last.to)),
        Kind::Quoted => text_langtags::is_allowed_unescaped(set_table::bytes_of(
            text, last.from, last.to,
        )),
        Kind::Empty => true,
    }
}

// Whether the last value of `lang` passes, as the caller wants it.
fn tag_passes(text: &[u8], tags: Tags, last: Span) -> bool
    ensures { result ≡ asked tags text.now last }
{
    match tags {
        Tags::Any => true,
        Tags::WellFormed => is_allowed(text, last),
    }
}

// What a payload that goes wrong at n is refused with.
fn unread(text: &[u8], place: usize, n: usize) -> Result<usize, NotRead>
    requires { (suc place ≤ n) × ((n ≤ length text.now) × (find_close text.now n ≡ find_close text.now (suc place))) }
    ensures { result ≡ unread_to text.now place n (find_close text.now (suc place)) }
{
    match close_behind(text, n) {
        None => Err(NotRead::Refused(Refusal::NoClose)),
        Some(e) => {
            if !text_utf8::is_utf8(&text[place + 1..e]) {
                return Err(NotRead::Refused(Refusal::NotUtf8));
            }
            Err(NotRead::Unread(n - place - 1))
        }
    }
}

// What a payload comes to that closes at e, by what was met: a token, too many classes, too many keys.
fn verdict(
    text: &[u8],
    place: usize,
    e: usize,
    some: bool,
    passes: bool,
    many: bool,
    over: bool,
) -> Result<usize, NotRead>
    requires { (suc place ≤ e) × (e < length text.now) }
    ensures { result ≡ verdict_of (is_utf8 (payload_of text.now place e)) some passes many over place e }
{
    if !text_utf8::is_utf8(&text[place + 1..e]) {
        return Err(NotRead::Refused(Refusal::NotUtf8));
    }
    if !some {
        return Err(NotRead::Unread(e - place - 1));
    }
    if !passes {
        return Err(NotRead::Refused(Refusal::BadTag));
    }
    if many {
        return Err(NotRead::Refused(Refusal::TooManyClasses));
    }
    if over {
        return Err(NotRead::Refused(Refusal::TooManyKeys));
    }
    Ok(e + 1)
}

// Whether an answer hands out a set.
fn is_next(answer: Result<usize, NotRead>) -> bool
    ensures { result ≡ is_next answer }
{
    match answer {
        Err(NotRead::Refused(_)) => false,
        Err(NotRead::Unread(_)) => false,
        Ok(_) => true,
    }
}

// A refusal hands out no set.
fn refused(answer: Result<usize, NotRead>) -> Read
    ensures { result ≡ no_set answer }
{
    let set = Attrs::empty();
    Read { answer, set }
}

// The block whose brace stands at the place. The set is changed where it stands; a limit that is passed is noted, and said at the close.
fn walk(table: &[u64; 16], text: &[u8], place: usize, mode: Mode, tags: Tags) -> Read
    requires { (length text.now ≤ max_text) × ((place < length text.now) × TellsBytes table.now) }
    ensures { result ≡ once_to tags mode text.now place (find_close text.now (suc place)) }
{
    let mut set = Attrs::empty();
    let mut kind = Kind::Plain;
    let mut at = place + 1;
    let mut to = place + 1;
    let mut next = place + 1;
    let mut some = false;
    let mut many = false;
    let mut over = false;
    let mut last = Span {
        kind: Kind::Empty,
        from: 0,
        to: 0,
    };
    'moves: loop {
        let r = next_move(table, text, mode, kind, at, to, next);
        let code = r.code;
        kind = r.kind;
        at = r.at;
        to = r.end;
        next = r.next;
        match code {
            Code::Wrong => return refused(unread(text, place, next)),
            Code::Close => {
                let passes = tag_passes(text, tags, last);
                let answer = verdict(text, place, next, some, passes, many, over);
                if is_next(answer) {
                    return Read { answer, set };
                }
                return refused(answer);
            }
            Code::Id => {
                some = true;
                let there = set.given;
                set.id = value_of(kind, r.from, r.to);
                set.given = true;
                if there {
                    continue 'moves;
                }
                let p = set.norder as usize;
                set.order[p] = SlotRecord { slot: Slot::Id };
                set.norder = set.norder + 1;
                continue 'moves;
            }
            Code::Class => {
                some = true;
                let n = set.nclass as usize;
                if Attrs::CLASSES <= n {
                    many = true;
                    continue 'moves;
                }
                set.classes[n] = value_of(kind, r.from, r.to);
                set.nclass = set.nclass + 1;
                if 0 < n {
                    continue 'moves;
                }
                let p = set.norder as usize;
                set.order[p] = SlotRecord { slot: Slot::Class };
                set.norder = set.norder + 1;
                continue 'moves;
            }
            _ => {
                some = true;
                last = spoken(code, last, kind, r.from, r.to);
                let name = name_of(code, r.name, r.key);
                let v = value_of(kind, r.from, r.to);
                let n = set.nkey as usize;
                let keys = set.keys;
                let k = set_table::find_key(text, b"", keys, n, name);
                if k < n {
                    let mut row = set.keys[k];
                    row.value = v;
                    set.keys[k] = row;
                    continue 'moves;
                }
                if Attrs::KEYS <= n {
                    over = true;
                    continue 'moves;
                }
                let p = set.norder as usize;
                set.keys[n] = Row { name, value: v };
                set.order[p] = SlotRecord {
                    slot: Slot::Key(set.nkey),
                };
                set.nkey = set.nkey + 1;
                set.norder = set.norder + 1;
                continue 'moves;
            }
        }
    }
}

// Whether a brace opens at the place.
fn opens_at(text: &[u8], place: usize) -> bool
    ensures { result ≡ brace_at text.now place }
{
    if text.len() <= place {
        return false;
    }
    text[place] == b'{'
}

// The block whose brace stands at the place, in either mode, with its language tag looked at or not.
pub fn read_attrs_once_with(text: &[u8], place: usize, mode: Mode, tags: Tags) -> Read
    ensures value { result ≡ read_tagged tags mode text.now place }
    ensures answer_value { brace_paper result.answer ≡ on_paper (tagged_order tags mode text.now place) (behind_close (find_close text.now (suc place))) }
    ensures answer_value_2 { place_said result.answer ≡ tagged_place_at tags mode text.now place }
{
    if base_refusals::MAX_TEXT < text.len() {
        return refused(Err(NotRead::Refused(Refusal::TextTooLong)));
    }
    if !opens_at(text, place) {
        return refused(Err(NotRead::Refused(Refusal::NothingThere)));
    }
    let table = base_letters::CLASS;
    walk(&table, text, place, mode, tags)
}

// The block whose brace stands at the place, in either mode.
pub fn read_attrs_once(text: &[u8], place: usize, mode: Mode) -> Read
    ensures value { result ≡ read_attrs_at mode text.now place }
    ensures answer_value { brace_paper result.answer ≡ on_paper (brace_order mode text.now place) (behind_close (find_close text.now (suc place))) }
    ensures answer_value_2 { place_said result.answer ≡ place_at mode text.now place }
{
    read_attrs_once_with(text, place, mode, Tags::Any)
}
