// A payload or a line of blocks read into a set, which is changed where it stands.
#![tactic(auto)]

ghost use Rattle.std.specs.Prelude.{◌≡◌, not, ◌+◌, ◌-◌, ◌≤◌, ◌<◌, length, take, drop};
ghost use Rattle.base_lists.specs.Lists.{run};
ghost use Rattle.base_bytes.specs.Bytes.{is_space};
ghost use Rattle.base_bytes.specs.declared.Mode.{Mode};
ghost use Rattle.base_bytes.specs.declared.Mode.TheVariants.{Loose};
ghost use Rattle.base_letters.specs.Classes.{TellsBytes};
ghost use Rattle.base_refusals.specs.Numbers.{max_text, too_long, number_of, outcome_no};
ghost use Rattle.base_refusals.specs.Orders.{order_no};
ghost use Rattle.set_table.specs.Types.{one};
ghost use Rattle.set_table.specs.Rows.{no_rows};
ghost use Rattle.set_table.specs.Puts.{value_of};
ghost use Rattle.set_table.specs.Filled.{refusing};
ghost use Rattle.set_fill.specs.Fill.{fill_at, chain_at, fill_order, chain_order};
ghost use Rattle.set_fill.specs.Inner.{kind_of, tokens_from, rest_of, chain_rest, cursor_of, tokens_at, InText, Opened, Yields, piece_from, class_rest, named_rest, filled_from, over_by, over_of};

use base_bytes::Mode;
use base_refusals::Refusal;
use block_tokens::Token;
use set_table::{Attrs, Filled, Name, Origin, Row, Slot, SlotRecord, Text, Value};

// What a value is: its bytes as they stand, bytes that were quoted, or nothing behind a bare name.
#[derive(Clone, Copy)]
enum Kind {
    Plain,
    Quoted,
    Empty,
}

// Where a walk over a payload stands: before the pieces of a class value from `at` up to `to`, and then the tokens from `next` on.
#[derive(Clone, Copy)]
struct Cursor {
    pub at: usize,
    pub to: usize,
    pub next: usize,
    pub kind: Kind,
}

// What is put into the set next, and where the walk goes on.
#[derive(Clone, Copy)]
enum Push {
    End,
    Bad,
    Id(Value, Cursor),
    Class(Value, Cursor),
    Key(Name, Value, Cursor),
}

// The block that stands at a place: none, since the line ends there; one that has no reading; or the one that closes at a place.
#[derive(Clone, Copy)]
enum Following {
    Last,
    Unread,
    Closing(usize),
}

// A value of this kind from `at` up to `to`, and the tokens from `next` on.
fn value_at(kind: Kind, at: usize, to: usize, next: usize) -> Cursor
    ensures { result ≡ cursor_of kind at to next }
{
    Cursor { at, to, next, kind }
}

// The walk before the tokens from `at` on: no pieces come first.
fn before_tokens(at: usize) -> Cursor
    ensures { result ≡ tokens_at at }
{
    value_at(Kind::Plain, at, at, at)
}

// A value by its kind and its place.
fn value_of(kind: Kind, from: usize, to: usize) -> Value
    requires { (from ≤ max_text) × (to ≤ max_text) }
    ensures { result ≡ value_of (kind_of kind from to) }
{
    match kind {
        Kind::Plain => Value {
            text: Text::Plain(Origin::First, from as u16, to as u16),
        },
        Kind::Quoted => Value {
            text: Text::Quoted(Origin::First, from as u16, to as u16),
        },
        Kind::Empty => Value { text: Text::Empty },
    }
}

// Behind the whitespace from `at` on. The front is cut off and not skipped, since `skip` goes through it byte by byte.
fn space_end(s: &[u8], at: usize) -> usize
    ensures { result ≡ at + run is_space (drop at s.now) }
{
    at + s[at.min(s.len())..]
        .iter()
        .take_while(|b| base_bytes::is_space(**b))
        .count()
}

// Behind the bytes from `at` on that are no whitespace.
fn piece_end(s: &[u8], at: usize) -> usize
    ensures { result ≡ at + run (λ b. not (is_space b)) (drop at s.now) }
{
    at + s[at.min(s.len())..]
        .iter()
        .take_while(|b| !base_bytes::is_space(**b))
        .count()
}

// The piece of a class value from `from` on.
fn piece(s: &[u8], from: usize, c: Cursor) -> Push
    requires { (from ≤ c.to) × (c.to ≤ length s.now) × (length s.now ≤ max_text) }
    ensures { result ≡ piece_from s.now from c }
{
    let to = c.to;
    let kind = c.kind;
    let e = piece_end(&s[..to], from);
    Push::Class(value_of(kind, from, e), value_at(kind, e, to, c.next))
}

// The first piece of a class value; a value without one is a class as a whole.
fn first_piece(s: &[u8], c: Cursor) -> Push
    requires { (InText s.now c) × (0 < c.at) × (length s.now ≤ max_text) }
    ensures { (m : Mode) → Yields m s.now (c.at - 1) (class_rest m s.now c) result }
{
    let to = c.to;
    let kind = c.kind;
    let from = space_end(&s[..to], c.at);
    if from == to {
        return Push::Class(value_of(kind, c.at, to), before_tokens(c.next));
    }
    piece(s, from, c)
}

// What the name from f up to k puts, whose value stands where c says: `id` and `class` are no keys.
fn named_push(s: &[u8], f: usize, k: usize, c: Cursor) -> Push
    requires { (InText s.now c) × (f ≤ k) × (k ≤ c.at) × (f < c.at) × (length s.now ≤ max_text) }
    ensures { (m : Mode) → Yields m s.now f (named_rest m s.now f k c) result }
{
    let name = &s[f..k];
    let kind = c.kind;
    if base_lists::same_bytes(name, b"id") {
        return Push::Id(value_of(kind, c.at, c.to), before_tokens(c.next));
    }
    if base_lists::same_bytes(name, b"class") {
        return first_piece(s, c);
    }
    Push::Key(
        Name::Range(Origin::First, f as u16, k as u16),
        value_of(kind, c.at, c.to),
        before_tokens(c.next),
    )
}

// What the token from i on puts, blanks passed; the table of classes is lent.
fn token_push(table: &[u64; 16], s: &[u8], i: usize, mode: Mode) -> Push
    requires { (i ≤ length s.now) × (length s.now ≤ max_text) × TellsBytes table.now }
    ensures { Yields mode s.now i (tokens_from mode s.now i) result }
{
    let a = block_tokens::blank_end(s, i, mode);
    if s.len() <= a {
        return Push::End;
    }
    match block_tokens::token_by(table, s, a, mode) {
        Token::Bad(_) => Push::Bad,
        Token::Tag(f, e) => Push::Key(Name::Lang, value_of(Kind::Plain, f, e), before_tokens(e)),
        Token::Id(f, e) => Push::Id(value_of(Kind::Plain, f, e), before_tokens(e)),
        Token::Class(f, e) => Push::Class(value_of(Kind::Plain, f, e), before_tokens(e)),
        Token::Plain(f, k, e) => named_push(s, f, k, value_at(Kind::Plain, k + 1, e, e)),
        Token::Quoted(f, k, e) => named_push(s, f, k, value_at(Kind::Quoted, k + 2, e - 1, e)),
        Token::Bare(f, e) => named_push(s, f, e, value_at(Kind::Empty, e, e, e)),
    }
}

// What is put next from where the walk stands: the next piece, or what the next token puts.
fn next_push(table: &[u64; 16], s: &[u8], c: Cursor, mode: Mode) -> Push
    requires { (InText s.now c) × (length s.now ≤ max_text) × TellsBytes table.now }
    ensures { Yields mode s.now c.at (rest_of mode s.now c) result }
{
    let to = c.to;
    let from = space_end(&s[..to], c.at);
    if from == to {
        return token_push(table, s, c.next, mode);
    }
    piece(s, from, c)
}

// Which block of w begins at i. One without a token has no reading; the tokens are looked at later.
fn next_block(w: &[u8], i: usize, mode: Mode) -> Following
    ensures { Opened mode w.now i result }
{
    if w.len() <= i {
        return Following::Last;
    }
    if w[i] != b'{' {
        return Following::Unread;
    }
    match block_close::find_close(w, i + 1) {
        None => Following::Unread,
        Some(e) => {
            if e <= block_tokens::blank_end(&w[..e], i + 1, mode) {
                return Following::Unread;
            }
            Following::Closing(e)
        }
    }
}

// Which block of w stands behind the one that closes at `end`.
fn block_behind(w: &[u8], end: usize, mode: Mode) -> Following
    requires { (end ≤ length w.now) × (length w.now ≤ max_text) }
    ensures { Opened mode w.now (end + 1) result }
{
    next_block(w, end + 1, mode)
}

// Which limit is passed, with so many classes.
fn over(count: usize) -> Refusal
    ensures { result ≡ over_by count }
{
    if Attrs::CLASSES < count {
        return Refusal::TooManyClasses;
    }
    Refusal::TooManyKeys
}

// A limit is passed, with n classes so far, in the block of w that closes at `close`: the walk goes on to the end of w only for the refusal's number.
fn passed_limit(
    table: &[u64; 16],
    w: &[u8],
    close: usize,
    c: Cursor,
    mode: Mode,
    n: usize,
) -> Refusal
    requires { (InText (take close w.now) c) × (close ≤ length w.now) × (length w.now ≤ max_text) × (n ≤ max_text) × TellsBytes table.now }
    ensures { result ≡ over_of n (chain_rest mode w.now close c) }
{
    let mut count = n;
    let mut end = close;
    let mut cur = c;
    // A loop: each push says where the walk goes on, and three of the ways out are inside the match.
    'walk: loop {
        match next_push(table, &w[..end], cur, mode) {
            Push::End => match block_behind(w, end, mode) {
                Following::Last => break 'walk over(count),
                Following::Unread => break 'walk Refusal::NoReading,
                Following::Closing(e) => {
                    cur = before_tokens(end + 2);
                    end = e;
                    continue 'walk;
                }
            },
            Push::Bad => break 'walk Refusal::NoReading,
            Push::Id(_, next) => {
                cur = next;
                continue 'walk;
            }
            Push::Class(_, next) => {
                cur = next;
                count += 1;
                continue 'walk;
            }
            Push::Key(_, _, next) => {
                cur = next;
                continue 'walk;
            }
        }
    }
}

// A refusal hands out no set.
pub fn refusing(r: Refusal) -> Filled
    ensures value { result ≡ refusing r }
    ensures outcome_value { outcome_no result.outcome ≡ number_of r }
{
    let set = Attrs::empty();
    Filled {
        outcome: Err(r),
        set,
    }
}

// The tokens from `at` on of the block of w that closes at `close`, and then the blocks behind it; w is the text's front.
// The set is changed where it stands, and a refusal hands out an empty one; there is a slot for each key, the id and the classes.
fn fill_part(
    table: &[u64; 16],
    text: &[u8],
    w: &[u8],
    at: usize,
    close: usize,
    mode: Mode,
) -> Filled
    requires { (at ≤ close) × (close ≤ length w.now) × (length w.now ≤ max_text) × TellsBytes table.now }
    ensures { result ≡ filled_from (one text.now) no_rows (chain_rest mode w.now close (tokens_at at)) }
{
    let mut set = Attrs::empty();
    let mut end = close;
    let mut cur = before_tokens(at);
    // A loop: each push says where the walk goes on, and the ways out are inside the match.
    'pushes: loop {
        match next_push(table, &w[..end], cur, mode) {
            Push::End => match block_behind(w, end, mode) {
                Following::Last => return Filled {
                    outcome: Ok(()),
                    set,
                },
                Following::Unread => return refusing(Refusal::NoReading),
                Following::Closing(e) => {
                    cur = before_tokens(end + 2);
                    end = e;
                    continue 'pushes;
                }
            },
            Push::Bad => return refusing(Refusal::NoReading),
            Push::Id(v, next) => {
                cur = next;
                let there = set.given;
                set.id = v;
                set.given = true;
                if there {
                    continue 'pushes;
                }
                let p = set.norder as usize;
                set.order[p] = SlotRecord { slot: Slot::Id };
                set.norder = set.norder + 1;
                continue 'pushes;
            }
            Push::Class(v, next) => {
                cur = next;
                let n = set.nclass as usize;
                if Attrs::CLASSES <= n {
                    return refusing(passed_limit(table, w, end, next, mode, n + 1));
                }
                set.classes[n] = v;
                set.nclass = set.nclass + 1;
                if 0 < n {
                    continue 'pushes;
                }
                let p = set.norder as usize;
                set.order[p] = SlotRecord { slot: Slot::Class };
                set.norder = set.norder + 1;
                continue 'pushes;
            }
            Push::Key(name, v, next) => {
                cur = next;
                let n = set.nkey as usize;
                let keys = set.keys;
                let k = set_table::find_key(text, b"", keys, n, name);
                if k < n {
                    let mut row = set.keys[k];
                    row.value = v;
                    set.keys[k] = row;
                    continue 'pushes;
                }
                if Attrs::KEYS <= n {
                    return refusing(passed_limit(table, w, end, next, mode, set.nclass as usize));
                }
                let p = set.norder as usize;
                set.keys[n] = Row { name, value: v };
                set.order[p] = SlotRecord {
                    slot: Slot::Key(set.nkey),
                };
                set.nkey = set.nkey + 1;
                set.norder = set.norder + 1;
                continue 'pushes;
            }
        }
    }
}

// Whether places of the text don't fit a range.
fn too_long(text: &[u8]) -> bool
    ensures { result ≡ too_long text.now }
{
    base_refusals::MAX_TEXT < text.len()
}

// The payload that stands from `at` up to `end` of the text.
pub fn fill(text: &[u8], at: usize, end: usize, mode: Mode) -> Filled
    ensures value { result ≡ fill_at mode text.now at end }
    ensures outcome_value { outcome_no result.outcome ≡ order_no (fill_order mode text.now at end) }
{
    if too_long(text) {
        return refusing(Refusal::TextTooLong);
    }
    let s = set_table::bytes_of(text, 0, end);
    if s.len() <= block_tokens::blank_end(s, at, mode) {
        return refusing(Refusal::NoReading);
    }
    let table = base_letters::CLASS;
    fill_part(&table, text, s, at, s.len(), mode)
}

// The line of blocks that stands from `from` up to `to` of the text.
pub fn fill_chain(text: &[u8], from: usize, to: usize) -> Filled
    ensures value { result ≡ chain_at Loose text.now from to }
    ensures outcome_value { outcome_no result.outcome ≡ order_no (chain_order Loose text.now from to) }
{
    if too_long(text) {
        return refusing(Refusal::TextTooLong);
    }
    let w = set_table::bytes_of(text, 0, to);
    match next_block(w, from, Mode::Loose) {
        Following::Last => refusing(Refusal::NoReading),
        Following::Unread => refusing(Refusal::NoReading),
        Following::Closing(e) => {
            let table = base_letters::CLASS;
            fill_part(&table, text, w, from + 1, e, Mode::Loose)
        }
    }
}
