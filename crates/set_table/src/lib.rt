// The set of a block: its id, classes and keys as ranges of two texts, and the order in which they were met.
#![tactic(auto)]

ghost use Rattle.std.specs.Prelude.{◌≡◌, take};
ghost use Rattle.base_lists.specs.Lists.{same};
ghost use Rattle.block_grammar.specs.Meaning.{lang_name};
ghost use Rattle.std.proofs.Math.Seq.{slice};
ghost use Rattle.set_table.specs.Types.{empty_set, range_bytes, text_at, name_bytes, two, text_over};
ghost use Rattle.set_table.specs.Rows.{key_at};

use base_refusals::Refusal;

// Which of the two lent texts a range is of.
#[derive(Clone, Copy, PartialEq, Eq)]
pub enum Origin {
    First,
    Second,
}

// What an id, a class or a key's value is: bytes of a text as they stand, bytes of it that were quoted, or nothing from a bare name.
#[derive(Clone, Copy, PartialEq, Eq)]
pub enum Text {
    Plain(Origin, u16, u16),
    Quoted(Origin, u16, u16),
    Empty,
}

#[derive(Clone, Copy, PartialEq, Eq)]
pub struct Value {
    pub text: Text,
}

// A key's name: bytes of a text, or the fixed name `lang` that `:` gives.
#[derive(Clone, Copy, PartialEq, Eq)]
pub enum Name {
    Range(Origin, u16, u16),
    Lang,
}

#[derive(Clone, Copy, PartialEq, Eq)]
pub struct Row {
    pub name: Name,
    pub value: Value,
}

// What stands at a place of the order: the id, the classes, or the key of a row.
#[derive(Clone, Copy, PartialEq, Eq)]
pub enum Slot {
    Key(u8),
    Id,
    Class,
}

#[derive(Clone, Copy, PartialEq, Eq)]
pub struct SlotRecord {
    pub slot: Slot,
}

// The first `nclass` classes, `nkey` keys and `norder` slots count; in a set handed out the rows past them are zero.
#[derive(Clone, Copy, PartialEq, Eq)]
pub struct Attrs {
    pub id: Value,
    pub given: bool,
    pub nclass: u8,
    pub nkey: u8,
    pub norder: u8,
    pub classes: [Value; Attrs::CLASSES],
    pub keys: [Row; Attrs::KEYS],
    pub order: [SlotRecord; Attrs::SLOTS],
}

// A set that is handed out, or the empty one and why none is.
#[derive(Clone, Copy, PartialEq, Eq)]
pub struct Filled {
    pub outcome: Result<(), Refusal>,
    pub set: Attrs,
}

impl Attrs {
    pub const CLASSES: usize = 64;

    pub const KEYS: usize = 64;

    pub const SLOTS: usize = 66;

    // The set with nothing in it: what a refusal hands out.
    pub fn empty() -> Self
        ensures { result ≡ empty_set }
    {
        let none = Value {
            text: Text::Plain(Origin::First, 0, 0),
        };
        let row = Row {
            name: Name::Range(Origin::First, 0, 0),
            value: none,
        };
        let place = SlotRecord { slot: Slot::Key(0) };
        let classes = [none; Self::CLASSES];
        let keys = [row; Self::KEYS];
        let order = [place; Self::SLOTS];
        Attrs {
            id: none,
            given: false,
            nclass: 0,
            nkey: 0,
            norder: 0,
            classes: classes,
            keys: keys,
            order: order,
        }
    }
}

// The bytes of a range; what lies past the text is left out.
pub fn bytes_of(text: &[u8], from: usize, to: usize) -> &[u8]
    ensures { result.now ≡ slice from to text.now }
{
    if to <= text.len() {
        if from <= to {
            return &text[from..to];
        }
        return &text[0..0];
    }
    if from <= text.len() {
        return &text[from..];
    }
    &text[0..0]
}

// The one text that the ranges of a block's set are of: the first `joined` bytes of what was joined, or the text where nothing was.
pub fn text_over<'a>(text: &'a [u8], join: &'a [u8], joined: usize) -> &'a [u8]
    ensures { result.now ≡ text_over text.now join.now joined }
{
    if joined == 0 {
        return text;
    }
    bytes_of(join, 0, joined)
}

// The text of an origin.
pub fn text_of<'a>(first: &'a [u8], second: &'a [u8], origin: Origin) -> &'a [u8]
    ensures { result.now ≡ text_at (two first.now second.now) origin }
{
    match origin {
        Origin::First => first,
        Origin::Second => second,
    }
}

// The bytes of a range.
pub fn range_of<'a>(
    first: &'a [u8],
    second: &'a [u8],
    origin: Origin,
    from: usize,
    to: usize,
) -> &'a [u8]
    ensures { result.now ≡ range_bytes (two first.now second.now) origin from to }
{
    bytes_of(text_of(first, second, origin), from, to)
}

// Whether two names are the same bytes: first their lengths, then the last bytes, as the names of a block often begin alike, then all.
fn same_by_last(a: &[u8], b: &[u8]) -> bool
    ensures { result ≡ same a.now b.now }
{
    a.len() == b.len() && a.last() == b.last() && base_lists::same_bytes(a, b)
}

// Whether a name is the bytes given.
pub fn is_named<'a>(first: &'a [u8], second: &'a [u8], name: Name, bytes: &[u8]) -> bool
    ensures { result ≡ same (name_bytes (two first.now second.now) name) bytes.now }
{
    match name {
        Name::Range(o, f, t) => {
            same_by_last(range_of(first, second, o, f as usize, t as usize), bytes)
        }
        Name::Lang => same_by_last(b"lang", bytes),
    }
}

// The bytes of a name, where `lang` are those that `:` gives.
fn name_of<'a>(first: &'a [u8], second: &'a [u8], lang: &'a [u8], name: Name) -> &'a [u8]
    requires { lang.now ≡ lang_name }
    ensures { result.now ≡ name_bytes (two first.now second.now) name }
{
    match name {
        Name::Range(o, f, t) => range_of(first, second, o, f as usize, t as usize),
        Name::Lang => lang,
    }
}

// Whether two names are the same, byte for byte.
pub fn same_name<'a>(first: &'a [u8], second: &'a [u8], a: Name, b: Name) -> bool
    ensures { result ≡ same (name_bytes (two first.now second.now) a) (name_bytes (two first.now second.now) b) }
{
    is_named(first, second, a, name_of(first, second, b"lang", b))
}

// The row among the first n that has the name, or how many rows were looked at where none has.
pub fn find_key<'a>(
    first: &'a [u8],
    second: &'a [u8],
    keys: [Row; Attrs::KEYS],
    n: usize,
    name: Name,
) -> usize
    ensures { result ≡ key_at (two first.now second.now) name (take n keys) }
{
    let bytes = name_of(first, second, b"lang", name);
    for (k, row) in keys.iter().enumerate() {
        if n <= k || is_named(first, second, row.name, bytes) {
            return k;
        }
    }
    Attrs::KEYS
}
