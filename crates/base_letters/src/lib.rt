// The bytes of names, keys and tags: their classes in one table, a test for each kind of byte, and how far a name goes.
#![tactic(auto)]

ghost use Rattle.std.specs.Prelude.{◌≡◌, ◌+◌, drop};
ghost use Rattle.base_lists.specs.Lists.{run};
ghost use Rattle.base_bytes.specs.Bytes.{is_letter, is_digit, is_alnum, is_name_start, is_name_part, is_key_start};
ghost use Rattle.base_letters.specs.Classes.{is_of, front_run};

// The class of each byte, four bits each, sixteen to a word from its lowest bits up: a letter 1, a digit 2, `_` 4, `-` 8, any other 0.
// It is built anew on the stack wherever it is named, so it is short, and is taken once for a payload, a name or a tag, and lent.
pub const CLASS: [u64; 16] = [
    0,
    0,
    0x0080000000000000,
    0x0000002222222222,
    0x1111111111111110,
    0x4000011111111111,
    0x1111111111111110,
    0x0000011111111111,
    0,
    0,
    0,
    0,
    0,
    0,
    0,
    0,
];

// The classes by which a byte is told, one bit each. A letter:
pub const LETTER: u64 = 1;

// A digit.
pub const DIGIT: u64 = 2;

// A letter or a digit.
pub const ALNUM: u64 = 3;

// The first byte of a key: a letter or `_`.
pub const KEY_START: u64 = 5;

// The first byte of a name: a letter, a digit or `_`.
pub const NAME_START: u64 = 7;

// A later byte of a name or a key: a letter, a digit, `_` or `-`.
pub const NAME_PART: u64 = 15;

// Whether a lent table gives the byte a class of the mask.
pub fn is_of(table: &[u64; 16], mask: u64, b: u8) -> bool
    ensures { result ≡ is_of table.now mask b }
{
    (table[(b / 16) as usize] >> ((b % 16) * 4)) & mask != 0
}

// An ASCII letter.
pub fn is_letter(b: u8) -> bool
    ensures { result ≡ is_letter b }
{
    let table = CLASS;
    is_of(&table, LETTER, b)
}

// An ASCII digit.
pub fn is_digit(b: u8) -> bool
    ensures { result ≡ is_digit b }
{
    let table = CLASS;
    is_of(&table, DIGIT, b)
}

// An ASCII letter or digit: a byte of a subtag.
pub fn is_alnum(b: u8) -> bool
    ensures { result ≡ is_alnum b }
{
    let table = CLASS;
    is_of(&table, ALNUM, b)
}

// The first byte of a name behind `#` or `.`.
pub fn is_css_ident_start(b: u8) -> bool
    ensures { result ≡ is_name_start b }
{
    let table = CLASS;
    is_of(&table, NAME_START, b)
}

// A later byte of a name or a key.
pub fn is_attr_ident_part(b: u8) -> bool
    ensures { result ≡ is_name_part b }
{
    let table = CLASS;
    is_of(&table, NAME_PART, b)
}

// The first byte of a key.
pub fn is_attr_ident_start(b: u8) -> bool
    ensures { result ≡ is_key_start b }
{
    let table = CLASS;
    is_of(&table, KEY_START, b)
}

// Behind the bytes from i on that a lent table gives a class of the mask.
pub fn run_end(table: &[u64; 16], mask: u64, s: &[u8], i: usize) -> usize
    ensures { result ≡ i + run (is_of table.now mask) (drop i s.now) }
{
    for k in i..s.len() {
        if !is_of(table, mask, s[k]) {
            return k;
        }
    }
    i.max(s.len())
}

// Behind the later bytes of a name from i on.
pub fn part_end(s: &[u8], i: usize) -> usize
    ensures { result ≡ i + run is_name_part (drop i s.now) }
{
    let table = CLASS;
    run_end(&table, NAME_PART, s, i)
}

// Behind a name from i on whose first byte has a class of the mask; i where none begins there.
pub fn front_end(table: &[u64; 16], first: u64, s: &[u8], i: usize) -> usize
    ensures { result ≡ i + front_run (is_of table.now first) (is_of table.now 15) (drop i s.now) }
{
    if s.len() <= i {
        return i;
    }
    if !is_of(table, first, s[i]) {
        return i;
    }
    run_end(table, NAME_PART, s, i + 1)
}

// Behind the name from i on, as it stands behind `#` or `.`; i where none begins there.
pub fn name_end(s: &[u8], i: usize) -> usize
    ensures { result ≡ i + front_run is_name_start is_name_part (drop i s.now) }
{
    let table = CLASS;
    front_end(&table, NAME_START, s, i)
}

// Behind the key from i on; i where none begins there.
pub fn key_end(s: &[u8], i: usize) -> usize
    ensures { result ≡ i + front_run is_key_start is_name_part (drop i s.now) }
{
    let table = CLASS;
    front_end(&table, KEY_START, s, i)
}

// Behind the bare name from i on; i where none begins there.
pub fn bare_end(s: &[u8], i: usize) -> usize
    ensures { result ≡ i + front_run is_letter is_name_part (drop i s.now) }
{
    let table = CLASS;
    front_end(&table, LETTER, s, i)
}
