// What a request line asks for: its word and numbers by value, its texts laid into two buffers.
use crate::fields::Said;
use crate::{fields, merging};

// The number of a request's word in the list below, its numbers, that of its mode, how many bytes its two texts have, and how many the join
// buffer has.
#[derive(Clone, Copy)]
pub(crate) struct Ask {
    pub(crate) word: usize,
    pub(crate) x: usize,
    pub(crate) y: usize,
    pub(crate) mode: usize,
    pub(crate) n: usize,
    pub(crate) m: usize,
    pub(crate) cap: usize,
}

// The numbers of the first word that needs the join buffer, that needs one for canonical text too, that needs only this, that merges sets of two
// texts, of those that then take `loose` out of the merged set and ask for its columns, of those that do so with one block's, of those that ask for
// the dealers' table and for a sheet, and of the first leaf, the first that counts or takes a part, the two behind those, and the first that has two fields.
pub(crate) const JOINS: usize = 5;

pub(crate) const BLOCKS: usize = 10;

pub(crate) const SETS: usize = 12;

pub(crate) const PAIRS: usize = 17;

pub(crate) const LOOSE_PAIR: usize = 19;

pub(crate) const COLUMNS_PAIR: usize = 20;

pub(crate) const LOOSE: usize = 21;

pub(crate) const COLUMNS: usize = 22;

pub(crate) const VARIANTS: usize = 23;

pub(crate) const SHEET: usize = 24;

pub(crate) const LEAF: usize = 25;

pub(crate) const MEASURE: usize = 31;

pub(crate) const TITLE: usize = 38;

pub(crate) const CLASS: usize = 39;

pub(crate) const LEAF_AT: usize = 40;
// How many words there are, the number of a request that is none known.
const UNKNOWN: usize = 45;

// How many fields a request has, and those that hold its numbers and its texts, 0 for none.
#[derive(Clone, Copy)]
struct Form {
    count: usize,
    x: usize,
    y: usize,
    a: usize,
    b: usize,
}

// Reads a request. Two lines of one text that are merged are both laid into a.
pub(crate) fn read(line: &[u8], a: &mut [u8], b: &mut [u8]) -> Ask {
    let word = word_of(line);
    let letter = letter_of(word);
    let form = form_of(letter);
    let second = lay(line, form.b, b);
    let first = lay_first(line, form.a, letter, a, fields::part(b, 0, second.n));
    asked(line, word, form, first, second)
}

// The number of a request's word, which is two fields where the first is `leaf`.
fn word_of(line: &[u8]) -> usize {
    fields::index_of(
        b"parse_attrs/is_valid_attr_payload/valid_wrapped_attr_continuation/payload_at/attr_payload_provably_invalid/standalone_attrs_block_len/indented_wrapped_attrs_block_len/attrs_block_len_at/refused_brace_run/ends_in_refused_brace_run/parse_standalone_attrs_block/wrapped_attrs_run_at/parse_standalone_attrs/merge/merge_leading/read_attrs_at/rows/merge2/merge2_block/loose2/columns2/loose/columns/variants/sheet/leaf is_utf8/leaf is_identifier/leaf is_css_identifier/leaf is_boolean_attr_name/leaf is_language_tag/leaf is_blank_line/leaf check_text/leaf char_count/leaf indent_columns/leaf columns/leaf trim_ascii/leaf trim_ascii_start/leaf trim_ascii_end/leaf unescape_title/leaf is_class/leaf is_char_boundary/leaf line/leaf line_from/leaf piece_at/leaf same_unescaped",
        fields::part(line, 0, word_end(line)),
    )
}

// Where the word ends.
fn word_end(line: &[u8]) -> usize {
    if line.starts_with(b"leaf ") {
        return fields::find(line, 5, b' ');
    }
    fields::find(line, 0, b' ')
}

// A form, so that its table below has a line for each.
fn places(count: usize, x: usize, y: usize, a: usize, b: usize) -> Form {
    Form { count, x, y, a, b }
}

// The letter of a word's form.
fn letter_of(word: usize) -> u8 {
    fields::byte_at(b"tttnnnnwntnwnmmrrppppnnttTTTTTTTTTTTTTTCNNNNM", word)
}

// The form by its letter: a text; a number and a text; two numbers and a text; a number, a mode and a text; two lines of one text; two texts; and
// of a leaf a text, a number, a number and a text, two texts.
fn form_of(letter: u8) -> Form {
    match letter {
        b't' => places(2, 0, 0, 1, 0),
        b'n' => places(3, 1, 0, 2, 0),
        b'w' => places(4, 1, 2, 3, 0),
        b'r' => places(4, 1, 0, 3, 0),
        b'm' => places(3, 0, 0, 1, 2),
        b'p' => places(3, 0, 0, 1, 2),
        b'T' => places(3, 0, 0, 2, 0),
        b'C' => places(3, 2, 0, 0, 0),
        b'N' => places(4, 2, 0, 3, 0),
        b'M' => places(4, 0, 0, 2, 3),
        _ => places(0, 0, 0, 0, 0),
    }
}

// Lays a field's text into a buffer, none for no field.
fn lay(line: &[u8], k: usize, text: &mut [u8]) -> Said {
    if k == 0 {
        return fields::good(0);
    }
    fields::unhex(fields::field(line, b' ', k), text)
}

// Lays the first text, with the second behind it where they are lines of one.
fn lay_first(line: &[u8], k: usize, letter: u8, a: &mut [u8], second: &[u8]) -> Said {
    let first = lay(line, k, a);
    if letter != b'm' {
        return first;
    }
    merging::behind(a, first, second)
}

// What is asked, with a number that is none known where a field is bad or there are too many or too few.
fn asked(line: &[u8], word: usize, form: Form, first: Said, second: Said) -> Ask {
    let x = number_at(line, form.x);
    let y = number_at(line, form.y);
    let cap = cap_of(line, word, form.count);
    let bad = first.bad | second.bad | x.bad | y.bad | cap.bad;
    Ask {
        word: good_word(word, bad),
        x: x.n,
        y: y.n,
        mode: fields::index_of(b"strict/loose", fields::field(line, b' ', 2)),
        n: first.n,
        m: second.n,
        cap: cap.n,
    }
}

// The word of a request that has no bad field.
fn good_word(word: usize, bad: u8) -> usize {
    if bad == 0 {
        return word;
    }
    UNKNOWN
}

// A field's number, 0 for no field.
fn number_at(line: &[u8], k: usize) -> Said {
    if k == 0 {
        return fields::good(0);
    }
    fields::number(fields::field(line, b' ', k))
}

// The length of the join buffer: what a field behind the others says, or that of the longest text. No leaf has such a field.
pub(crate) fn cap_of(line: &[u8], word: usize, count: usize) -> Said {
    let n = fields::count(line, b' ');
    if n == count {
        return fields::good(base_refusals::MAX_TEXT);
    }
    if LEAF <= word {
        return fields::bad();
    }
    if n < count {
        return fields::bad();
    }
    if n - count != 1 {
        return fields::bad();
    }
    cap_at(fields::field(line, b' ', count))
}

// The number behind `cap=`, up to the longest text.
pub(crate) fn cap_at(s: &[u8]) -> Said {
    if !s.starts_with(b"cap=") {
        return fields::bad();
    }
    let cap = fields::number(fields::part(s, 4, s.len()));
    if base_refusals::MAX_TEXT < cap.n {
        return fields::bad();
    }
    cap
}
