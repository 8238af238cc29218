// Whether a value, an id, a class or a key may stand in a table over its texts.
#![tactic(auto)]

ghost use Rattle.std.specs.Prelude.{◌≡◌, not, cond, ◌&&◌};
ghost use Rattle.base_lists.specs.Lists.{all};
ghost use Rattle.base_bytes.specs.Bytes.{is_space};
ghost use Rattle.text_names.specs.Names.{is_key};
ghost use Rattle.block_grammar.specs.Close.{no_lf};
ghost use Rattle.set_canon.specs.Canon.{is_class_value};
ghost use Rattle.set_table.specs.Types.{two, range_bytes, name_bytes, value_bytes};
ghost use Rattle.set_table.specs.Rows.{Ident};
ghost use Rattle.set_table.specs.Shape.{is_free};
ghost use Rattle.set_values.specs.Values.{range_ok, name_ok, value_ok, ident_ok, class_ok, key_ok};

use set_table::{Name, Origin, Row, Text, Value};

// Whether a range lies inside its text, on character boundaries.
fn range_ok<'a>(first: &'a [u8], second: &'a [u8], origin: Origin, from: usize, to: usize) -> bool
    ensures { result ≡ range_ok (two first.now second.now) origin from to }
{
    if to < from {
        return false;
    }
    let text = set_table::text_of(first, second, origin);
    if !text_utf8::is_char_boundary(text, from) {
        return false;
    }
    text_utf8::is_char_boundary(text, to)
}

// Whether no byte is an LF.
fn no_lf(s: &[u8]) -> bool
    ensures { result ≡ no_lf s.now }
{
    s.iter().all(|b| *b != b'\n')
}

// Whether a range is one of its text without an LF.
fn flat_range<'a>(first: &'a [u8], second: &'a [u8], origin: Origin, from: usize, to: usize) -> bool
    ensures { result ≡ (range_ok (two first.now second.now) origin from to && no_lf (range_bytes (two first.now second.now) origin from to)) }
{
    if !range_ok(first, second, origin, from, to) {
        return false;
    }
    no_lf(set_table::range_of(first, second, origin, from, to))
}

// Whether a value's range is one of its text, and no LF stands in it: unescaping neither drops nor adds one.
fn value_ok<'a>(first: &'a [u8], second: &'a [u8], v: Value) -> bool
    ensures { result ≡ value_ok (two first.now second.now) v }
{
    let x = v.text;
    match x {
        Text::Plain(o, f, t) => flat_range(first, second, o, f as usize, t as usize),
        Text::Quoted(o, f, t) => flat_range(first, second, o, f as usize, t as usize),
        Text::Empty => true,
    }
}

// Whether an id is missing, or a value that may stand.
pub fn ident_ok<'a>(first: &'a [u8], second: &'a [u8], given: bool, v: Value) -> bool
    ensures { result ≡ ident_ok (two first.now second.now) (cond given (Ident.given v) Ident.missing) }
{
    if given {
        return value_ok(first, second, v);
    }
    true
}

// Whether no byte is whitespace.
fn no_space(s: &[u8]) -> bool
    ensures { result ≡ all (λ b. not (is_space b)) s.now }
{
    s.iter().all(|b| !base_bytes::is_space(*b))
}

// Whether each byte is whitespace.
fn only_space(s: &[u8]) -> bool
    ensures { result ≡ all is_space s.now }
{
    s.iter().all(|b| base_bytes::is_space(*b))
}

// Whether bytes are free of whitespace or nothing but whitespace.
fn class_bytes(s: &[u8]) -> bool
    ensures { result ≡ is_class_value s.now }
{
    if no_space(s) {
        return true;
    }
    only_space(s)
}

// The same of a value: unescaping leaves whitespace as it is, and makes none.
fn class_value<'a>(first: &'a [u8], second: &'a [u8], v: Value) -> bool
    ensures { result ≡ is_class_value (value_bytes (two first.now second.now) v) }
{
    let x = v.text;
    match x {
        Text::Plain(o, f, t) => class_bytes(set_table::range_of(
            first, second, o, f as usize, t as usize,
        )),
        Text::Quoted(o, f, t) => class_bytes(set_table::range_of(
            first, second, o, f as usize, t as usize,
        )),
        Text::Empty => true,
    }
}

// Whether a class may stand.
pub fn class_ok<'a>(first: &'a [u8], second: &'a [u8], v: Value) -> bool
    ensures { result ≡ class_ok (two first.now second.now) v }
{
    if !value_ok(first, second, v) {
        return false;
    }
    class_value(first, second, v)
}

// Whether bytes are a key that is neither `id` nor `class`.
fn key_name(s: &[u8]) -> bool
    ensures { result ≡ (is_key s.now && is_free s.now) }
{
    if !text_names::is_whole(text_names::is_identifier(s)) {
        return false;
    }
    if base_lists::same_bytes(s, b"id") {
        return false;
    }
    !base_lists::same_bytes(s, b"class")
}

// Whether a name is of its text, and a key that is neither `id` nor `class`.
fn name_ok<'a>(first: &'a [u8], second: &'a [u8], m: Name) -> bool
    ensures { result ≡ (name_ok (two first.now second.now) m && (is_key (name_bytes (two first.now second.now) m) && is_free (name_bytes (two first.now second.now) m))) }
{
    match m {
        Name::Range(o, f, t) => {
            if !range_ok(first, second, o, f as usize, t as usize) {
                return false;
            }
            key_name(set_table::range_of(first, second, o, f as usize, t as usize))
        }
        Name::Lang => true,
    }
}

// Whether a key's row may stand.
pub fn key_ok<'a>(first: &'a [u8], second: &'a [u8], row: Row) -> bool
    ensures { result ≡ key_ok (two first.now second.now) row }
{
    let m = row.name;
    if !name_ok(first, second, m) {
        return false;
    }
    let v = row.value;
    value_ok(first, second, v)
}
