// The canonical text of a set, measured and then written into lent memory.
#![tactic(auto)]

ghost use Rattle.std.specs.Prelude.{◌≡◌, true, [], ◌∷◌, ◌+◌, ◌≤◌, min, length};
ghost use Rattle.std.proofs.lemmas.List.Edits.{sets};
ghost use Rattle.base_refusals.specs.Numbers.{max_text};
ghost use Rattle.base_refusals.specs.Orders.{on_paper};
ghost use Rattle.set_canon.specs.Canon.{marked, escape, canon};
ghost use Rattle.set_table.specs.Types.{two, value_bytes, zero_row};
ghost use Rattle.set_table.specs.Rows.{listed_of, meaning_of};
ghost use Rattle.set_writer.specs.Write.{wrote_paper, room_order, wrote_of, content_after, writer_order, attrs_wrote, attrs_content};
ghost use Rattle.set_marks.specs.Marks.{bytes_in};
ghost use Rattle.set_writer.specs.Inner.{lead_byte, item_text, items_text, closing_bytes, put_if, wrote_to, max_item, max_items, id_pairs, key_pairs, class_pairs};

use base_refusals::Refusal;
use set_table::{Attrs, Name, Origin, Row, Slot, Text, Value};

// The lesser of two numbers.
fn least(a: usize, b: usize) -> usize
    ensures { result ≡ min a b }
{
    a.min(b)
}

// Writes a byte with its backslash.
fn put_marked(out: &mut [u8], at: usize, b: u8) -> usize
    requires { at + length (marked b) ≤ length out.old }
    ensures value { result ≡ at + length (marked b) }
    ensures out_after { out.new ≡ sets out.old at (marked b) }
{
    if set_marks::is_marked(b) {
        out[at] = b'\\';
        out[at + 1] = b;
        return at + 2;
    }
    out[at] = b;
    at + 1
}

// Writes a value with its backslashes.
fn put_escaped(out: &mut [u8], at: usize, s: &[u8], quoted: bool) -> usize
    requires { at + length (escape (bytes_in quoted s.now)) ≤ length out.old }
    ensures value { result ≡ at + length (escape (bytes_in quoted s.now)) }
    ensures out_after { out.new ≡ sets out.old at (escape (bytes_in quoted s.now)) }
{
    let mut k = at;
    let mut i = 0;
    while let Some((b, next)) = set_marks::value_piece(s, i, quoted) {
        k = put_marked(out, k, b);
        i = next;
    }
    k
}

// The byte before an item: a brace before the first, else a space.
fn lead(at: usize) -> u8
    ensures { result ≡ lead_byte at }
{
    if at == 0 {
        return b'{';
    }
    b' '
}

// Writes an item.
fn put_item(out: &mut [u8], at: usize, name: &[u8], s: &[u8], quoted: bool) -> usize
    requires { at + length (item_text at name.now (bytes_in quoted s.now)) ≤ length out.old }
    ensures value { result ≡ at + length (item_text at name.now (bytes_in quoted s.now)) }
    ensures out_after { out.new ≡ sets out.old at (item_text at name.now (bytes_in quoted s.now)) }
{
    out[at] = lead(at);
    base_lists::put_bytes(out, at + 1, name);
    let k = at + 1 + name.len();
    out[k] = b'=';
    out[k + 1] = b'"';
    let e = put_escaped(out, k + 2, s, quoted);
    out[e] = b'"';
    e + 1
}

// Writes an item, or only measures it.
fn item<'a>(
    out: &mut [u8],
    at: usize,
    name: &[u8],
    first: &'a [u8],
    second: &'a [u8],
    value: Value,
    really: bool,
) -> usize
    requires at_le_max_items { (at ≤ max_items) × (length name.now ≤ max_text) }
    requires value_in_bounds { really ≡ true → at + length (item_text at name.now (value_bytes (two first.now second.now) value)) ≤ length out.old }
    ensures value { (result ≡ at + length (item_text at name.now (value_bytes (two first.now second.now) value))) × (result ≤ at + max_item) }
    ensures out_after { out.new ≡ put_if really out.old at (item_text at name.now (value_bytes (two first.now second.now) value)) }
{
    let s = set_marks::raw_bytes(first, second, value);
    let quoted = set_marks::is_quoted(value);
    if really {
        return put_item(out, at, name, s, quoted);
    }
    at + name.len() + set_marks::escaped_len(s, quoted) + 4
}

// The id's item, where there is an id.
fn id_item<'a>(
    out: &mut [u8],
    at: usize,
    first: &'a [u8],
    second: &'a [u8],
    given: bool,
    value: Value,
    really: bool,
) -> usize
    requires at_le_max_text { at ≤ max_text }
    requires value_in_bounds { really ≡ true → at + length (items_text at (id_pairs (two first.now second.now) given value)) ≤ length out.old }
    ensures value { result ≡ at + length (items_text at (id_pairs (two first.now second.now) given value)) }
    ensures out_after { out.new ≡ put_if really out.old at (items_text at (id_pairs (two first.now second.now) given value)) }
{
    if given {
        return item(out, at, b"id", first, second, value, really);
    }
    at
}

// A key's item.
fn key_item<'a>(
    out: &mut [u8],
    at: usize,
    first: &'a [u8],
    second: &'a [u8],
    row: Row,
    really: bool,
) -> usize
    requires at_le_max_text { at ≤ max_text }
    requires row_in_bounds { really ≡ true → at + length (items_text at (key_pairs (two first.now second.now) row)) ≤ length out.old }
    ensures value { result ≡ at + length (items_text at (key_pairs (two first.now second.now) row)) }
    ensures out_after { out.new ≡ put_if really out.old at (items_text at (key_pairs (two first.now second.now) row)) }
{
    let name = row.name;
    match name {
        Name::Range(o, f, t) => item(
            out,
            at,
            set_table::range_of(first, second, o, f as usize, t as usize),
            first,
            second,
            row.value,
            really,
        ),
        Name::Lang => item(out, at, b"lang", first, second, row.value, really),
    }
}

// An item for each of the first n classes.
fn class_items<'a>(
    out: &mut [u8],
    at: usize,
    first: &'a [u8],
    second: &'a [u8],
    classes: [Value; Attrs::CLASSES],
    n: usize,
    really: bool,
) -> usize
    requires at_le_max_text { at ≤ max_text }
    requires classes_in_bounds { really ≡ true → at + length (items_text at (class_pairs (two first.now second.now) n classes)) ≤ length out.old }
    ensures value { result ≡ at + length (items_text at (class_pairs (two first.now second.now) n classes)) }
    ensures out_after { out.new ≡ put_if really out.old at (items_text at (class_pairs (two first.now second.now) n classes)) }
{
    let many = least(n, Attrs::CLASSES);
    let mut k = at;
    for value in classes[..many].iter() {
        k = item(out, k, b"class", first, second, *value, really);
    }
    k
}

// Writes what closes the text behind `at` bytes.
fn put_close(out: &mut [u8], at: usize) -> usize
    requires { at + length (closing_bytes at) ≤ length out.old }
    ensures value { result ≡ at + length (closing_bytes at) }
    ensures out_after { out.new ≡ sets out.old at (closing_bytes at) }
{
    if at == 0 {
        out[0] = b'{';
        out[1] = b'}';
        return 2;
    }
    out[at] = b'}';
    at + 1
}

// Where the text ends that is closed behind `at` bytes.
fn close_end(at: usize) -> usize
    requires { at ≤ max_text }
    ensures { result ≡ at + length (closing_bytes at) }
{
    if at == 0 {
        return 2;
    }
    at + 1
}

// Closes the text, or only measures it.
fn close(out: &mut [u8], at: usize, cap: usize, really: bool) -> Result<usize, Refusal>
    requires at_le_max_text { at ≤ max_text }
    requires at_in_bounds { really ≡ true → (at + length (closing_bytes at) ≤ length out.old) × (at + length (closing_bytes at) ≤ cap) }
    ensures value { result ≡ wrote_to cap (at + length (closing_bytes at)) }
    ensures out_after { out.new ≡ put_if really out.old at (closing_bytes at) }
{
    if really {
        return Ok(put_close(out, at));
    }
    let end = close_end(at);
    if cap < end {
        return Err(Refusal::CanonTooLong);
    }
    Ok(end)
}

// The key of a slot that names no row.
fn no_row() -> Row
    ensures { result ≡ zero_row }
{
    Row {
        name: Name::Range(Origin::First, 0, 0),
        value: Value {
            text: Text::Plain(Origin::First, 0, 0),
        },
    }
}

// Writes the canonical text, or only measures it, slot by slot and as far as `cap` bytes.
fn walk<'a>(
    first: &'a [u8],
    second: &'a [u8],
    set: Attrs,
    out: &mut [u8],
    cap: usize,
    really: bool,
) -> Result<usize, Refusal>
    requires cap_le_max_text { cap ≤ max_text }
    requires set_len_bound { really ≡ true → (length (canon (listed_of (two first.now second.now) set)) ≤ cap) × (cap ≤ length out.old) }
    ensures value { result ≡ wrote_to cap (length (canon (listed_of (two first.now second.now) set))) }
    ensures out_after { out.new ≡ put_if really out.old 0 (canon (listed_of (two first.now second.now) set)) }
{
    let slots = least(set.norder as usize, Attrs::SLOTS);
    let keys = least(set.nkey as usize, Attrs::KEYS);
    let mut n = 0;
    for p in 0..slots {
        n = match set.order[p].slot {
            Slot::Id => id_item(out, n, first, second, set.given, set.id, really),
            Slot::Class => {
                let many = set.nclass as usize;
                class_items(out, n, first, second, set.classes, many, really)
            }
            Slot::Key(row) => {
                let k = row as usize;
                let row = if k < keys { set.keys[k] } else { no_row() };
                key_item(out, n, first, second, row, really)
            }
        };
        if cap < n {
            return Err(Refusal::CanonTooLong);
        }
    }
    close(out, n, cap, really)
}

// The canonical text of a set with every class that it lists, where it has room.
fn write_listed<'a>(
    first: &'a [u8],
    second: &'a [u8],
    set: Attrs,
    out: &mut [u8],
) -> Result<usize, Refusal>
    ensures value { result ≡ wrote_of (canon (listed_of (two first.now second.now) set)) (length out.old) }
    ensures out_after { out.new ≡ content_after out.old (canon (listed_of (two first.now second.now) set)) }
{
    let cap = least(out.len(), base_refusals::MAX_TEXT);
    walk(first, second, set, out, cap, false)?;
    walk(first, second, set, out, cap, true)
}

// The canonical text of a set at the front of lent memory, where it has room. Where fewer than two classes are listed there is nothing to compare.
pub fn write_set<'a>(
    first: &'a [u8],
    second: &'a [u8],
    set: Attrs,
    out: &mut [u8],
) -> Result<usize, Refusal>
    ensures value { result ≡ wrote_of (canon (meaning_of (two first.now second.now) set)) (length out.old) }
    ensures out_after { out.new ≡ content_after out.old (canon (meaning_of (two first.now second.now) set)) }
    ensures result_value { wrote_paper result ≡ on_paper (room_order (canon (meaning_of (two first.now second.now) set)) (length out.old)) (length (canon (meaning_of (two first.now second.now) set)) ∷ []) }
{
    if set.nclass < 2 {
        return write_listed(first, second, set, out);
    }
    let kept = set_once::classes_once(first, second, set);
    write_listed(first, second, kept, out)
}

// How many bytes the text has that lists every class of the set; nothing is written.
fn measure_listed<'a>(first: &'a [u8], second: &'a [u8], set: Attrs) -> Result<usize, Refusal>
    ensures { result ≡ wrote_of (canon (listed_of (two first.now second.now) set)) max_text }
{
    let mut none = [0u8; 1];
    walk(
        first,
        second,
        set,
        &mut none,
        base_refusals::MAX_TEXT,
        false,
    )
}

// How many bytes the canonical text of a set has, if it isn't too long: what `write_set` says for a buffer of 65,535 bytes, without the buffer.
pub fn measure_set<'a>(first: &'a [u8], second: &'a [u8], set: Attrs) -> Result<usize, Refusal>
    ensures value { result ≡ wrote_of (canon (meaning_of (two first.now second.now) set)) max_text }
    ensures result_value { wrote_paper result ≡ on_paper (room_order (canon (meaning_of (two first.now second.now) set)) max_text) (length (canon (meaning_of (two first.now second.now) set)) ∷ []) }
{
    if 2 <= set.nclass {
        let kept = set_once::classes_once(first, second, set);
        return measure_listed(first, second, kept);
    }
    measure_listed(first, second, set)
}

// The writer: the canonical text of a well-formed set at the front of lent memory, where it has room.
pub fn write_attrs<'a>(
    first: &'a [u8],
    second: &'a [u8],
    set: Attrs,
    out: &mut [u8],
) -> Result<usize, Refusal>
    ensures value { result ≡ attrs_wrote (two first.now second.now) set (length out.old) }
    ensures out_after { out.new ≡ attrs_content (two first.now second.now) set out.old }
    ensures result_value { wrote_paper result ≡ on_paper (writer_order (two first.now second.now) set (length out.old)) (length (canon (meaning_of (two first.now second.now) set)) ∷ []) }
{
    text_checks::check_both(first, second)?;
    if !set_wellformed::table_ok(first, second, set) {
        return Err(Refusal::NotWellFormed);
    }
    if set.norder == 0 {
        return Err(Refusal::EmptySet);
    }
    write_set(first, second, set, out)
}
