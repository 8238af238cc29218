// A list of aligns, vertical aligns or widths laid down on columns, one piece after the other.
ghost use Rattle.std.specs.Prelude.{◌≡◌};
ghost use Rattle.std.proofs.Math.Seq.{slice};
ghost use Rattle.base_lists.specs.Lists.{same};
ghost use Rattle.set_marks.specs.Marks.{bytes_in};
ghost use Rattle.set_table.specs.Types.{two, range_bytes};
ghost use Rattle.set_commas.specs.Commas.{cut_range, cuts_of};
ghost use Rattle.set_columns.specs.Columns.{align_of, valign_of};
ghost use Rattle.set_columns.specs.Inner.{laid_on, align_on, valign_on, width_on, word_at, range_at};

use crate::{Align, Column, Columns, Valign, Width};
use set_commas::Cut;
use set_table::Origin;

// Whether a piece of a value is the word.
fn is_word(s: &[u8], from: usize, to: usize, quoted: bool, word: &[u8]) -> bool
    ensures { result ≡ same (bytes_in quoted (slice from to s.now)) word.now }
{
    let piece = set_table::bytes_of(s, from, to);
    if quoted {
        return text_escapes::same_unescaped(piece, word);
    }
    base_lists::same_bytes(piece, word)
}

// The align that a piece of a value names.
fn align_of(s: &[u8], from: usize, to: usize, quoted: bool) -> Option<Align>
    ensures { result ≡ align_of (bytes_in quoted (slice from to s.now)) }
{
    if is_word(s, from, to, quoted, b"left") {
        return Some(Align::Left);
    }
    if is_word(s, from, to, quoted, b"right") {
        return Some(Align::Right);
    }
    if is_word(s, from, to, quoted, b"center") {
        return Some(Align::Center);
    }
    None
}

// The vertical align that a piece of a value names.
fn valign_of(s: &[u8], from: usize, to: usize, quoted: bool) -> Option<Valign>
    ensures { result ≡ valign_of (bytes_in quoted (slice from to s.now)) }
{
    if is_word(s, from, to, quoted, b"top") {
        return Some(Valign::Top);
    }
    if is_word(s, from, to, quoted, b"middle") {
        return Some(Valign::Middle);
    }
    if is_word(s, from, to, quoted, b"bottom") {
        return Some(Valign::Bottom);
    }
    None
}

fn with_align(c: Column, a: Option<Align>) -> Column
    ensures { result ≡ align_on a c }
{
    let v = c.valign;
    let w = c.width;
    Column {
        align: a,
        valign: v,
        width: w,
    }
}

fn with_valign(c: Column, v: Option<Valign>) -> Column
    ensures { result ≡ valign_on v c }
{
    let a = c.align;
    let w = c.width;
    Column {
        align: a,
        valign: v,
        width: w,
    }
}

// The column with the align that a piece of a value names, or with the vertical one.
fn with_word(c: Column, s: &[u8], from: usize, to: usize, quoted: bool, vertical: bool) -> Column
    ensures { result ≡ word_at vertical quoted s.now (cut_range from to) c }
{
    if vertical {
        return with_valign(c, valign_of(s, from, to, quoted));
    }
    with_align(c, align_of(s, from, to, quoted))
}

pub(crate) fn with_width(c: Column, w: Option<Width>) -> Column
    ensures { result ≡ width_on w c }
{
    let a = c.align;
    let v = c.valign;
    Column {
        align: a,
        valign: v,
        width: w,
    }
}

// The columns with the aligns of a value, or the vertical ones.
pub(crate) fn words_over(
    columns: [Column; Columns::MOST],
    s: &[u8],
    quoted: bool,
    vertical: bool,
) -> [Column; Columns::MOST]
    ensures { result ≡ laid_on (word_at vertical quoted s.now) (cuts_of quoted s.now) 0 columns }
{
    let mut out = columns;
    let mut i: usize = 0;
    let mut at: usize = 0;
    'pieces: loop {
        if Columns::MOST <= i {
            break 'pieces out;
        }
        match set_commas::cut_from(s, at, quoted) {
            Cut::Last(to) => {
                let c = out[i];
                out[i] = with_word(c, s, at, to, quoted, vertical);
                break 'pieces out;
            }
            Cut::Comma(to, next) => {
                let c = out[i];
                out[i] = with_word(c, s, at, to, quoted, vertical);
                i += 1;
                at = next;
                continue 'pieces;
            }
        }
    }
}

// The columns with the widths of the value that stands from `from` up to `to` in the text of the origin: a range of that text for each piece.
pub(crate) fn widths_over<'a>(
    columns: [Column; Columns::MOST],
    first: &'a [u8],
    second: &'a [u8],
    origin: Origin,
    from: u16,
    to: u16,
    quoted: bool,
) -> [Column; Columns::MOST]
    ensures { result ≡ laid_on (range_at origin from) (cuts_of quoted (range_bytes (two first.now second.now) origin from to)) 0 columns }
{
    let base = from as usize;
    let s = set_table::range_of(first, second, origin, base, to as usize);
    let mut out = columns;
    let mut i: usize = 0;
    let mut at: usize = 0;
    'pieces: loop {
        if Columns::MOST <= i {
            break 'pieces out;
        }
        match set_commas::cut_from(s, at, quoted) {
            Cut::Last(end) => {
                let c = out[i];
                out[i] = with_width(
                    c,
                    Some(Width::Range(origin, (base + at) as u16, (base + end) as u16)),
                );
                break 'pieces out;
            }
            Cut::Comma(end, next) => {
                let c = out[i];
                out[i] = with_width(
                    c,
                    Some(Width::Range(origin, (base + at) as u16, (base + end) as u16)),
                );
                i += 1;
                at = next;
                continue 'pieces;
            }
        }
    }
}
