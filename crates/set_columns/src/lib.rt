// The column settings of a table: the lists `aligns`, `valigns` and `widths` of a set, column by column.
#![tactic(auto)]

mod lists;

ghost use Rattle.std.specs.Prelude.{◌≡◌, max, length};
ghost use Rattle.base_refusals.specs.Numbers.{outcome_no};
ghost use Rattle.base_refusals.specs.Orders.{order_no};
ghost use Rattle.set_table.specs.Types.{two};
ghost use Rattle.set_columns.specs.Columns.{no_columns, columns_of, columns_order, none_made, widths_by, found_widths};
ghost use Rattle.set_columns.specs.Inner.{laid_on, width_on, word_by, found_pieces, found_columns, found_made};

use base_refusals::Refusal;
use set_table::{Attrs, Origin, Text, Value};

// What a column says of the side on which its text stands.
#[derive(Clone, Copy, PartialEq, Eq)]
pub enum Align {
    Left,
    Right,
    Center,
}

// What a column says of the height at which its text stands.
#[derive(Clone, Copy, PartialEq, Eq)]
pub enum Valign {
    Top,
    Middle,
    Bottom,
}

// A column's width: none, that of a bare key, which has no bytes and no place, or the bytes of a range of one of the texts, which may be none.
#[derive(Clone, Copy, PartialEq, Eq)]
pub enum Width {
    Empty,
    Range(Origin, u16, u16),
}

#[derive(Clone, Copy, PartialEq, Eq)]
pub struct Column {
    pub align: Option<Align>,
    pub valign: Option<Valign>,
    pub width: Option<Width>,
}

// The first `count` columns count; those past it are unset.
#[derive(Clone, Copy, PartialEq, Eq)]
pub struct Columns {
    pub columns: [Column; Columns::MOST],
    pub count: u8,
}

// A table that is handed out, or the one without a column and why none is.
#[derive(Clone, Copy)]
pub struct Made {
    pub outcome: Result<(), Refusal>,
    pub table: Columns,
}

impl Columns {
    pub const MOST: usize = 32;

    // The table without a column: what a refusal hands out.
    pub fn empty() -> Self
        ensures { result ≡ no_columns }
    {
        let none = Column {
            align: None,
            valign: None,
            width: None,
        };
        let columns = [none; Self::MOST];
        Columns {
            columns: columns,
            count: 0,
        }
    }
}

// A refusal hands out the table without a column.
fn refuse(r: Refusal) -> Made
    ensures { result ≡ none_made r }
{
    let table = Columns::empty();
    Made {
        outcome: Err(r),
        table: table,
    }
}

// How many pieces a list has.
fn count_of<'a>(first: &'a [u8], second: &'a [u8], f: Option<Value>) -> usize
    ensures { result ≡ length (found_pieces (two first.now second.now) f) }
{
    match f {
        None => 0,
        Some(v) => set_commas::piece_count(
            set_marks::raw_bytes(first, second, v),
            set_marks::is_quoted(v),
        ),
    }
}

// The columns with the aligns of a list, or the vertical ones.
fn words_in<'a>(
    columns: [Column; Columns::MOST],
    first: &'a [u8],
    second: &'a [u8],
    f: Option<Value>,
    vertical: bool,
) -> [Column; Columns::MOST]
    ensures { result ≡ laid_on (word_by vertical) (found_pieces (two first.now second.now) f) 0 columns }
{
    match f {
        None => columns,
        Some(v) => lists::words_over(
            columns,
            set_marks::raw_bytes(first, second, v),
            set_marks::is_quoted(v),
            vertical,
        ),
    }
}

// The columns with the widths of a value: a bare key has one, without bytes.
fn widths_of<'a>(
    columns: [Column; Columns::MOST],
    first: &'a [u8],
    second: &'a [u8],
    value: Value,
) -> [Column; Columns::MOST]
    ensures { result ≡ laid_on width_on (widths_by (two first.now second.now) value.text) 0 columns }
{
    let x = value.text;
    match x {
        Text::Plain(o, f, t) => lists::widths_over(columns, first, second, o, f, t, false),
        Text::Quoted(o, f, t) => lists::widths_over(columns, first, second, o, f, t, true),
        Text::Empty => {
            let mut out = columns;
            let c = out[0];
            out[0] = lists::with_width(c, Some(Width::Empty));
            out
        }
    }
}

// The columns with the widths of a list.
fn widths_in<'a>(
    columns: [Column; Columns::MOST],
    first: &'a [u8],
    second: &'a [u8],
    f: Option<Value>,
) -> [Column; Columns::MOST]
    ensures { result ≡ laid_on width_on (found_widths (two first.now second.now) f) 0 columns }
{
    match f {
        None => columns,
        Some(v) => widths_of(columns, first, second, v),
    }
}

// The columns of three lists.
fn columns_of<'a>(
    first: &'a [u8],
    second: &'a [u8],
    a: Option<Value>,
    v: Option<Value>,
    w: Option<Value>,
) -> [Column; Columns::MOST]
    ensures { result ≡ found_columns (two first.now second.now) a v w }
{
    let none = Columns::empty();
    let columns = none.columns;
    let aligned = words_in(columns, first, second, a, false);
    let leveled = words_in(aligned, first, second, v, true);
    widths_in(leveled, first, second, w)
}

// The greater of two numbers.
fn greater(a: usize, b: usize) -> usize
    ensures { result ≡ max a b }
{
    if a <= b {
        return b;
    }
    a
}

// The table of a set's three lists.
fn table_of<'a>(first: &'a [u8], second: &'a [u8], set: Attrs) -> Made
    ensures { result ≡ found_made (two first.now second.now) set }
{
    let a = set_keyed::find(first, second, set, b"aligns");
    let v = set_keyed::find(first, second, set, b"valigns");
    let w = set_keyed::find(first, second, set, b"widths");
    let count = greater(
        count_of(first, second, a),
        greater(count_of(first, second, v), count_of(first, second, w)),
    );
    if Columns::MOST < count {
        return refuse(Refusal::TooManyColumns);
    }
    let columns = columns_of(first, second, a, v, w);
    let table = Columns {
        columns: columns,
        count: count as u8,
    };
    Made {
        outcome: Ok(()),
        table: table,
    }
}

// The columns that a set over two texts says: 1 and 2 of the first text, 1 and 2 of the second, 11, 18.
pub fn table_columns<'a>(first: &'a [u8], second: &'a [u8], set: Attrs) -> Made
    ensures value { result ≡ columns_of (two first.now second.now) set }
    ensures outcome_value { outcome_no result.outcome ≡ order_no (columns_order (two first.now second.now) set) }
{
    match text_checks::check_both(first, second) {
        Err(r) => refuse(r),
        Ok(()) => {
            if !set_wellformed::table_ok(first, second, set) {
                return refuse(Refusal::NotWellFormed);
            }
            table_of(first, second, set)
        }
    }
}
