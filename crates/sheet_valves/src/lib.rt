// The dealers' table: which valve turns which wheel of which variant.
#![tactic(auto)]

ghost use Rattle.std.specs.Prelude.{◌≡◌, [], ◌∷◌, ◌≤◌, cond, ltb, Err, None, Ok};
ghost use Rattle.sheet_valves.specs.Tables.{variant_count, max_valve, empty_table, with_setting};
ghost use Rattle.sheet_valves.specs.Pairs.{one_valve, repeats, first_pair};
ghost use Rattle.sheet_valves.specs.Settings.{heard_paper, wheel_of, setting_from, setting_of, read_setting};
ghost use Rattle.sheet_valves.specs.Inner.{key_no, row_no, IsFound};
ghost use Rattle.base_refusals.specs.declared.Refusal.TheVariants.{BadSetting};
ghost use Rattle.set_table.specs.Types.{max_keys, two, name_bytes, value_bytes};
ghost use Rattle.set_table.specs.Rows.{meaning_of};

use base_refusals::Refusal;
use set_table::{Attrs, Name, Slot, Value};

// The greatest number that a valve may have.
pub const MAX_VALVE: u64 = 255;

#[derive(Clone, Copy)]
pub struct Cell {
    pub valve: Option<u8>,
}

// Variant by variant, in each front-left, front-right, rear-left, rear-right.
#[derive(Clone, Copy)]
pub struct Table {
    pub cells: [Cell; Table::CELLS],
}

// What a block that counts says: the valve of one wheel of one variant. Wheels are counted from 0.
#[derive(Clone, Copy)]
pub struct Setting {
    pub variant: u8,
    pub wheel: u8,
    pub valve: u8,
}

// The rows of the three keys of a set, each `Attrs::KEYS` where no slot has the key.
#[derive(Clone, Copy)]
struct KeyRows {
    variant: usize,
    wheel: usize,
    valve: usize,
}

impl Table {
    pub const VARIANTS: usize = 30;

    pub const WHEELS: usize = 4;

    pub const CELLS: usize = 120;

    // The table with nothing in it: what a refusal hands out.
    pub fn empty() -> Self
        ensures { result ≡ empty_table }
    {
        let cell = Cell { valve: None };
        let cells = [cell; Self::CELLS];
        Table { cells: cells }
    }
}

// The table with a setting put into its cell; a setting for no cell changes nothing.
pub fn put(table: Table, setting: Setting) -> Table
    ensures { result ≡ with_setting table setting }
{
    let variant = setting.variant as usize;
    let wheel = setting.wheel as usize;
    if variant == 0 {
        return table;
    }
    if Table::VARIANTS < variant {
        return table;
    }
    if Table::WHEELS <= wheel {
        return table;
    }
    let mut t = table;
    let cell = Cell {
        valve: Some(setting.valve),
    };
    t.cells[(variant - 1) * Table::WHEELS + wheel] = cell;
    t
}

// Whether two cells have one valve.
fn one_valve(a: Option<u8>, b: Option<u8>) -> bool
    ensures { result ≡ one_valve a b }
{
    match a {
        None => false,
        Some(x) => match b {
            None => false,
            Some(y) => x == y,
        },
    }
}

// Whether the cell has the valve of another.
fn same_valve(a: Cell, b: Cell) -> bool
    ensures { result ≡ one_valve a.valve b.valve }
{
    let x = a.valve;
    let y = b.valve;
    one_valve(x, y)
}

// Whether one of four wheels has the valve of another.
fn row_repeats(a: Cell, b: Cell, c: Cell, d: Cell) -> bool
    ensures { result ≡ repeats (a.valve ∷ b.valve ∷ c.valve ∷ d.valve ∷ []) }
{
    if same_valve(a, b) {
        return true;
    }
    if same_valve(a, c) {
        return true;
    }
    if same_valve(a, d) {
        return true;
    }
    if same_valve(b, c) {
        return true;
    }
    if same_valve(b, d) {
        return true;
    }
    same_valve(c, d)
}

// The first variant that has one valve at two wheels, or 0 where none has.
pub fn first_pair(table: Table) -> usize
    ensures { result ≡ first_pair table }
{
    for v in 0..Table::VARIANTS {
        let at = v * Table::WHEELS;
        let a = table.cells[at];
        let b = table.cells[at + 1];
        let c = table.cells[at + 2];
        let d = table.cells[at + 3];
        if row_repeats(a, b, c, d) {
            return v + 1;
        }
    }
    0
}

// The wheel that a value names, counted from 0; their count where it names none.
fn wheel_of<'a>(first: &'a [u8], second: &'a [u8], value: Value) -> u8
    ensures { result ≡ wheel_of (value_bytes (two first.now second.now) value) }
{
    if set_keyed::value_is(first, second, value, b"front-left") {
        return 0;
    }
    if set_keyed::value_is(first, second, value, b"front-right") {
        return 1;
    }
    if set_keyed::value_is(first, second, value, b"rear-left") {
        return 2;
    }
    if set_keyed::value_is(first, second, value, b"rear-right") {
        return 3;
    }
    Table::WHEELS as u8
}

// The setting of a variant, a wheel and a valve, where they are of a cell.
fn settle(variant: u64, wheel: u8, valve: u64) -> Result<Option<Setting>, Refusal>
    requires { (variant ≤ variant_count) × (valve ≤ max_valve) }
    ensures { result ≡ setting_from variant wheel valve }
{
    if variant == 0 {
        return Err(Refusal::BadSetting);
    }
    if Table::WHEELS <= wheel as usize {
        return Err(Refusal::BadSetting);
    }
    let s = Setting {
        variant: variant as u8,
        wheel: wheel,
        valve: valve as u8,
    };
    Ok(Some(s))
}

// What the three values say.
fn read_setting<'a>(
    first: &'a [u8],
    second: &'a [u8],
    variant: Value,
    wheel: Value,
    valve: Value,
) -> Result<Option<Setting>, Refusal>
    ensures { result ≡ read_setting (value_bytes (two first.now second.now) variant) (value_bytes (two first.now second.now) wheel) (value_bytes (two first.now second.now) valve) }
{
    match set_keyed::value_number(first, second, variant, Table::VARIANTS as u64) {
        None => Err(Refusal::BadSetting),
        Some(v) => match set_keyed::value_number(first, second, valve, MAX_VALVE) {
            None => Err(Refusal::BadSetting),
            Some(x) => settle(v, wheel_of(first, second, wheel), x),
        },
    }
}

// Which of the three keys a name is, counted from 0; their count where it is none.
fn key_no<'a>(first: &'a [u8], second: &'a [u8], name: Name) -> u8
    ensures { result ≡ key_no (name_bytes (two first.now second.now) name) }
{
    if set_table::is_named(first, second, name, b"variant") {
        return 0;
    }
    if set_table::is_named(first, second, name, b"wheel") {
        return 1;
    }
    if set_table::is_named(first, second, name, b"valve") {
        return 2;
    }
    3
}

// The row of a slot among the first n, or `Attrs::KEYS` where it has none.
fn row_no(slot: Slot, n: usize) -> usize
    ensures { result ≡ row_no n slot }
{
    match slot {
        Slot::Id => Attrs::KEYS,
        Slot::Class => Attrs::KEYS,
        Slot::Key(k) => {
            let i = k as usize;
            if i < n {
                return i;
            }
            Attrs::KEYS
        }
    }
}

// The row that was found first.
fn earlier(row: usize, next: usize) -> usize
    ensures { result ≡ cond (ltb row max_keys) row next }
{
    if row < Attrs::KEYS {
        return row;
    }
    next
}

// The rows of the three keys, found in one walk over the slots. By value and each for itself they took longer: the set's arrays are copied for each call.
fn key_rows<'a>(first: &'a [u8], second: &'a [u8], set: Attrs) -> KeyRows
    ensures { IsFound (two first.now second.now) set result }
{
    let mut variant = Attrs::KEYS;
    let mut wheel = Attrs::KEYS;
    let mut valve = Attrs::KEYS;
    let n = (set.norder as usize).min(Attrs::SLOTS);
    for p in &set.order[..n] {
        let i = row_no(p.slot, set.nkey as usize);
        if Attrs::KEYS <= i {
            continue;
        }
        let row = set.keys[i];
        let name = row.name;
        match key_no(first, second, name) {
            0 => variant = earlier(variant, i),
            1 => wheel = earlier(wheel, i),
            2 => valve = earlier(valve, i),
            _ => {}
        }
    }
    KeyRows {
        variant,
        wheel,
        valve,
    }
}

// What the two other keys say, where the first isn't there.
fn say_without(wheel: usize, valve: usize) -> Result<Option<Setting>, Refusal>
    ensures { result ≡ cond (ltb wheel max_keys) (Err BadSetting) (cond (ltb valve max_keys) (Err BadSetting) (Ok None)) }
{
    if wheel < Attrs::KEYS {
        return Err(Refusal::BadSetting);
    }
    if valve < Attrs::KEYS {
        return Err(Refusal::BadSetting);
    }
    Ok(None)
}

// What a block's set says of the table.
pub fn setting_of<'a>(
    first: &'a [u8],
    second: &'a [u8],
    set: Attrs,
) -> Result<Option<Setting>, Refusal>
    ensures value { result ≡ setting_of (meaning_of (two first.now second.now) set) }
    ensures result_value { heard_paper result ≡ heard_paper (setting_of (meaning_of (two first.now second.now) set)) }
{
    let rows = key_rows(first, second, set);
    let v = rows.variant;
    let w = rows.wheel;
    let x = rows.valve;
    if Attrs::KEYS <= v {
        return say_without(w, x);
    }
    if Attrs::KEYS <= w {
        return Err(Refusal::BadSetting);
    }
    if Attrs::KEYS <= x {
        return Err(Refusal::BadSetting);
    }
    let variant = set.keys[v];
    let wheel = set.keys[w];
    let valve = set.keys[x];
    read_setting(first, second, variant.value, wheel.value, valve.value)
}
