// The listing of a sheet: the dealers' table as text, a line for each variant, or the line of its refusal.
#![tactic(auto)]

ghost use Rattle.std.specs.Prelude.{◌≡◌, [], ◌∷◌, suc, ◌+◌, ◌≤◌, ◌<◌, length};
ghost use Rattle.base_lists.specs.Lists.{over};
ghost use Rattle.base_bytes.specs.Bytes.{tab};
ghost use Rattle.text_digits.specs.Decimal.{decimal};
ghost use Rattle.sheet_valves.specs.Tables.{variant_count};
ghost use Rattle.sheet_report.specs.Puts.{PutAt};
ghost use Rattle.sheet_listing.specs.Listing.{valve_field, fields_text, row_text, table_text, variant_field, refusal_text, listing, listing_in, max_listing};

use base_refusals::Refusal;
use sheet_valves::{Cell, Table};
use sheet_variants::Variants;

// No listing is longer: 30 lines of at most two digits, four fields of a tab and at most three digits, and the LF.
pub const LISTING: usize = 570;

// Writes a tab and a number.
fn put_number(out: &mut [u8], at: usize, n: usize) -> usize
    requires { at + 21 ≤ length out.old }
    ensures put_at { PutAt out.old at (tab ∷ decimal n) result out.new }
    ensures upper_bound { result ≤ at + 21 }
{
    let k = text_digits::put_field(out, at, n as u64);
    at + k
}

// Writes a tab and the valve of a cell.
fn put_cell(out: &mut [u8], at: usize, cell: Cell) -> usize
    requires { at + 4 ≤ length out.old }
    ensures put_at { PutAt out.old at (valve_field cell.valve) result out.new }
    ensures upper_bound { result ≤ at + 4 }
{
    let valve = cell.valve;
    match valve {
        None => {
            base_lists::put_bytes(out, at, b"\t-");
            at + 2
        }
        Some(n) => {
            let k = text_digits::put_field(out, at, n as u64);
            at + k
        }
    }
}

// Writes a field for each of four cells.
fn put_fields(out: &mut [u8], at: usize, a: Cell, b: Cell, c: Cell, d: Cell) -> usize
    requires { at + 16 ≤ length out.old }
    ensures put_at { PutAt out.old at (fields_text (a.valve ∷ b.valve ∷ c.valve ∷ d.valve ∷ [])) result out.new }
    ensures upper_bound { result ≤ at + 16 }
{
    let e = put_cell(out, at, a);
    let f = put_cell(out, e, b);
    let g = put_cell(out, f, c);
    put_cell(out, g, d)
}

// Writes the line of the variant behind the first v.
fn put_row(out: &mut [u8], at: usize, table: Table, v: usize) -> usize
    requires { (at + 19 ≤ length out.old) × (v < variant_count) }
    ensures put_at { PutAt out.old at (row_text table (suc v)) result out.new }
    ensures upper_bound { result ≤ at + 19 }
{
    let k = text_digits::put_decimal(out, at, (v + 1) as u64);
    let i = v * Table::WHEELS;
    let a = table.cells[i];
    let b = table.cells[i + 1];
    let c = table.cells[i + 2];
    let d = table.cells[i + 3];
    let e = put_fields(out, at + k, a, b, c, d);
    out[e] = b'\n';
    e + 1
}

// Lays the lines of all variants.
fn lay_table(table: Table, out: &mut [u8]) -> usize
    requires { max_listing ≤ length out.old }
    ensures put_at { PutAt out.old 0 (table_text table) result out.new }
    ensures upper_bound { result ≤ max_listing }
{
    let mut at = 0;
    for v in 0..Table::VARIANTS {
        at = put_row(out, at, table, v);
    }
    at
}

// Writes the variant that a refusal is of, where it is of one.
fn put_variant(out: &mut [u8], at: usize, variant: usize) -> usize
    requires { at + 21 ≤ length out.old }
    ensures put_at { PutAt out.old at (variant_field variant) result out.new }
    ensures upper_bound { result ≤ at + 21 }
{
    if variant == 0 {
        return at;
    }
    put_number(out, at, variant)
}

// Lays the line of a refusal.
fn lay_refused(line: usize, lines: usize, variant: usize, why: Refusal, out: &mut [u8]) -> usize
    requires { max_listing ≤ length out.old }
    ensures put_at { PutAt out.old 0 (refusal_text line lines variant why) result out.new }
    ensures upper_bound { result ≤ max_listing }
{
    base_lists::put_bytes(out, 0, b"refused");
    let a = put_number(out, 7, line);
    let b = put_number(out, a, lines);
    let c = put_number(out, b, base_refusals::number(why) as usize);
    let d = put_variant(out, c, variant);
    out[d] = b'\n';
    d + 1
}

// Lays the table or the refusal.
fn lay(answer: Variants, out: &mut [u8]) -> usize
    requires { max_listing ≤ length out.old }
    ensures put_at { PutAt out.old 0 (listing answer) result out.new }
    ensures upper_bound { result ≤ max_listing }
{
    let outcome = answer.outcome;
    match outcome {
        Err(why) => lay_refused(answer.line, answer.lines, answer.variant, why, out),
        Ok(()) => lay_table(answer.table, out),
    }
}

// The listing of what was read from a sheet, laid into lent memory, and how many bytes it has. Nothing is laid where the longest has no room.
pub fn lay_listing(answer: Variants, out: &mut [u8]) -> usize
    ensures value { result ≡ length (listing_in (length out.old) answer) }
    ensures out_after { out.new ≡ over (listing_in (length out.old) answer) out.old }
{
    if out.len() < LISTING {
        return 0;
    }
    lay(answer, out)
}
