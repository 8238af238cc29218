// The text of a report over sheets: thirteen lines of a name, a tab and a number, written into lent memory and read back.
#![tactic(auto)]

ghost use Rattle.std.specs.Prelude.{◌≡◌, [], ◌∷◌, ◌+◌, ◌≤◌, length};
ghost use Rattle.base_refusals.specs.Orders.{on_paper};
ghost use Rattle.text_digits.specs.Digits.{read_out};
ghost use Rattle.set_writer.specs.Write.{wrote_paper, room_order, wrote_of, content_after};
ghost use Rattle.sheet_report.specs.Puts.{PutAt};
ghost use Rattle.sheet_numbers.specs.Text.{totals_text, max_report};
ghost use Rattle.sheet_numbers.specs.Computed.{names_row, numbers_read, reported_by, Numbers};
ghost use Rattle.sheet_numbers.specs.Inner.{number_end, field_by, number_at};

use base_refusals::Refusal;
use sheet_totals::Totals;
use text_digits::Digits;

// No text of a report is longer: the names, and behind each a tab, at most 20 digits and an LF.
pub const REPORT: usize = 384;

// The numbers that a text has, or that it is no report; then the report is the empty one.
#[derive(Clone, Copy)]
pub struct Reported {
    pub good: bool,
    pub totals: Totals,
}

// The names one behind the other, each with its tab.
fn names() -> [u8; 111]
    ensures { result ≡ names_row }
{
    *b"sheets\tblocks\twrapped\trefused-1\trefused-2\trefused-6\trefused-7\trefused-10\tclasses\tkeys\tjoined\tlookahead\tlongest\t"
}

// Writes a tab, a number and an LF.
fn put_number(out: &mut [u8], at: usize, n: u64) -> usize
    requires { at + 22 ≤ length out.old }
    ensures put_at { PutAt out.old at (number_end n) result out.new }
    ensures upper_bound { result ≤ at + 22 }
{
    let k = text_digits::put_field(out, at, n);
    let end = at + k;
    out[end] = b'\n';
    end + 1
}

// Lays the thirteen lines: along the names, and at each tab the next number.
fn lay(totals: Totals, out: &mut [u8]) -> usize
    requires { max_report ≤ length out.old }
    ensures put_at { PutAt out.old 0 (totals_text totals.numbers) result out.new }
    ensures upper_bound { result ≤ max_report }
{
    let row = names();
    let mut at = 0;
    let mut i: usize = 0;
    for b in row {
        if b == b'\t' {
            at = put_number(out, at, totals.numbers[i]);
            i += 1;
        } else {
            out[at] = b;
            at += 1;
        }
    }
    at
}

// Writes the text of a report at the front of lent memory, and answers how many bytes it has; where it has no room, 10, and nothing is written.
// 384 bytes always suffice.
pub fn put_totals(totals: Totals, out: &mut [u8]) -> Result<usize, Refusal>
    ensures value { result ≡ wrote_of (totals_text totals.numbers) (length out.old) }
    ensures out_after { out.new ≡ content_after out.old (totals_text totals.numbers) }
    ensures result_value { wrote_paper result ≡ on_paper (room_order (totals_text totals.numbers) (length out.old)) (length (totals_text totals.numbers) ∷ []) }
{
    let mut text = [0u8; REPORT];
    let n = lay(totals, &mut text);
    if out.len() < n {
        return Err(Refusal::CanonTooLong);
    }
    base_lists::put_bytes(out, 0, &text[..n]);
    Ok(n)
}

// The number that was read, and the place behind it.
fn field_of(d: Digits, next: usize) -> Option<(u64, usize)>
    ensures { result ≡ field_by next (read_out d) }
{
    match text_digits::read_out(d) {
        None => None,
        Some(n) => Some((n, next)),
    }
}

// The number at a place, up to the next LF.
fn field_at(text: &[u8], from: usize) -> Option<(u64, usize)>
    ensures { result ≡ number_at text.now from }
{
    let mut d = Digits::NoDigit;
    for at in from..text.len() {
        let b = text[at];
        if b == b'\n' {
            return field_of(d, at + 1);
        }
        d = text_digits::step(d, b, Totals::MOST);
    }
    None
}

// It is no report.
fn no_report() -> Reported
    ensures { result ≡ reported_by Numbers.bad }
{
    let totals = Totals::empty();
    Reported {
        good: false,
        totals,
    }
}

// The report whose text this is, exactly as `put_totals` writes it.
pub fn read_totals(text: &[u8]) -> Reported
    ensures { result ≡ reported_by (numbers_read text.now) }
{
    let row = names();
    let mut totals = Totals::empty();
    let mut at = 0;
    let mut i: usize = 0;
    for b in row {
        if text.len() <= at {
            return no_report();
        }
        if text[at] != b {
            return no_report();
        }
        at += 1;
        if b != b'\t' {
            continue;
        }
        match field_at(text, at) {
            None => return no_report(),
            Some((n, next)) => {
                totals.numbers[i] = n;
                i += 1;
                at = next;
            }
        }
    }
    if at < text.len() {
        return no_report();
    }
    Reported { good: true, totals }
}
