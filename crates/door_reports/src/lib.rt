// What C and Rust call for a report, part by part, into lent memory: the number of its refusal, 0 where nothing is refused.
#![tactic(auto)]

ghost use Rattle.std.specs.Prelude.{◌≡◌, length};
ghost use Rattle.base_lists.specs.Lists.{over};
ghost use Rattle.sheet_blocks.specs.Sheets.{join_behind};
ghost use Rattle.sheet_report.specs.Parts.{told_no, start_of, part_of, shown_part};
ghost use Rattle.door_shared.specs.Tells.{told_in};
ghost use Rattle.door_reports.specs.Reports.{part_told};

use base_refusals::Refusal;
use sheet_report::{Part, Told};

// The number of a part of a report.
fn told_number(t: Result<Told, Refusal>) -> u8
    ensures { result ≡ told_no t }
{
    match t {
        Err(r) => base_refusals::number(r),
        Ok(Told::More) => 0,
        Ok(Told::Done) => 0,
    }
}

// Tells how far a report was laid.
fn say_part(part: Part, told: &mut [usize]) -> u8
    ensures value { result ≡ told_no part.told }
    ensures told_after { told.new ≡ told_in told.old (part_told part) }
{
    let answer = part.told;
    door_shared::tell(told, 0, part.len);
    door_shared::tell(told, 1, part.at);
    door_shared::tell(told, 2, part.line);
    told_number(answer)
}

// Lays the report on a sheet from its first line on; of a text that is refused the one line that says so. Tells how many bytes are laid, and the place and
// the line at which it goes on; the line is 0 where the report is whole or refused.
#[unsafe(no_mangle)]
pub extern "C" fn bridlesnow_report_start(
    text: &[u8],
    join: &mut [u8],
    out: &mut [u8],
    told: &mut [usize],
) -> u8
    ensures value { result ≡ told_no (start_of text.now (length join.old) (length out.old)).told }
    ensures join_after { join.new ≡ join_behind join.old (start_of text.now (length join.old) (length out.old)).past }
    ensures out_after { out.new ≡ over (start_of text.now (length join.old) (length out.old)).text out.old }
    ensures told_after { told.new ≡ told_in told.old (part_told (shown_part (start_of text.now (length join.old) (length out.old)))) }
{
    say_part(sheet_report::report_start(text, join, out), told)
}

// Goes on with a report at a place and a line that the call before has told. Tells as above.
#[unsafe(no_mangle)]
pub extern "C" fn bridlesnow_report_part(
    text: &[u8],
    at: usize,
    line: usize,
    join: &mut [u8],
    out: &mut [u8],
    told: &mut [usize],
) -> u8
    ensures value { result ≡ told_no (part_of text.now at line (length join.old) (length out.old)).told }
    ensures join_after { join.new ≡ join_behind join.old (part_of text.now at line (length join.old) (length out.old)).past }
    ensures out_after { out.new ≡ over (part_of text.now at line (length join.old) (length out.old)).text out.old }
    ensures told_after { told.new ≡ told_in told.old (part_told (shown_part (part_of text.now at line (length join.old) (length out.old)))) }
{
    say_part(sheet_report::report_part(text, at, line, join, out), told)
}
