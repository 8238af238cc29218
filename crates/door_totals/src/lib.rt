// What C and Rust call for a report over sheets, thirteen numbers in lent memory, which are changed only where 0 is returned.
#![tactic(auto)]

ghost use Rattle.std.specs.Prelude.{◌≡◌, [], ◌∷◌, length};
ghost use Rattle.base_refusals.specs.Numbers.{outcome_no};
ghost use Rattle.text_checks.specs.Outcomes.{or_left};
ghost use Rattle.set_writer.specs.Write.{wrote_paper, or_refused, wrote_of, content_after};
ghost use Rattle.sheet_blocks.specs.Sheets.{join_behind};
ghost use Rattle.sheet_totals.specs.Totals.{add_totals};
ghost use Rattle.sheet_tally.specs.Feeds.{feed_of, feed_tries};
ghost use Rattle.sheet_numbers.specs.Text.{totals_text};
ghost use Rattle.door_shared.specs.Tells.{told_in, len_of};
ghost use Rattle.door_totals.specs.Kept.{report_in, room_in, feed_kept, add_kept, text_kept};

use base_refusals::Refusal;
use sheet_totals::Totals;

// The report that stands in lent memory; a number for which there is no room is 0.
fn report_in(totals: &[u64]) -> Totals
    ensures { result ≡ report_in totals.now }
{
    let mut numbers = [0; Totals::PLACES];
    let n = totals.len().min(Totals::PLACES);
    numbers[..n].copy_from_slice(&totals[..n]);
    Totals { numbers }
}

// Whether there is room for a report.
fn room_in(totals: &[u64]) -> Result<(), Refusal>
    ensures { result ≡ room_in totals.now }
{
    if totals.len() < Totals::PLACES {
        return Err(Refusal::TotalTooLarge);
    }
    Ok(())
}

// Lays as many numbers as there is room for.
fn lay_numbers(t: Totals, totals: &mut [u64])
    ensures { totals.new ≡ told_in totals.old t.numbers }
{
    let n = totals.len().min(Totals::PLACES);
    totals[..n].copy_from_slice(&t.numbers[..n]);
}

// Keeps a report, unless it is refused.
fn keep(outcome: Result<(), Refusal>, t: Totals, totals: &mut [u64]) -> u8
    ensures value { result ≡ outcome_no outcome }
    ensures totals_after { totals.new ≡ or_left outcome totals.old (told_in totals.old t.numbers) }
{
    match outcome {
        Err(why) => base_refusals::number(why),
        Ok(()) => {
            lay_numbers(t, totals);
            0
        }
    }
}

// Feeds a sheet to a report.
#[unsafe(no_mangle)]
pub extern "C" fn bridlesnow_totals_feed(totals: &mut [u64], text: &[u8], join: &mut [u8]) -> u8
    ensures value { result ≡ outcome_no (feed_kept totals.old text.now (length join.old)) }
    ensures totals_after { totals.new ≡ or_left (feed_kept totals.old text.now (length join.old)) totals.old (told_in totals.old (feed_of (report_in totals.old) text.now (length join.old)).totals.numbers) }
    ensures join_after { join.new ≡ join_behind join.old (feed_tries text.now (length join.old)) }
{
    let fed = sheet_tally::feed(report_in(totals), text, join);
    let fits = fed.outcome;
    let outcome = door_shared::first_of(fits, room_in(totals));
    keep(outcome, fed.totals, totals)
}

// Adds a report to another.
#[unsafe(no_mangle)]
pub extern "C" fn bridlesnow_totals_add(totals: &mut [u64], more: &[u64]) -> u8
    ensures value { result ≡ outcome_no (add_kept totals.old more.now) }
    ensures totals_after { totals.new ≡ or_left (add_kept totals.old more.now) totals.old (told_in totals.old (add_totals (report_in totals.old) (report_in more.now)).totals.numbers) }
{
    let sum = sheet_totals::add_totals(report_in(totals), report_in(more));
    let room = door_shared::first_of(room_in(totals), room_in(more));
    let sums = sum.outcome;
    let outcome = door_shared::first_of(sums, room);
    keep(outcome, sum.totals, totals)
}

// Writes the text of a report, where nothing refuses it.
fn write_text(room: Result<(), Refusal>, t: Totals, out: &mut [u8]) -> Result<usize, Refusal>
    ensures value { result ≡ or_refused room (wrote_of (totals_text t.numbers) (length out.old)) }
    ensures out_after { out.new ≡ or_left room out.old (content_after out.old (totals_text t.numbers)) }
{
    room?;
    sheet_numbers::put_totals(t, out)
}

// Lays the text of a report: thirteen lines, name, tab and number. Tells how many bytes it has, 0 where it is refused.
#[unsafe(no_mangle)]
pub extern "C" fn bridlesnow_totals_text(totals: &[u64], out: &mut [u8], told: &mut [usize]) -> u8
    ensures value { result ≡ (wrote_paper (text_kept totals.now (length out.old))).number }
    ensures out_after { out.new ≡ or_left (room_in totals.now) out.old (content_after out.old (totals_text (report_in totals.now).numbers)) }
    ensures told_after { told.new ≡ told_in told.old (len_of (text_kept totals.now (length out.old)) ∷ []) }
{
    let wrote = write_text(room_in(totals), report_in(totals), out);
    door_shared::tell(told, 0, door_shared::wrote_len(wrote));
    door_shared::wrote_number(wrote)
}
