// What C and Rust call to read or merge a set within a line: the number of its refusal or 0, and the set as canonical text. The sets are of one text, so the second is lent empty.
#![tactic(auto)]

ghost use Rattle.std.specs.Prelude.{◌≡◌};
ghost use Rattle.text_checks.specs.Check.{check_of};
ghost use Rattle.text_checks.specs.Outcomes.{or_else};
ghost use Rattle.read_brace.specs.Brace.{place_said};
ghost use Rattle.door_shared.specs.Tells.{told_in};
ghost use Rattle.door_sets.specs.Sets.{mode_of, mode_paper, check_by, place_behind, brace_by, brace_said, line_said, merge_said};

use base_bytes::Mode;
use base_refusals::Refusal;
use read_brace::{NotRead, Read};

// 0 is strict, any other number loose.
pub fn mode_of(loose: u8) -> Mode
    ensures value { result ≡ mode_of loose }
    ensures result_value { mode_paper result ≡ mode_paper (mode_of loose) }
{
    if loose == 0 {
        return Mode::Strict;
    }
    Mode::Loose
}

// Why nothing was read at a brace.
pub fn check_by(a: Result<usize, NotRead>) -> Result<(), Refusal>
    ensures { result ≡ check_by a }
{
    match a {
        Err(NotRead::Refused(r)) => Err(r),
        Err(NotRead::Unread(_)) => Err(Refusal::NoReading),
        Ok(_) => Ok(()),
    }
}

// The place behind what was read at a brace.
pub fn next_of(a: Result<usize, NotRead>) -> usize
    ensures { result ≡ place_behind a }
{
    match a {
        Err(NotRead::Refused(_)) => 0,
        Err(NotRead::Unread(_)) => 0,
        Ok(n) => n,
    }
}

// The place at which a payload with no reading went wrong.
pub fn place_of(a: Result<usize, NotRead>) -> usize
    ensures { result ≡ place_said a }
{
    match a {
        Err(NotRead::Refused(_)) => 0,
        Err(NotRead::Unread(n)) => n,
        Ok(_) => 0,
    }
}

// A refusal, or else what the whole text gives.
fn or_text(c: Result<(), Refusal>, text: &[u8]) -> Result<(), Refusal>
    ensures { result ≡ or_else c (check_of text.now) }
{
    c?;
    text_checks::check_text(text)
}

// Hands out what was read at a brace. Tells the place behind it, the length of its canonical text, and where a payload with no reading went wrong.
pub fn hand_read(text: &[u8], read: Read, out: &mut [u8], told: &mut [usize]) -> u8
    ensures value { result ≡ (brace_by text.now out.old read).number }
    ensures out_after { out.new ≡ (brace_by text.now out.old read).out }
    ensures told_after { told.new ≡ told_in told.old (brace_by text.now out.old read).told }
{
    let answer = read.answer;
    let c = or_text(check_by(answer), text);
    let w = door_shared::write_out(c, text, b"", read.set, out);
    door_shared::tell(told, 0, next_of(answer));
    door_shared::tell(told, 1, door_shared::wrote_len(w));
    door_shared::tell(told, 2, place_of(answer));
    door_shared::wrote_number(w)
}

// Reads the block at a brace; `loose` is 0 for an inline block. Tells the place behind it, the length of its canonical text, and how many bytes of a
// payload that is refused by 5 can still be continued to one that isn't.
#[unsafe(no_mangle)]
pub extern "C" fn bridlesnow_read_attrs_at(
    text: &[u8],
    place: usize,
    loose: u8,
    out: &mut [u8],
    told: &mut [usize],
) -> u8
    ensures value { result ≡ (brace_said (mode_of loose) text.now place out.old).number }
    ensures out_after { out.new ≡ (brace_said (mode_of loose) text.now place out.old).out }
    ensures told_after { told.new ≡ told_in told.old (brace_said (mode_of loose) text.now place out.old).told }
{
    let read = read_brace::read_attrs_at_with(text, place, mode_of(loose));
    hand_read(text, read, out, told)
}

// Reads one line of blocks. Tells the length of its canonical text.
#[unsafe(no_mangle)]
pub extern "C" fn bridlesnow_parse_standalone_attrs(
    text: &[u8],
    line: usize,
    out: &mut [u8],
    told: &mut [usize],
) -> u8
    ensures value { result ≡ (line_said text.now line out.old).number }
    ensures out_after { out.new ≡ (line_said text.now line out.old).out }
    ensures told_after { told.new ≡ told_in told.old (line_said text.now line out.old).told }
{
    let filled = read_by_line::parse_standalone_attrs(text, line);
    let outcome = filled.outcome;
    let w = door_shared::write_out(outcome, text, b"", filled.set, out);
    door_shared::tell(told, 0, door_shared::wrote_len(w));
    door_shared::wrote_number(w)
}

// Merges the sets of two lines of blocks: what the variant's line says wins over the common line. Tells which step refuses, 1 or 2 for a line
// and 3 for the merge, and the length of the canonical text.
#[unsafe(no_mangle)]
pub extern "C" fn bridlesnow_merge_lines(
    text: &[u8],
    common: usize,
    variant: usize,
    out: &mut [u8],
    told: &mut [usize],
) -> u8
    ensures value { result ≡ (merge_said text.now common variant out.old).number }
    ensures out_after { out.new ≡ (merge_said text.now common variant out.old).out }
    ensures told_after { told.new ≡ told_in told.old (merge_said text.now common variant out.old).told }
{
    let first = read_by_line::parse_standalone_attrs(text, common);
    let second = read_by_line::parse_standalone_attrs(text, variant);
    let merged = set_merge::merge_attrs(text, b"", first.set, second.set);
    let a = first.outcome;
    let b = second.outcome;
    let c = merged.outcome;
    let w = door_shared::write_out(
        door_shared::first_of(a, door_shared::first_of(b, c)),
        text,
        b"",
        merged.set,
        out,
    );
    door_shared::tell(told, 0, door_shared::step_of(a, b, c));
    door_shared::tell(told, 1, door_shared::wrote_len(w));
    door_shared::wrote_number(w)
}
