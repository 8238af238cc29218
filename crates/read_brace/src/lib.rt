// Reading an attribute block at a brace.
#![tactic(auto)]

ghost use Rattle.std.specs.Prelude.{◌≡◌, suc, ◌+◌, ◌≤◌, ◌<◌, length, eqb, cond, Some};
ghost use Rattle.std.proofs.Math.Seq.{slice};
ghost use Rattle.base_bytes.specs.declared.Mode.TheVariants.{Strict};
ghost use Rattle.base_refusals.specs.Numbers.{max_text, number_of, outcome_no};
ghost use Rattle.base_refusals.specs.declared.Refusal.TheVariants.{NoReading};
ghost use Rattle.base_refusals.specs.Orders.{on_paper};
ghost use Rattle.block_grammar.specs.ComputedClose.{find_close};
ghost use Rattle.block_places.specs.Computed.{payload_place};
ghost use Rattle.set_table.specs.Types.{one};
ghost use Rattle.set_fill.specs.Fill.{filled_of};
ghost use Rattle.read_brace.specs.Brace.{brace_paper, place_said, place_at, refusing_read, brace_at, answer_at, finished, read_to, read_attrs_at, brace_order, behind_close, part_to, payload_at};

use base_bytes::Mode;
use base_refusals::Refusal;
use set_table::{Attrs, Filled};
use text_lines::Range;

// A refusal, that the payload has no reading and how far it could still be continued to one that has, or the place behind the block.
#[derive(Clone, Copy)]
pub enum NotRead {
    Refused(Refusal),
    Unread(usize),
}

// What is read at a brace: the set is the empty one where the answer is a refusal.
#[derive(Clone, Copy)]
pub struct Read {
    pub answer: Result<usize, NotRead>,
    pub set: Attrs,
}

// A refusal hands out no set.
fn refused(r: Refusal) -> Read
    ensures { result ≡ refusing_read r }
{
    let filled = set_fill::refusing(r);
    let set = filled.set;
    Read {
        answer: Err(NotRead::Refused(r)),
        set,
    }
}

// Whether a brace opens at the place.
fn opens_at(text: &[u8], place: usize) -> bool
    ensures { result ≡ brace_at text.now place }
{
    if text.len() <= place {
        return false;
    }
    text[place] == b'{'
}

// Whether an outcome is the refusal that says a place.
fn says_place(outcome: Result<(), Refusal>) -> bool
    ensures { result ≡ eqb (outcome_no outcome) (number_of NoReading) }
{
    base_refusals::outcome_number(outcome) == base_refusals::number(Refusal::NoReading)
}

// Where the payload between two places went wrong. A payload that has a reading isn't walked again.
fn place_of(text: &[u8], from: usize, end: usize, mode: Mode, outcome: Result<(), Refusal>) -> usize
    requires { (from ≤ end) × ((end ≤ length text.now) × (outcome ≡ (filled_of mode (one text.now) from (slice from end text.now)).outcome)) }
    ensures { result ≡ cond (eqb (outcome_no outcome) (number_of NoReading)) (payload_place mode (slice from end text.now)) 0 }
{
    if !says_place(outcome) {
        return 0;
    }
    match block_tokens::payload_test(&text[from..end], mode) {
        Ok(()) => 0,
        Err(n) => n,
    }
}

// What filling comes to, with the place behind the block, and the one at which it went wrong.
fn answer_of(outcome: Result<(), Refusal>, next: usize, n: usize) -> Result<usize, NotRead>
    ensures { result ≡ answer_at outcome next n }
{
    match outcome {
        Ok(()) => Ok(next),
        Err(r) => {
            if r == Refusal::NoReading {
                return Err(NotRead::Unread(n));
            }
            Err(NotRead::Refused(r))
        }
    }
}

// The set is handed on as it was filled: a refusal's is the empty one already.
fn handed_out(filled: Filled, next: usize, n: usize) -> Read
    ensures { result ≡ finished filled next n }
{
    let outcome = filled.outcome;
    let set = filled.set;
    Read {
        answer: answer_of(outcome, next, n),
        set,
    }
}

// The payload between the brace at `place` and the close at `end`.
fn read_payload(text: &[u8], place: usize, end: usize, mode: Mode) -> Read
    requires { (length text.now ≤ max_text) × ((place < end) × ((end < length text.now) × (find_close text.now (suc place) ≡ Some end))) }
    ensures { result ≡ read_to mode text.now place (Some end) }
{
    if !text_utf8::is_utf8(&text[place + 1..end]) {
        return refused(Refusal::NotUtf8);
    }
    let filled = set_fill::fill(text, place + 1, end, mode);
    let outcome = filled.outcome;
    let n = place_of(text, place + 1, end, mode, outcome);
    handed_out(filled, end + 1, n)
}

// The block whose brace stands at the place, in either mode.
pub fn read_attrs_at_with(text: &[u8], place: usize, mode: Mode) -> Read
    ensures value { result ≡ read_attrs_at mode text.now place }
    ensures answer_value { brace_paper result.answer ≡ on_paper (brace_order mode text.now place) (behind_close (find_close text.now (suc place))) }
    ensures answer_value_2 { place_said result.answer ≡ place_at mode text.now place }
{
    if base_refusals::MAX_TEXT < text.len() {
        return refused(Refusal::TextTooLong);
    }
    if !opens_at(text, place) {
        return refused(Refusal::NothingThere);
    }
    match block_close::find_close(text, place + 1) {
        None => refused(Refusal::NoClose),
        Some(end) => read_payload(text, place, end, mode),
    }
}

// The inline block: only spaces part its tokens.
pub fn read_attrs_at(text: &[u8], place: usize) -> Read
    ensures value { result ≡ read_attrs_at Strict text.now place }
    ensures answer_value { brace_paper result.answer ≡ on_paper (brace_order Strict text.now place) (behind_close (find_close text.now (suc place))) }
    ensures answer_value_2 { place_said result.answer ≡ place_at Strict text.now place }
{
    read_attrs_at_with(text, place, Mode::Strict)
}

// The payload's range, if it is UTF-8.
fn range_to(text: &[u8], place: usize, end: usize) -> Range
    requires { (place < end) × (end < length text.now) }
    ensures { result ≡ part_to text.now place (Some end) }
{
    if !text_utf8::is_utf8(&text[place + 1..end]) {
        return Range { from: 0, to: 0 };
    }
    Range {
        from: place + 1,
        to: end,
    }
}

// Where the payload of the block at the place lies; the empty range at the text's front on a refusal.
pub fn payload_range(text: &[u8], place: usize) -> Range
    ensures { result ≡ payload_at text.now place }
{
    if base_refusals::MAX_TEXT < text.len() {
        return Range { from: 0, to: 0 };
    }
    if !opens_at(text, place) {
        return Range { from: 0, to: 0 };
    }
    match block_close::find_close(text, place + 1) {
        None => Range { from: 0, to: 0 },
        Some(end) => range_to(text, place, end),
    }
}

// The payload of the block at the place, handed back as that part of the text.
pub fn payload_at(text: &[u8], place: usize) -> &[u8]
    ensures result_value { result.now ≡ slice (payload_at text.now place).from (payload_at text.now place).to text.now }
    ensures ref_ptr_value { result.ref_ptr ≡ (text.entry.ref_ptr.0, (payload_at text.now place).from + text.entry.ref_ptr.1) }
{
    let r = payload_range(text, place);
    let from = r.from;
    let to = r.to;
    &text[from..to]
}
