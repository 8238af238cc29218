// What the crates for C and Rust share: numbers told in lent memory, and a set handed out there as its canonical text.
#![tactic(auto)]

ghost use Rattle.std.specs.Prelude.{◌≡◌, [], ◌∷◌, ◌++◌, length, set};
ghost use Rattle.base_refusals.specs.Numbers.{outcome_no};
ghost use Rattle.base_refusals.specs.Orders.{on_paper, order_no, met};
ghost use Rattle.set_canon.specs.Canon.{canon};
ghost use Rattle.set_table.specs.Types.{two};
ghost use Rattle.set_table.specs.Rows.{meaning_of};
ghost use Rattle.set_writer.specs.Write.{wrote_paper, room_order, or_refused, wrote_of, content_after};
ghost use Rattle.text_checks.specs.Outcomes.{or_else, or_left};
ghost use Rattle.door_shared.specs.Tells.{len_of, outcome_of, refused_step};

use base_refusals::Refusal;
use set_table::Attrs;

// Tells the number of an index, where there is room.
pub fn tell(told: &mut [usize], i: usize, n: usize)
    ensures { told.new ≡ set told.old i n }
{
    if i < told.len() {
        told[i] = n;
    }
}

// The canonical text of a set over both texts, where nothing refuses it.
pub fn write_out<'a>(
    c: Result<(), Refusal>,
    first: &'a [u8],
    second: &'a [u8],
    set: Attrs,
    out: &mut [u8],
) -> Result<usize, Refusal>
    ensures value { result ≡ or_refused c (wrote_of (canon (meaning_of (two first.now second.now) set)) (length out.old)) }
    ensures out_after { out.new ≡ or_left c out.old (content_after out.old (canon (meaning_of (two first.now second.now) set))) }
    ensures result_value { wrote_paper result ≡ on_paper (met c ++ room_order (canon (meaning_of (two first.now second.now) set)) (length out.old)) (length (canon (meaning_of (two first.now second.now) set)) ∷ []) }
{
    c?;
    set_writer::write_set(first, second, set, out)
}

// The first of two refusals.
pub fn first_of(a: Result<(), Refusal>, b: Result<(), Refusal>) -> Result<(), Refusal>
    ensures value { result ≡ or_else a b }
    ensures result_value { outcome_no result ≡ order_no (met a ++ met b) }
{
    a?;
    b
}

// Which of three steps is the first that refuses, counted from 1.
pub fn step_of(a: Result<(), Refusal>, b: Result<(), Refusal>, c: Result<(), Refusal>) -> usize
    ensures { result ≡ refused_step a b c }
{
    match a {
        Err(_) => 1,
        Ok(()) => match b {
            Err(_) => 2,
            Ok(()) => match c {
                Err(_) => 3,
                Ok(()) => 0,
            },
        },
    }
}

// How many bytes were written.
pub fn wrote_len(w: Result<usize, Refusal>) -> usize
    ensures { result ≡ len_of w }
{
    match w {
        Err(_) => 0,
        Ok(n) => n,
    }
}

// The number of what the writer answers.
pub fn wrote_number(w: Result<usize, Refusal>) -> u8
    ensures { result ≡ (wrote_paper w).number }
{
    match w {
        Err(r) => base_refusals::number(r),
        Ok(_) => 0,
    }
}

// What the writer refuses.
pub fn wrote_outcome(w: Result<usize, Refusal>) -> Result<(), Refusal>
    ensures value { result ≡ outcome_of w }
    ensures result_value { outcome_no result ≡ (wrote_paper w).number }
{
    w?;
    Ok(())
}
