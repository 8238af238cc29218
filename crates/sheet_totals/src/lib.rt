// The thirteen numbers of a report over sheets, and how two reports add up.
#![tactic(auto)]

ghost use Rattle.std.specs.Prelude.{◌≡◌, false, ltb};
ghost use Rattle.base_refusals.specs.Orders.{on_paper};
ghost use Rattle.sheet_totals.specs.Totals.{max_total, empty_totals, added_at, numbers_added, add_totals, added_paper, add_order};

use base_refusals::Refusal;

// Sheets, printed blocks, wrapped ones, refusals by 1, 2, 6, 7 and 10, classes, keys, joined lines, lookahead, and the longest block's lines.
#[derive(Clone, Copy)]
pub struct Totals {
    pub numbers: [u64; Totals::PLACES],
}

// Whether every number fits 64 bits, and the report: where one doesn't fit, the one before.
#[derive(Clone, Copy)]
pub struct Added {
    pub outcome: Result<(), Refusal>,
    pub totals: Totals,
}

impl Totals {
    pub const PLACES: usize = 13;

    pub const SHEETS: usize = 0;

    pub const BLOCKS: usize = 1;

    pub const WRAPPED: usize = 2;

    pub const REFUSED_1: usize = 3;

    pub const REFUSED_2: usize = 4;

    pub const REFUSED_6: usize = 5;

    pub const REFUSED_7: usize = 6;

    pub const REFUSED_10: usize = 7;

    pub const CLASSES: usize = 8;

    pub const KEYS: usize = 9;

    pub const JOINED: usize = 10;

    pub const LOOKAHEAD: usize = 11;

    pub const LONGEST: usize = 12;

    pub const MOST: u64 = 18446744073709551615;

    // The report over no sheet.
    pub fn empty() -> Self
        ensures { result ≡ empty_totals }
    {
        let numbers = [0; Self::PLACES];
        Totals { numbers: numbers }
    }
}

// Whether the numbers of a place don't fit together.
fn is_full(i: usize, x: u64, y: u64) -> bool
    ensures { result ≡ ltb max_total (added_at i x y) }
{
    if i == Totals::LONGEST {
        return false;
    }
    Totals::MOST - x < y
}

// The numbers of a place together, where they fit.
fn together(i: usize, x: u64, y: u64) -> u64
    requires { ltb max_total (added_at i x y) ≡ false }
    ensures { result ≡ added_at i x y }
{
    if i == Totals::LONGEST {
        if x < y {
            return y;
        }
        return x;
    }
    x + y
}

// Two reports added up; where a number would not fit, the first one as it was.
pub fn add_totals(a: Totals, b: Totals) -> Added
    ensures value { result ≡ add_totals a b }
    ensures result_value { added_paper result ≡ on_paper (add_order a b) (numbers_added a.numbers b.numbers) }
{
    let mut t = a;
    for i in 0..Totals::PLACES {
        let x = a.numbers[i];
        let y = b.numbers[i];
        if is_full(i, x, y) {
            return Added {
                outcome: Err(Refusal::TotalTooLarge),
                totals: a,
            };
        }
        t.numbers[i] = together(i, x, y);
    }
    Added {
        outcome: Ok(()),
        totals: t,
    }
}
