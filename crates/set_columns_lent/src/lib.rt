// A table of columns that the caller lends, filled where it stands.
#![tactic(auto)]

ghost use Rattle.std.specs.Prelude.{◌≡◌};
ghost use Rattle.base_refusals.specs.Numbers.{outcome_no};
ghost use Rattle.base_refusals.specs.Orders.{order_no};
ghost use Rattle.set_table.specs.Types.{two};
ghost use Rattle.set_columns.specs.Columns.{columns_of, columns_order};
ghost use Rattle.set_columns_lent.specs.Lent.{table_end, lent_columns};

use base_refusals::Refusal;
use set_columns::{Columns, Made};
use set_table::Attrs;

// What becomes of a lent table: what the making came to, and what the table then holds.
#[derive(Clone, Copy)]
pub struct Laid {
    pub outcome: Result<(), Refusal>,
    pub table: Columns,
}

// The table that was made, or the one that was there where none is.
fn table_end(was: Columns, made: Made) -> Columns
    ensures { result ≡ table_end was made }
{
    let outcome = made.outcome;
    match outcome {
        Err(_) => was,
        Ok(()) => made.table,
    }
}

// What the making came to.
fn outcome_of(made: Made) -> Result<(), Refusal>
    ensures { result ≡ made.outcome }
{
    made.outcome
}

// The columns that a set over two texts says, laid into the lent table. A refusal leaves the table as it was.
pub fn table_columns_into<'a>(
    first: &'a [u8],
    second: &'a [u8],
    table: &mut Columns,
    set: Attrs,
) -> Result<(), Refusal>
    ensures { (result ≡ (columns_of (two first.now second.now) set).outcome) × (table.new ≡ table_end table.old (columns_of (two first.now second.now) set)) × (outcome_no result ≡ order_no (columns_order (two first.now second.now) set)) }
{
    let was = *table;
    let made = set_columns::table_columns(first, second, set);
    *table = table_end(was, made);
    outcome_of(made)
}

// A table of one's own lent for that: what the making comes to, and what the table holds afterwards.
pub fn table_columns_lent<'a>(first: &'a [u8], second: &'a [u8], table: Columns, set: Attrs) -> Laid
    ensures { (result ≡ lent_columns (two first.now second.now) table set) × (outcome_no result.outcome ≡ order_no (columns_order (two first.now second.now) set)) }
{
    let mut held = table;
    let outcome = table_columns_into(first, second, &mut held, set);
    Laid {
        outcome,
        table: held,
    }
}
