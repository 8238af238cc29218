// What the sheet program makes of a block: it prints its canonical text, or why not.
#![tactic(auto)]

ghost use Rattle.std.specs.Prelude.{◌≡◌};
ghost use Rattle.std.proofs.Math.Seq.{slice};
ghost use Rattle.base_refusals.specs.Numbers.{outcome_no};
ghost use Rattle.base_refusals.specs.Orders.{order_no};
ghost use Rattle.set_canon.specs.Canon.{canon};
ghost use Rattle.set_table.specs.Types.{two};
ghost use Rattle.set_table.specs.Rows.{meaning_of};
ghost use Rattle.sheet_verdicts.specs.Verdicts.{printable, verdict_order, block_verdict};

use base_refusals::Refusal;
use read_blocks::Block;
use set_table::Attrs;

// Whether the canonical text of a set can be printed; nothing is written.
fn room_for<'a>(text: &'a [u8], joined: &'a [u8], set: Attrs) -> Result<(), Refusal>
    ensures { result ≡ printable (canon (meaning_of (two text.now joined.now) set)) }
{
    set_writer::measure_set(text, joined, set)?;
    Ok(())
}

// Whether the sheet program prints a block, whose set is over the text and the bytes that were joined, or the number that it says instead.
pub fn verdict_of<'a>(text: &'a [u8], join: &'a [u8], block: Block) -> Result<(), Refusal>
    ensures value { result ≡ block_verdict (two text.now (slice 0 block.joined join.now)) block.set block.outcome }
    ensures result_value { outcome_no result ≡ order_no (verdict_order (two text.now (slice 0 block.joined join.now)) block.set block.outcome) }
{
    let outcome = block.outcome;
    outcome?;
    let joined = set_table::bytes_of(join, 0, block.joined);
    room_for(text, joined, block.set)
}
