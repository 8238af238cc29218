// The entries by line number: a line of blocks, a block of one or more lines, and a run.
#![tactic(auto)]

ghost use Rattle.std.specs.Prelude.{◌≡◌, length};
ghost use Rattle.base_refusals.specs.Numbers.{outcome_no};
ghost use Rattle.base_refusals.specs.Orders.{order_no};
ghost use Rattle.text_line_start.specs.Starts.{place_of};
ghost use Rattle.read_blocks.specs.Blocks.{join_holds, block_of};
ghost use Rattle.read_blocks.specs.ByLine.{block_found, wrapped_found, block_order, wrap_order};
ghost use Rattle.read_by_line.specs.Entries.{line_read, parse_standalone, standalone_order};

use base_refusals::Refusal;
use read_blocks::Block;
use set_table::Filled;

// The line at the place alone, read.
fn read_line(text: &[u8], at: usize) -> Filled
    ensures { result ≡ line_read text.now at }
{
    let f = block_trimmed_line::trimmed_line(text, at);
    if !f.opens {
        return set_fill::refusing(Refusal::NothingThere);
    }
    set_fill::fill_chain(text, f.from, f.to)
}

// One line of blocks, merged from left to right.
pub fn parse_standalone_attrs(text: &[u8], line: usize) -> Filled
    ensures value { result ≡ parse_standalone text.now line }
    ensures outcome_value { outcome_no result.outcome ≡ order_no (standalone_order text.now line) }
{
    match text_line_start::line_start(text, line) {
        Err(r) => set_fill::refusing(r),
        Ok(at) => read_line(text, at),
    }
}

// A block of one or more lines.
pub fn parse_standalone_attrs_block(text: &[u8], line: usize, join: &mut [u8]) -> Block
    ensures value { result ≡ block_of text.now (place_of text.now line) (block_found text.now line 0 (length join.old)) }
    ensures join_after { join.new ≡ join_holds join.old (block_found text.now line 0 (length join.old)) }
    ensures outcome_value { outcome_no result.outcome ≡ order_no (block_order text.now line (length join.old)) }
{
    match text_line_start::line_start(text, line) {
        Err(r) => read_blocks::no_block(r, 0, 0, 0),
        Ok(at) => read_blocks::read_at(text, at, join),
    }
}

// A run, also of one good line; `base` is added to its first line's brace column.
pub fn wrapped_attrs_run_at(text: &[u8], line: usize, base: usize, join: &mut [u8]) -> Block
    ensures value { result ≡ block_of text.now (place_of text.now line) (wrapped_found text.now line base (length join.old)) }
    ensures join_after { join.new ≡ join_holds join.old (wrapped_found text.now line base (length join.old)) }
    ensures outcome_value { outcome_no result.outcome ≡ order_no (wrap_order text.now line base (length join.old)) }
{
    match text_line_start::line_start(text, line) {
        Err(r) => read_blocks::no_block(r, 0, 0, 0),
        Ok(at) => read_blocks::wrapped_at(text, at, base, join),
    }
}
