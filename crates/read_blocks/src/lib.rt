// Blocks at a place: a line of blocks, and a wrapped run.
#![tactic(auto)]

ghost use Rattle.std.specs.Prelude.{◌≡◌, ◌≤◌, length};
ghost use Rattle.base_refusals.specs.Numbers.{max_text, number_of, outcome_no};
ghost use Rattle.base_refusals.specs.Orders.{order_no};
ghost use Rattle.read_blocks.specs.Blocks.{run_found, found, wrapped, join_holds, block_by, unread, block_of, sized, sized_order, found_order, wrapped_order, read_order, in_second, as_first, as_second};
ghost use Rattle.read_blocks.specs.Inner.{is_unread};
ghost use Rattle.set_table.specs.Filled.{refusing};

use base_refusals::Refusal;
use set_table::{Attrs, Filled};

// What reading answers: the set of a block that was joined is of the second text, the joined bytes; that of any other is of the first, the lent one.
#[derive(Clone, Copy)]
pub struct Block {
    pub outcome: Result<(), Refusal>,
    pub set: Attrs,
    pub lines: usize,
    pub lookahead: usize,
    pub joined: usize,
    pub next: usize,
}

// Why nothing is read, with what was joined by then.
pub fn no_block(r: Refusal, lookahead: usize, joined: usize, at: usize) -> Block
    ensures value { result ≡ unread r lookahead joined at }
    ensures outcome_value { outcome_no result.outcome ≡ number_of r }
{
    block_of(set_fill::refusing(r), 0, lookahead, joined, at)
}

// Whether the grammar refuses what was to be filled.
fn is_unread(outcome: Result<(), Refusal>) -> bool
    ensures { result ≡ is_unread outcome }
{
    match outcome {
        Ok(()) => false,
        Err(r) => base_refusals::number(r) == base_refusals::number(Refusal::NoReading),
    }
}

// What a block of so many lines answers; it keeps its lines where a limit refuses its set.
fn block_of(filled: Filled, lines: usize, lookahead: usize, joined: usize, next: usize) -> Block
    ensures { result ≡ block_by filled lines lookahead joined next }
{
    let outcome = filled.outcome;
    let set = filled.set;
    Block {
        outcome,
        set,
        lines,
        lookahead,
        joined,
        next,
    }
}

// A set of the joined bytes alone, as one of the second text.
fn in_second(filled: Filled) -> Filled
    ensures { result ≡ in_second filled }
{
    let outcome = filled.outcome;
    let over = filled.set;
    let set = set_exchange::exchange(over);
    Filled { outcome, set }
}

// The run from the line at the place on, its set over the joined bytes.
fn read_run(text: &[u8], at: usize, base: usize, join: &mut [u8]) -> Block
    requires { length text.now ≤ max_text }
    ensures value { result ≡ block_of text.now at (run_found text.now at base (length join.old)) }
    ensures join_after { join.new ≡ join_holds join.old (run_found text.now at base (length join.old)) }
{
    let j = run_lines::join_run(text, at, base, join);
    let stop = j.stop;
    match stop {
        Err(r) => no_block(r, j.lookahead, j.len, at),
        Ok(()) => {
            let filled = set_fill::fill_chain(&join[..j.len], 0, j.len);
            let outcome = filled.outcome;
            if is_unread(outcome) {
                return no_block(Refusal::NoReading, j.lookahead, j.len, at);
            }
            block_of(in_second(filled), j.lines, j.lookahead, j.len, j.next)
        }
    }
}

// The block's set as one of the first text, which is the joined bytes or, where nothing was joined, the lent text.
pub fn as_first(block: Block) -> Attrs
    ensures { result ≡ as_first block }
{
    let set = block.set;
    if block.joined == 0 {
        return set;
    }
    set_exchange::exchange(set)
}

// The block's set as one of the second text, which is the joined bytes or, where nothing was joined, the lent text.
pub fn as_second(block: Block) -> Attrs
    ensures { result ≡ as_second block }
{
    let set = block.set;
    if block.joined == 0 {
        return set_exchange::exchange(set);
    }
    set
}

// The block at the place, read: one good line over the text, or a run over the joined bytes. A good line ends in a close, so any other goes to the run
// at once. The caller has checked the text.
pub fn read_at(text: &[u8], at: usize, join: &mut [u8]) -> Block
    ensures value { result ≡ block_of text.now at (sized text.now (found text.now at 0 (length join.old))) }
    ensures join_after { join.new ≡ join_holds join.old (sized text.now (found text.now at 0 (length join.old))) }
    ensures outcome_value { outcome_no result.outcome ≡ order_no (sized_order text.now (found_order read_order text.now at 0 (length join.old))) }
{
    if base_refusals::MAX_TEXT < text.len() {
        return no_block(Refusal::TextTooLong, 0, 0, at);
    }
    let f = block_trimmed_line::trimmed_line(text, at);
    if !f.opens {
        return no_block(Refusal::NothingThere, 0, 0, at);
    }
    if !f.closes {
        return read_run(text, at, 0, join);
    }
    let filled = set_fill::fill_chain(text, f.from, f.to);
    let outcome = filled.outcome;
    if is_unread(outcome) {
        return no_block(Refusal::NoReading, 0, 0, at);
    }
    block_of(filled, 1, 0, 0, f.next)
}

// The run at the place, also of one good line, read; `base` is added to its first line's brace column. The caller has checked the text.
pub fn wrapped_at(text: &[u8], at: usize, base: usize, join: &mut [u8]) -> Block
    ensures value { result ≡ block_of text.now at (sized text.now (wrapped text.now at base (length join.old))) }
    ensures join_after { join.new ≡ join_holds join.old (sized text.now (wrapped text.now at base (length join.old))) }
    ensures outcome_value { outcome_no result.outcome ≡ order_no (sized_order text.now (wrapped_order read_order text.now at base (length join.old))) }
{
    if base_refusals::MAX_TEXT < text.len() {
        return no_block(Refusal::TextTooLong, 0, 0, at);
    }
    let f = block_trimmed_line::trimmed_line(text, at);
    if !f.opens {
        return no_block(Refusal::NothingThere, 0, 0, at);
    }
    read_run(text, at, base, join)
}
