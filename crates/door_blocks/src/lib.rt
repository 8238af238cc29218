// What C and Rust call to read a block of one or more lines: the number of its refusal or 0, and its set as canonical text.
#![tactic(auto)]

ghost use Rattle.std.specs.Prelude.{◌≡◌, ◌&&◌, not, ltb, length};
ghost use Rattle.std.proofs.Math.Seq.{slice};
ghost use Rattle.set_table.specs.Types.{two};
ghost use Rattle.read_blocks.specs.Blocks.{found, sized, join_holds, block_of};
ghost use Rattle.text_line_start.specs.Starts.{place_of};
ghost use Rattle.read_blocks.specs.ByLine.{block_found, wrapped_found};
ghost use Rattle.door_shared.specs.Tells.{told_in};
ghost use Rattle.base_refusals.specs.Numbers.{too_long};
ghost use Rattle.door_blocks.specs.Blocks.{is_place_in, place_in, nowhere, block_said_by, block_said};

use read_blocks::Block;

// Writes and tells what a block reads, whose set is over the text and the bytes that were joined.
fn say_block<'a>(
    text: &'a [u8],
    block: Block,
    join: &'a [u8],
    out: &mut [u8],
    told: &mut [usize],
) -> u8
    ensures value { result ≡ (block_said_by block (two text.now (slice 0 block.joined join.now)) out.old).number }
    ensures out_after { out.new ≡ (block_said_by block (two text.now (slice 0 block.joined join.now)) out.old).out }
    ensures told_after { told.new ≡ told_in told.old (block_said_by block (two text.now (slice 0 block.joined join.now)) out.old).told }
{
    let outcome = block.outcome;
    let joined = set_table::bytes_of(join, 0, block.joined);
    let w = door_shared::write_out(outcome, text, joined, block.set, out);
    door_shared::tell(told, 0, block.lines);
    door_shared::tell(told, 1, block.next);
    door_shared::tell(told, 2, block.lookahead);
    door_shared::tell(told, 3, block.joined);
    door_shared::tell(told, 4, door_shared::wrote_len(w));
    door_shared::wrote_number(w)
}

// Reads the block of one or more lines at a line. Tells its lines, the place behind it, the lookahead, how many bytes were joined, and the
// length of its canonical text.
#[unsafe(no_mangle)]
pub extern "C" fn bridlesnow_parse_standalone_attrs_block(
    text: &[u8],
    line: usize,
    join: &mut [u8],
    out: &mut [u8],
    told: &mut [usize],
) -> u8
    ensures value { result ≡ (block_said text.now (place_of text.now line) (block_found text.now line 0 (length join.old)) out.old).number }
    ensures join_after { join.new ≡ join_holds join.old (block_found text.now line 0 (length join.old)) }
    ensures out_after { out.new ≡ (block_said text.now (place_of text.now line) (block_found text.now line 0 (length join.old)) out.old).out }
    ensures told_after { told.new ≡ told_in told.old (block_said text.now (place_of text.now line) (block_found text.now line 0 (length join.old)) out.old).told }
{
    let block = read_by_line::parse_standalone_attrs_block(text, line, join);
    say_block(text, block, join, out, told)
}

// Reads the wrapped run at a line; `base` is added to its first line's brace column. Tells as a block does.
#[unsafe(no_mangle)]
pub extern "C" fn bridlesnow_wrapped_attrs_run_at(
    text: &[u8],
    line: usize,
    base: usize,
    join: &mut [u8],
    out: &mut [u8],
    told: &mut [usize],
) -> u8
    ensures value { result ≡ (block_said text.now (place_of text.now line) (wrapped_found text.now line base (length join.old)) out.old).number }
    ensures join_after { join.new ≡ join_holds join.old (wrapped_found text.now line base (length join.old)) }
    ensures out_after { out.new ≡ (block_said text.now (place_of text.now line) (wrapped_found text.now line base (length join.old)) out.old).out }
    ensures told_after { told.new ≡ told_in told.old (block_said text.now (place_of text.now line) (wrapped_found text.now line base (length join.old)) out.old).told }
{
    let block = read_by_line::wrapped_attrs_run_at(text, line, base, join);
    say_block(text, block, join, out, told)
}

// Whether a place is one of a text that isn't too long.
fn is_place(text: &[u8], at: usize) -> bool
    ensures { result ≡ is_place_in text.now at }
{
    if base_refusals::MAX_TEXT < text.len() {
        return false;
    }
    at < text.len()
}

// A block that is refused, told without the place at which it was asked for.
fn told_nowhere(block: Block) -> Block
    ensures { result ≡ nowhere block }
{
    let mut b = block;
    b.next = 0;
    b
}

// What is read at a place, which is told as 0 where it is none of the text.
fn read_in<'a>(text: &'a [u8], at: usize, join: &mut [u8]) -> Block
    ensures value { result ≡ block_of text.now (place_in text.now at) (sized text.now (found text.now at 0 (length join.old))) }
    ensures join_after { join.new ≡ join_holds join.old (sized text.now (found text.now at 0 (length join.old))) }
{
    let block = read_blocks::read_at(text, at, join);
    if is_place(text, at) {
        return block;
    }
    told_nowhere(block)
}

// Reads the block whose first line begins at the place `at` of a text that was checked before. Tells as a block by its line does.
#[unsafe(no_mangle)]
pub extern "C" fn bridlesnow_read_block_at(
    text: &[u8],
    at: usize,
    join: &mut [u8],
    out: &mut [u8],
    told: &mut [usize],
) -> u8
    ensures value { result ≡ (block_said text.now (place_in text.now at) (sized text.now (found text.now at 0 (length join.old))) out.old).number }
    ensures join_after { join.new ≡ join_holds join.old (sized text.now (found text.now at 0 (length join.old))) }
    ensures out_after { out.new ≡ (block_said text.now (place_in text.now at) (sized text.now (found text.now at 0 (length join.old))) out.old).out }
    ensures told_after { told.new ≡ told_in told.old (block_said text.now (place_in text.now at) (sized text.now (found text.now at 0 (length join.old))) out.old).told }
{
    let block = read_in(text, at, join);
    say_block(text, block, join, out, told)
}
