// What C and Rust call to ask for the items of a block's canonical text, or for the values under a name, one by one: unescaped, and with their lengths.
#![tactic(auto)]

ghost use Rattle.std.specs.Prelude.{◌≡◌, length};
ghost use Rattle.std.proofs.Math.Seq.{slice};
ghost use Rattle.text_line_start.specs.Starts.{place_of};
ghost use Rattle.set_table.specs.Types.{two};
ghost use Rattle.read_blocks.specs.Blocks.{join_holds};
ghost use Rattle.read_blocks.specs.ByLine.{block_found};
ghost use Rattle.door_shared.specs.Tells.{told_in};
ghost use Rattle.door_sets.specs.Sets.{mode_of};
ghost use Rattle.door_items.specs.Items.{item_said_by, item_said, value_said_by, value_said, brace_item_by, brace_item, brace_value_by, brace_value};

use read_blocks::Block;
use read_brace::Read;

// Lays and tells the n-th item of a block, whose set is over the text and the bytes that were joined.
fn say_item<'a>(
    text: &'a [u8],
    block: Block,
    n: usize,
    join: &'a [u8],
    out: &mut [u8],
    told: &mut [usize],
) -> u8
    ensures value { result ≡ (item_said_by block (two text.now (slice 0 block.joined join.now)) n out.old).number }
    ensures out_after { out.new ≡ (item_said_by block (two text.now (slice 0 block.joined join.now)) n out.old).out }
    ensures told_after { told.new ≡ told_in told.old (item_said_by block (two text.now (slice 0 block.joined join.now)) n out.old).told }
{
    let outcome = block.outcome;
    let joined = set_table::bytes_of(join, 0, block.joined);
    let nth = set_items::item_at(text, joined, block.set, n);
    let item = nth.item;
    let laid = set_items::lay_item(outcome, text, joined, item, out);
    let end = laid.outcome;
    door_shared::tell(told, 0, nth.count);
    door_shared::tell(told, 1, laid.name);
    door_shared::tell(told, 2, laid.value);
    door_shared::tell(told, 3, block.lines);
    door_shared::tell(told, 4, block.next);
    door_shared::tell(told, 5, block.lookahead);
    door_shared::tell(told, 6, block.joined);
    base_refusals::outcome_number(end)
}

// The n-th item of the block of one or more lines at a line: its name, and its value behind that. Tells how many items there are, the lengths of both, the
// block's lines, the place behind it, the lookahead, and how many bytes were joined.
#[unsafe(no_mangle)]
pub extern "C" fn bridlesnow_item_at(
    text: &[u8],
    line: usize,
    n: usize,
    join: &mut [u8],
    out: &mut [u8],
    told: &mut [usize],
) -> u8
    ensures value { result ≡ (item_said text.now (place_of text.now line) (block_found text.now line 0 (length join.old)) n out.old).number }
    ensures join_after { join.new ≡ join_holds join.old (block_found text.now line 0 (length join.old)) }
    ensures out_after { out.new ≡ (item_said text.now (place_of text.now line) (block_found text.now line 0 (length join.old)) n out.old).out }
    ensures told_after { told.new ≡ told_in told.old (item_said text.now (place_of text.now line) (block_found text.now line 0 (length join.old)) n out.old).told }
{
    let block = read_by_line::parse_standalone_attrs_block(text, line, join);
    say_item(text, block, n, join, out, told)
}

// Lays and tells the n-th value that a block has under a name.
fn say_value<'a>(
    text: &'a [u8],
    block: Block,
    name: &[u8],
    n: usize,
    join: &'a [u8],
    out: &mut [u8],
    told: &mut [usize],
) -> u8
    ensures value { result ≡ (value_said_by block (two text.now (slice 0 block.joined join.now)) name.now n out.old).number }
    ensures out_after { out.new ≡ (value_said_by block (two text.now (slice 0 block.joined join.now)) name.now n out.old).out }
    ensures told_after { told.new ≡ told_in told.old (value_said_by block (two text.now (slice 0 block.joined join.now)) name.now n out.old).told }
{
    let outcome = block.outcome;
    let joined = set_table::bytes_of(join, 0, block.joined);
    let nth = set_items::value_at(text, joined, block.set, name, n);
    let item = nth.item;
    let laid = set_items::lay_value(outcome, text, joined, item, out);
    let end = laid.outcome;
    door_shared::tell(told, 0, nth.count);
    door_shared::tell(told, 1, laid.value);
    door_shared::tell(told, 2, block.lines);
    door_shared::tell(told, 3, block.next);
    door_shared::tell(told, 4, block.lookahead);
    door_shared::tell(told, 5, block.joined);
    base_refusals::outcome_number(end)
}

// The n-th of the values that the block of one or more lines at a line has under a name. Tells how many there are, its length, and then what is told of a block.
#[unsafe(no_mangle)]
pub extern "C" fn bridlesnow_value_at(
    text: &[u8],
    line: usize,
    name: &[u8],
    n: usize,
    join: &mut [u8],
    out: &mut [u8],
    told: &mut [usize],
) -> u8
    ensures value { result ≡ (value_said text.now (place_of text.now line) (block_found text.now line 0 (length join.old)) name.now n out.old).number }
    ensures join_after { join.new ≡ join_holds join.old (block_found text.now line 0 (length join.old)) }
    ensures out_after { out.new ≡ (value_said text.now (place_of text.now line) (block_found text.now line 0 (length join.old)) name.now n out.old).out }
    ensures told_after { told.new ≡ told_in told.old (value_said text.now (place_of text.now line) (block_found text.now line 0 (length join.old)) name.now n out.old).told }
{
    let block = read_by_line::parse_standalone_attrs_block(text, line, join);
    say_value(text, block, name, n, join, out, told)
}

// Lays and tells the n-th item of what was read at a brace.
fn hand_item(text: &[u8], read: Read, n: usize, out: &mut [u8], told: &mut [usize]) -> u8
    ensures value { result ≡ (brace_item_by text.now read n out.old).number }
    ensures out_after { out.new ≡ (brace_item_by text.now read n out.old).out }
    ensures told_after { told.new ≡ told_in told.old (brace_item_by text.now read n out.old).told }
{
    let answer = read.answer;
    let c = door_sets::check_by(answer);
    let nth = set_items::item_at(text, b"", read.set, n);
    let item = nth.item;
    let laid = set_items::lay_item(c, text, b"", item, out);
    let end = laid.outcome;
    door_shared::tell(told, 0, nth.count);
    door_shared::tell(told, 1, laid.name);
    door_shared::tell(told, 2, laid.value);
    door_shared::tell(told, 3, door_sets::next_of(answer));
    door_shared::tell(told, 4, door_sets::place_of(answer));
    base_refusals::outcome_number(end)
}

// The n-th item of the block at a brace; `loose` is 0 for an inline block. Tells how many items there are, the lengths of its name and value, the place behind
// the block, and where a payload with no reading went wrong.
#[unsafe(no_mangle)]
pub extern "C" fn bridlesnow_attrs_item_at(
    text: &[u8],
    place: usize,
    loose: u8,
    n: usize,
    out: &mut [u8],
    told: &mut [usize],
) -> u8
    ensures value { result ≡ (brace_item (mode_of loose) text.now place n out.old).number }
    ensures out_after { out.new ≡ (brace_item (mode_of loose) text.now place n out.old).out }
    ensures told_after { told.new ≡ told_in told.old (brace_item (mode_of loose) text.now place n out.old).told }
{
    let read = read_brace::read_attrs_at_with(text, place, door_sets::mode_of(loose));
    hand_item(text, read, n, out, told)
}

// Lays and tells the n-th value under a name of what was read at a brace.
fn hand_value(
    text: &[u8],
    read: Read,
    name: &[u8],
    n: usize,
    out: &mut [u8],
    told: &mut [usize],
) -> u8
    ensures value { result ≡ (brace_value_by text.now read name.now n out.old).number }
    ensures out_after { out.new ≡ (brace_value_by text.now read name.now n out.old).out }
    ensures told_after { told.new ≡ told_in told.old (brace_value_by text.now read name.now n out.old).told }
{
    let answer = read.answer;
    let c = door_sets::check_by(answer);
    let nth = set_items::value_at(text, b"", read.set, name, n);
    let item = nth.item;
    let laid = set_items::lay_value(c, text, b"", item, out);
    let end = laid.outcome;
    door_shared::tell(told, 0, nth.count);
    door_shared::tell(told, 1, laid.value);
    door_shared::tell(told, 2, door_sets::next_of(answer));
    door_shared::tell(told, 3, door_sets::place_of(answer));
    base_refusals::outcome_number(end)
}

// The n-th of the values that the block at a brace has under a name. Tells how many there are, its length, the place behind the block, and where a payload with
// no reading went wrong.
#[unsafe(no_mangle)]
pub extern "C" fn bridlesnow_attrs_value_at(
    text: &[u8],
    place: usize,
    loose: u8,
    name: &[u8],
    n: usize,
    out: &mut [u8],
    told: &mut [usize],
) -> u8
    ensures value { result ≡ (brace_value (mode_of loose) text.now place name.now n out.old).number }
    ensures out_after { out.new ≡ (brace_value (mode_of loose) text.now place name.now n out.old).out }
    ensures told_after { told.new ≡ told_in told.old (brace_value (mode_of loose) text.now place name.now n out.old).told }
{
    let read = read_brace::read_attrs_at_with(text, place, door_sets::mode_of(loose));
    hand_value(text, read, name, n, out, told)
}
