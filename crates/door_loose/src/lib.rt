// What C and Rust call to read a check list's block and take its key `loose` out: whether that was done, and what is left as canonical text.
#![tactic(auto)]

ghost use Rattle.std.specs.Prelude.{◌≡◌, length};
ghost use Rattle.std.proofs.Math.Seq.{slice};
ghost use Rattle.text_checks.specs.Outcomes.{or_left};
ghost use Rattle.text_line_start.specs.Starts.{place_of};
ghost use Rattle.set_table.specs.Types.{two};
ghost use Rattle.set_writer.specs.Write.{or_refused, attrs_wrote, attrs_content};
ghost use Rattle.read_blocks.specs.Blocks.{join_holds};
ghost use Rattle.read_blocks.specs.ByLine.{block_found};
ghost use Rattle.door_shared.specs.Tells.{told_in};
ghost use Rattle.door_loose.specs.Loose.{acted_told, loose_said_by, loose_said};

use base_refusals::Refusal;
use read_blocks::Block;
use set_table::Attrs;

// 1 where the key was taken out.
fn acted(did: Result<bool, Refusal>) -> usize
    ensures { result ≡ acted_told did }
{
    match did {
        Err(_) => 0,
        Ok(true) => 1,
        Ok(false) => 0,
    }
}

// The canonical text of what is left, where the block isn't refused; an empty set is the writer's 12.
fn write_left<'a>(
    c: Result<(), Refusal>,
    first: &'a [u8],
    second: &'a [u8],
    set: Attrs,
    out: &mut [u8],
) -> Result<usize, Refusal>
    ensures value { result ≡ or_refused c (attrs_wrote (two first.now second.now) set (length out.old)) }
    ensures out_after { out.new ≡ or_left c out.old (attrs_content (two first.now second.now) set out.old) }
{
    c?;
    set_writer::write_attrs(first, second, set, out)
}

// Takes the key out of a block's set, which is over the text and the bytes that were joined, and writes and tells what is left.
fn say_loose<'a>(
    text: &'a [u8],
    block: Block,
    join: &'a [u8],
    out: &mut [u8],
    told: &mut [usize],
) -> u8
    ensures value { result ≡ (loose_said_by block (two text.now (slice 0 block.joined join.now)) out.old).number }
    ensures out_after { out.new ≡ (loose_said_by block (two text.now (slice 0 block.joined join.now)) out.old).out }
    ensures told_after { told.new ≡ told_in told.old (loose_said_by block (two text.now (slice 0 block.joined join.now)) out.old).told }
{
    let outcome = block.outcome;
    let joined = set_table::bytes_of(join, 0, block.joined);
    let consumed = set_loose::consume_loose(text, joined, block.set);
    let w = write_left(outcome, text, joined, consumed.set, out);
    let did = consumed.did;
    door_shared::tell(told, 0, acted(did));
    door_shared::tell(told, 1, door_shared::wrote_len(w));
    door_shared::tell(told, 2, block.lines);
    door_shared::tell(told, 3, block.next);
    door_shared::tell(told, 4, block.lookahead);
    door_shared::tell(told, 5, block.joined);
    door_shared::wrote_number(w)
}

// Reads the block at a line and takes its key `loose` out, where that has no value. Tells whether it did, the length of the canonical text of what is
// left, the block's lines, the place behind it, the lookahead, and how many bytes were joined.
#[unsafe(no_mangle)]
pub extern "C" fn bridlesnow_consume_loose(
    text: &[u8],
    line: usize,
    join: &mut [u8],
    out: &mut [u8],
    told: &mut [usize],
) -> u8
    ensures value { result ≡ (loose_said text.now (place_of text.now line) (block_found text.now line 0 (length join.old)) out.old).number }
    ensures join_after { join.new ≡ join_holds join.old (block_found text.now line 0 (length join.old)) }
    ensures out_after { out.new ≡ (loose_said text.now (place_of text.now line) (block_found text.now line 0 (length join.old)) out.old).out }
    ensures told_after { told.new ≡ told_in told.old (loose_said text.now (place_of text.now line) (block_found text.now line 0 (length join.old)) out.old).told }
{
    let block = read_by_line::parse_standalone_attrs_block(text, line, join);
    say_loose(text, block, join, out, told)
}
