// What C and Rust call to measure a block: the number of its refusal, 0 where nothing is refused; what was measured is told.
#![tactic(auto)]

ghost use Rattle.std.specs.Prelude.{◌≡◌, length};
ghost use Rattle.read_blocks.specs.Blocks.{join_holds};
ghost use Rattle.read_lengths.specs.Lengths.{length_no, length_of, lines_in, standalone_found, indented_found};
ghost use Rattle.text_line_start.specs.Starts.{place_of};
ghost use Rattle.read_blocks.specs.ByLine.{block_found};
ghost use Rattle.door_shared.specs.Tells.{told_in};
ghost use Rattle.door_lengths.specs.Lengths.{measure_told, length_told};

use base_refusals::Refusal;
use read_lengths::Measure;

// The number of a block's length.
fn length_number(l: Result<usize, Refusal>) -> u8
    ensures { result ≡ length_no l }
{
    match l {
        Err(r) => base_refusals::number(r),
        Ok(_) => 0,
    }
}

// How many lines a block has.
fn lines_in(l: Result<usize, Refusal>) -> usize
    ensures { result ≡ lines_in l }
{
    match l {
        Err(_) => 0,
        Ok(n) => n,
    }
}

// Tells what measuring answers.
fn say_length(m: Measure, told: &mut [usize]) -> u8
    ensures value { result ≡ length_no m.length }
    ensures told_after { told.new ≡ told_in told.old (measure_told m) }
{
    let length = m.length;
    door_shared::tell(told, 0, lines_in(length));
    door_shared::tell(told, 1, m.next);
    door_shared::tell(told, 2, m.lookahead);
    door_shared::tell(told, 3, m.joined);
    length_number(length)
}

// Measures the block at a line that isn't indented. Tells its lines, the place behind it, the lookahead, and how many bytes were joined.
#[unsafe(no_mangle)]
pub extern "C" fn bridlesnow_standalone_attrs_block_len(
    text: &[u8],
    line: usize,
    join: &mut [u8],
    told: &mut [usize],
) -> u8
    ensures value { result ≡ length_no (length_of (standalone_found text.now line (length join.old))) }
    ensures join_after { join.new ≡ join_holds join.old (standalone_found text.now line (length join.old)) }
    ensures told_after { told.new ≡ told_in told.old (length_told text.now (place_of text.now line) (standalone_found text.now line (length join.old))) }
{
    say_length(
        read_lengths::standalone_attrs_block_len(text, line, join),
        told,
    )
}

// Measures the wrapped block at a line, whatever its indentation. Tells as above.
#[unsafe(no_mangle)]
pub extern "C" fn bridlesnow_indented_wrapped_attrs_block_len(
    text: &[u8],
    line: usize,
    join: &mut [u8],
    told: &mut [usize],
) -> u8
    ensures value { result ≡ length_no (length_of (indented_found text.now line (length join.old))) }
    ensures join_after { join.new ≡ join_holds join.old (indented_found text.now line (length join.old)) }
    ensures told_after { told.new ≡ told_in told.old (length_told text.now (place_of text.now line) (indented_found text.now line (length join.old))) }
{
    say_length(
        read_lengths::indented_wrapped_attrs_block_len(text, line, join),
        told,
    )
}

// Measures the block at a line whose text stands in a column. Tells as above.
#[unsafe(no_mangle)]
pub extern "C" fn bridlesnow_attrs_block_len_at(
    text: &[u8],
    line: usize,
    column: usize,
    join: &mut [u8],
    told: &mut [usize],
) -> u8
    ensures value { result ≡ length_no (length_of (block_found text.now line column (length join.old))) }
    ensures join_after { join.new ≡ join_holds join.old (block_found text.now line column (length join.old)) }
    ensures told_after { told.new ≡ told_in told.old (length_told text.now (place_of text.now line) (block_found text.now line column (length join.old))) }
{
    say_length(
        read_lengths::attrs_block_len_at(text, line, column, join),
        told,
    )
}
