// What C and Rust call to merge two blocks, each on one line or wrapped: the number of the refusal or 0, and the merged set as canonical text.
#![tactic(auto)]

ghost use Rattle.std.specs.Prelude.{◌≡◌, length};
ghost use Rattle.set_table.specs.Types.{two, text_over};
ghost use Rattle.read_blocks.specs.Blocks.{join_holds};
ghost use Rattle.read_blocks.specs.ByLine.{block_found};
ghost use Rattle.door_shared.specs.Tells.{told_in};
ghost use Rattle.door_merged.specs.Merged.{merged_said_by, merged_said};

use read_blocks::Block;

// Writes and tells what two blocks come to: the common block's single text is the first, the variant's the second.
fn say_merged<'a>(
    text: &'a [u8],
    common: Block,
    join: &'a [u8],
    variant: Block,
    other: &'a [u8],
    out: &mut [u8],
    told: &mut [usize],
) -> u8
    ensures value { result ≡ (merged_said_by (two (text_over text.now join.now common.joined) (text_over text.now other.now variant.joined)) common variant out.old).number }
    ensures out_after { out.new ≡ (merged_said_by (two (text_over text.now join.now common.joined) (text_over text.now other.now variant.joined)) common variant out.old).out }
    ensures told_after { told.new ≡ told_in told.old (merged_said_by (two (text_over text.now join.now common.joined) (text_over text.now other.now variant.joined)) common variant out.old).told }
{
    let first = set_table::text_over(text, join, common.joined);
    let second = set_table::text_over(text, other, variant.joined);
    let target = read_blocks::as_first(common);
    let incoming = read_blocks::as_second(variant);
    let merged = set_merge::merge_attrs(first, second, target, incoming);
    let a = common.outcome;
    let b = variant.outcome;
    let c = merged.outcome;
    let refused = door_shared::first_of(a, door_shared::first_of(b, c));
    let w = door_shared::write_out(refused, first, second, merged.set, out);
    door_shared::tell(
        told,
        0,
        door_shared::step_of(a, b, door_shared::wrote_outcome(w)),
    );
    door_shared::tell(told, 1, door_shared::wrote_len(w));
    door_shared::tell(told, 2, common.lines);
    door_shared::tell(told, 3, variant.lines);
    door_shared::wrote_number(w)
}

// Merges the blocks at two lines, each with a buffer to join its lines in: what the variant's block says wins over the common one. Tells which step
// refuses, 1 or 2 for a block and 3 for merging and writing, the length of the canonical text, and the lines of both blocks.
#[unsafe(no_mangle)]
pub extern "C" fn bridlesnow_merge_blocks(
    text: &[u8],
    common: usize,
    variant: usize,
    join: &mut [u8],
    other: &mut [u8],
    out: &mut [u8],
    told: &mut [usize],
) -> u8
    ensures value { result ≡ (merged_said text.now common variant (length join.old) (length other.old) out.old).number }
    ensures join_after { join.new ≡ join_holds join.old (block_found text.now common 0 (length join.old)) }
    ensures other_after { other.new ≡ join_holds other.old (block_found text.now variant 0 (length other.old)) }
    ensures out_after { out.new ≡ (merged_said text.now common variant (length join.old) (length other.old) out.old).out }
    ensures told_after { told.new ≡ told_in told.old (merged_said text.now common variant (length join.old) (length other.old) out.old).told }
{
    let first = read_by_line::parse_standalone_attrs_block(text, common, join);
    let second = read_by_line::parse_standalone_attrs_block(text, variant, other);
    say_merged(text, first, join, second, other, out, told)
}
