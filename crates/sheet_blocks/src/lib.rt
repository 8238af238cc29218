// The blocks of a sheet, one after the other.
#![tactic(auto)]

ghost use Rattle.std.specs.Prelude.{not, ◌≡◌, length, drop, Err};
ghost use Rattle.base_refusals.specs.Numbers.{outcome_no};
ghost use Rattle.base_refusals.specs.Orders.{order_no};
ghost use Rattle.text_lines.specs.Lines.{before_lf};
ghost use Rattle.sheet_blocks.specs.Sheets.{may_open, join_behind, next_of, next_tries, next_order};
ghost use Rattle.base_refusals.specs.declared.Refusal.TheVariants.{JoinFull};
ghost use Rattle.read_blocks.specs.Blocks.{block_by};

use base_refusals::Refusal;
use read_blocks::Block;
use set_table::Attrs;

// The next block: how many lines are gone past before it, where its first line begins, and what it reads. With no block `block.lines` is 0.
#[derive(Clone, Copy)]
pub struct Next {
    pub skipped: usize,
    pub at: usize,
    pub block: Block,
}

// Whether no LF stands at the place.
fn lacks_lf(text: &[u8], at: usize) -> bool
    ensures { result ≡ not (before_lf (drop at text.now)) }
{
    if text.len() <= at {
        return true;
    }
    text[at] != b'\n'
}

// Whether a block that isn't indented can stand in the line that begins at the place: by its first byte, without reading on. So whoever goes from line to line passes
// prose and makes no set for it.
pub fn may_open(text: &[u8], at: usize) -> bool
    ensures { result ≡ may_open (drop at text.now) }
{
    if text.len() <= at {
        return false;
    }
    let b = text[at];
    match b {
        12 | b'{' => true,
        b'\r' => lacks_lf(text, at + 1),
        _ => false,
    }
}

// An answer for the place itself, with no line gone past.
fn at_once(at: usize, block: Block) -> Next
    ensures { result ≡ record { skipped = 0; at = at; block = block } }
{
    Next {
        skipped: 0,
        at,
        block,
    }
}

// The join buffer is shorter than whole sheets need; the set is an empty one.
fn short_join(set: Attrs, at: usize) -> Next
    ensures { result ≡ record { skipped = 0; at = at; block = block_by (record { outcome = Err JoinFull; set = set }) 0 0 0 at } }
{
    Next {
        skipped: 0,
        at,
        block: Block {
            outcome: Err(Refusal::JoinFull),
            set,
            lines: 0,
            lookahead: 0,
            joined: 0,
            next: at,
        },
    }
}

// The first block from the line on that begins at `at`, its first line not indented. The caller has checked the text.
// Where there is none, the answer of `read_at` at the text's end stands for it, and its set is handed on with 9: an empty set made here would have every block copied
// field by field.
pub fn next_block(text: &[u8], at: usize, join: &mut [u8]) -> Next
    ensures value { result ≡ next_of text.now (length join.old) at }
    ensures join_after { join.new ≡ join_behind join.old (next_tries text.now (length join.old) at) }
    ensures outcome_value { outcome_no result.block.outcome ≡ order_no (next_order text.now (length join.old) at) }
{
    if base_refusals::MAX_TEXT < text.len() {
        let block = read_blocks::read_at(text, at, join);
        return at_once(at, block);
    }
    if join.len() < base_refusals::MAX_TEXT {
        let block = read_blocks::read_at(text, text.len(), join);
        return short_join(block.set, at);
    }
    let mut skipped = 0;
    let mut from = at;
    // A while: where a line ends is known only once it is gone through, so no range or iterator gives the places.
    while from < text.len() {
        if may_open(text, from) {
            let block = read_blocks::read_at(text, from, join);
            if block.lines != 0 {
                return Next {
                    skipped,
                    at: from,
                    block,
                };
            }
        }
        let l = text_lines::line_from(text, from);
        skipped += 1;
        from = l.next;
    }
    let mut block = read_blocks::read_at(text, from, join);
    block.next = at;
    at_once(at, block)
}
