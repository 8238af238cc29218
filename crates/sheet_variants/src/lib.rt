// The variant reader: all blocks of a sheet, put into the dealers' table.
#![tactic(auto)]

ghost use Rattle.std.specs.Prelude.{◌≡◌, ◌≤◌, length};
ghost use Rattle.std.proofs.Math.Seq.{slice};
ghost use Rattle.base_refusals.specs.Numbers.{max_text};
ghost use Rattle.base_refusals.specs.Orders.{on_paper};
ghost use Rattle.set_table.specs.Types.{two};
ghost use Rattle.sheet_blocks.specs.Sheets.{blocks_of, tries_at, join_behind};
ghost use Rattle.sheet_valves.specs.Tables.{empty_table};
ghost use Rattle.sheet_variants.specs.Variants.{heard_by, no_table, whole_table, variants_from, past_of, variants_in, past_in, variants_of, variants_past, sheet_table, cell_nos, variants_paper, variants_order};

use base_refusals::Refusal;
use read_blocks::Block;
use sheet_valves::{Setting, Table};

// The table, empty on every refusal; the first line and the line count of the block that is refused, 0 and 0 where no block is; and for 21 the first variant
// that has one valve at two wheels, else 0.
#[derive(Clone, Copy)]
pub struct Variants {
    pub outcome: Result<(), Refusal>,
    pub line: usize,
    pub lines: usize,
    pub variant: usize,
    pub table: Table,
}

// What a block says, whose set is over the text and the bytes that were joined.
fn hear<'a>(text: &'a [u8], join: &'a [u8], block: Block) -> Result<Option<Setting>, Refusal>
    ensures { result ≡ heard_by (two text.now (slice 0 block.joined join.now)) block.set block.outcome }
{
    let outcome = block.outcome;
    outcome?;
    let joined = set_table::bytes_of(join, 0, block.joined);
    sheet_valves::setting_of(text, joined, block.set)
}

// A refusal hands out no table.
fn no_table(why: Refusal, line: usize, lines: usize, variant: usize) -> Variants
    ensures { result ≡ no_table why line lines variant }
{
    let table = Table::empty();
    Variants {
        outcome: Err(why),
        line,
        lines,
        variant,
        table,
    }
}

// The table at the end, if no variant has one valve at two wheels.
fn whole_table(table: Table) -> Variants
    ensures { result ≡ whole_table table }
{
    let v = sheet_valves::first_pair(table);
    if v == 0 {
        return Variants {
            outcome: Ok(()),
            line: 0,
            lines: 0,
            variant: 0,
            table,
        };
    }
    no_table(Refusal::SharedValve, 0, 0, v)
}

// Goes through the blocks of a sheet that has passed the checks.
fn fill_table(text: &[u8], join: &mut [u8]) -> Variants
    requires { (length text.now ≤ max_text) × (max_text ≤ length join.old) }
    ensures value { result ≡ variants_from text.now empty_table (blocks_of text.now) }
    ensures join_after { join.new ≡ join_behind join.old (past_of text.now (tries_at text.now max_text 1 0)) }
{
    let mut at = 0;
    let mut line = 1;
    let mut table = Table::empty();
    // A loop: where the next block begins is known only once the one before it is read, so no range or iterator gives the places.
    'sheet: loop {
        let next = sheet_blocks::next_block(text, at, join);
        let block = next.block;
        if block.lines == 0 {
            return whole_table(table);
        }
        let n = line + next.skipped;
        let said = match hear(text, join, block) {
            Err(why) => return no_table(why, n, block.lines, 0),
            Ok(said) => said,
        };
        if let Some(setting) = said {
            table = sheet_valves::put(table, setting);
        }
        line = n + block.lines;
        at = block.next;
    }
}

// The same of a sheet that is a text; a join buffer below 65,535 bytes is refused before anything is read.
fn fill_checked(text: &[u8], join: &mut [u8]) -> Variants
    requires { length text.now ≤ max_text }
    ensures value { result ≡ variants_in text.now (length join.old) }
    ensures join_after { join.new ≡ join_behind join.old (past_in text.now (length join.old)) }
{
    if join.len() < base_refusals::MAX_TEXT {
        return no_table(Refusal::JoinFull, 0, 0, 0);
    }
    fill_table(text, join)
}

// The dealers' table of a sheet, or why there is none.
pub fn variants_of(text: &[u8], join: &mut [u8]) -> Variants
    ensures value { result ≡ variants_of text.now (length join.old) }
    ensures join_after { join.new ≡ join_behind join.old (variants_past text.now (length join.old)) }
    ensures result_value { variants_paper result ≡ on_paper (variants_order text.now (length join.old)) (cell_nos (sheet_table text.now)) }
{
    match text_checks::check_text(text) {
        Err(why) => no_table(why, 0, 0, 0),
        Ok(()) => fill_checked(text, join),
    }
}
