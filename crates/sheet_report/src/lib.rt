// The report on a sheet: a line for each of its blocks.
#![tactic(auto)]

ghost use Rattle.std.specs.Prelude.{◌≡◌, ◌∷◌, ◌+◌, ◌≤◌, length, Err, Ok};
ghost use Rattle.std.proofs.Math.Seq.{slice};
ghost use Rattle.base_lists.specs.Lists.{over};
ghost use Rattle.base_refusals.specs.Numbers.{max_text};
ghost use Rattle.base_refusals.specs.Orders.{on_paper};
ghost use Rattle.set_canon.specs.Canon.{canon};
ghost use Rattle.set_table.specs.Types.{two};
ghost use Rattle.set_table.specs.Rows.{meaning_of};
ghost use Rattle.set_writer.specs.Inner.{wrote_to};
ghost use Rattle.sheet_blocks.specs.Sheets.{tries_at, join_behind};
ghost use Rattle.sheet_report.specs.declared.Told.TheVariants.{More, Done};
ghost use Rattle.text_digits.specs.Decimal.{decimal};
ghost use Rattle.sheet_report.specs.Report.{refused_line, canon_line, line_by};
ghost use Rattle.sheet_report.specs.Parts.{told_paper, max_line, lay_from, more_to_tell, begins_line, may_begin, part_order, part_of, refusal, start_of, start_order, shown_part};
ghost use Rattle.sheet_report.specs.Puts.{PutAt, line_front};
ghost use Rattle.sheet_report.specs.Inner.{put_short};
ghost use Rattle.base_bytes.specs.Bytes.{tab};

use base_refusals::Refusal;
use read_blocks::Block;
use set_table::Attrs;

// No line of a report is longer: a canonical text of 65,535 bytes, and 65 for the word, two numbers of at most 20 digits, three tabs and the LF.
pub const LINE: usize = base_refusals::MAX_TEXT + 65;

// Whether the report goes on, or why no block is reported.
#[derive(Clone, Copy)]
pub enum Told {
    More,
    Done,
}

// How many bytes are laid, and at which place and line the next call goes on.
#[derive(Clone, Copy)]
pub struct Part {
    pub told: Result<Told, Refusal>,
    pub len: usize,
    pub at: usize,
    pub line: usize,
}

// Writes a tab and a number.
fn put_field(out: &mut [u8], at: usize, n: usize) -> usize
    requires { at + length (tab ∷ decimal n) ≤ length out.old }
    ensures { PutAt out.old at (tab ∷ decimal n) result out.new }
{
    let k = text_digits::put_field(out, at, n as u64);
    at + k
}

// Writes a word, the first line and the line count.
fn put_front(out: &mut [u8], at: usize, word: &[u8], n: usize, lines: usize) -> usize
    requires { at + length (line_front word.now n lines) ≤ length out.old }
    ensures { PutAt out.old at (line_front word.now n lines) result out.new }
{
    base_lists::put_bytes(out, at, word);
    let e = put_field(out, at + word.len(), n);
    put_field(out, e, lines)
}

// Lays the line of a block that is refused.
fn lay_refused(out: &mut [u8], at: usize, n: usize, lines: usize, why: Refusal) -> usize
    requires { at + max_line ≤ length out.old }
    ensures { PutAt out.old at (refused_line n lines why) result out.new }
{
    let k = put_front(out, at, b"refused", n, lines);
    let e = put_field(out, k, base_refusals::number(why) as usize);
    out[e] = b'\n';
    e + 1
}

// Writes the canonical text of a set, where it isn't too long.
fn put_set<'a>(
    out: &mut [u8],
    at: usize,
    text: &'a [u8],
    joined: &'a [u8],
    set: Attrs,
) -> Result<usize, Refusal>
    requires { at + max_text ≤ length out.old }
    ensures value { result ≡ wrote_to max_text (length (canon (meaning_of (two text.now joined.now) set))) }
    ensures out_after { out.new ≡ put_short out.old at (canon (meaning_of (two text.now joined.now) set)) }
{
    set_writer::write_set(text, joined, set, &mut out[at..])
}

// Lays the line of a block whose set is over the text and what was joined.
fn lay_set<'a>(
    out: &mut [u8],
    at: usize,
    n: usize,
    lines: usize,
    text: &'a [u8],
    joined: &'a [u8],
    set: Attrs,
) -> usize
    requires { at + max_line ≤ length out.old }
    ensures { PutAt out.old at (canon_line n lines (canon (meaning_of (two text.now joined.now) set))) result out.new }
{
    let k = put_front(out, at, b"block", n, lines);
    out[k] = b'\t';
    match put_set(out, k + 1, text, joined, set) {
        Err(why) => lay_refused(out, at, n, lines, why),
        Ok(m) => {
            let e = k + 1 + m;
            out[e] = b'\n';
            e + 1
        }
    }
}

// Lays the line of a block, whose set is over the text and the bytes that were joined.
fn lay_block<'a>(
    out: &mut [u8],
    at: usize,
    n: usize,
    text: &'a [u8],
    join: &'a [u8],
    block: Block,
) -> usize
    requires { at + max_line ≤ length out.old }
    ensures { PutAt out.old at (line_by n block.lines (two text.now (slice 0 block.joined join.now)) block.set block.outcome) result out.new }
{
    let outcome = block.outcome;
    match outcome {
        Err(why) => lay_refused(out, at, n, block.lines, why),
        Ok(()) => {
            let joined = set_table::bytes_of(join, 0, block.joined);
            lay_set(out, at, n, block.lines, text, joined, block.set)
        }
    }
}

// The report is whole.
fn done(len: usize) -> Part
    ensures { result ≡ record { told = Ok Done; len = len; at = 0; line = 0 } }
{
    Part {
        told: Ok(Told::Done),
        len,
        at: 0,
        line: 0,
    }
}

// The report goes on from a place and its line.
fn more(len: usize, at: usize, line: usize) -> Part
    ensures { result ≡ record { told = Ok More; len = len; at = at; line = line } }
{
    Part {
        told: Ok(Told::More),
        len,
        at,
        line,
    }
}

// No block is reported; a line that says so may be laid.
fn refused(why: Refusal, len: usize) -> Part
    ensures { result ≡ record { told = Err why; len = len; at = 0; line = 0 } }
{
    Part {
        told: Err(why),
        len,
        at: 0,
        line: 0,
    }
}

// Whether a line begins at the place.
fn begins_line(text: &[u8], at: usize) -> bool
    requires { at ≤ length text.now }
    ensures { result ≡ begins_line text.now at }
{
    if at == 0 {
        return true;
    }
    text[at - 1] == b'\n'
}

// Whether a line begins at the place, which can have that number.
fn may_begin(text: &[u8], at: usize, line: usize) -> bool
    ensures { result ≡ may_begin text.now at line }
{
    if text.len() < at {
        return false;
    }
    if line == 0 {
        return false;
    }
    if at < line - 1 {
        return false;
    }
    begins_line(text, at)
}

// Lays the lines of the blocks from the place on, as long as there is room.
fn lay_from(text: &[u8], from: usize, first: usize, join: &mut [u8], out: &mut [u8]) -> Part
    requires text_len_bound { (length text.now ≤ max_text) × ((from ≤ length text.now) × (first ≤ from + 1)) }
    requires max_text_in_bounds { (max_text ≤ length join.old) × (max_line ≤ length out.old) }
    ensures value { result ≡ shown_part (lay_from text.now (length out.old) (tries_at text.now max_text first from)) }
    ensures join_after { join.new ≡ join_behind join.old (lay_from text.now (length out.old) (tries_at text.now max_text first from)).past }
    ensures out_after { out.new ≡ over (lay_from text.now (length out.old) (tries_at text.now max_text first from)).text out.old }
{
    let mut at = from;
    let mut line = first;
    let mut k = 0;
    // A while: where the next block begins is known only once the one before it is read, so no range or iterator gives the places.
    while at < text.len() {
        if out.len() - k < LINE {
            return more(k, at, line);
        }
        let next = sheet_blocks::next_block(text, at, join);
        let block = next.block;
        if block.lines == 0 {
            return done(k);
        }
        let n = line + next.skipped;
        k = lay_block(out, k, n, text, join, block);
        line = n + block.lines;
        at = block.next;
    }
    done(k)
}

// The report from a line on, whose place and number a call before has told; the text has passed the checks already.
pub fn report_part(text: &[u8], at: usize, line: usize, join: &mut [u8], out: &mut [u8]) -> Part
    ensures value { result ≡ shown_part (part_of text.now at line (length join.old) (length out.old)) }
    ensures join_after { join.new ≡ join_behind join.old (part_of text.now at line (length join.old) (length out.old)).past }
    ensures out_after { out.new ≡ over (part_of text.now at line (length join.old) (length out.old)).text out.old }
    ensures told_value { told_paper result.told ≡ on_paper (part_order text.now at line (length join.old) (length out.old)) (more_to_tell text.now (length out.old) (tries_at text.now max_text line at)) }
{
    if base_refusals::MAX_TEXT < text.len() {
        return refused(Refusal::TextTooLong, 0);
    }
    if join.len() < base_refusals::MAX_TEXT {
        return refused(Refusal::JoinFull, 0);
    }
    if !may_begin(text, at, line) {
        return refused(Refusal::NothingThere, 0);
    }
    if out.len() < LINE {
        return refused(Refusal::CanonTooLong, 0);
    }
    lay_from(text, at, line, join, out)
}

// Why a text is refused; the only line of its report is laid where it has room.
fn lay_refusal(why: Refusal, out: &mut [u8]) -> Part
    ensures value { result ≡ shown_part (refusal (length out.old) why) }
    ensures out_after { out.new ≡ over (refusal (length out.old) why).text out.old }
{
    if out.len() < LINE {
        return refused(why, 0);
    }
    refused(why, lay_refused(out, 0, 0, 0, why))
}

// The report from the first line on; the text is checked here, once for a sheet.
pub fn report_start(text: &[u8], join: &mut [u8], out: &mut [u8]) -> Part
    ensures value { result ≡ shown_part (start_of text.now (length join.old) (length out.old)) }
    ensures join_after { join.new ≡ join_behind join.old (start_of text.now (length join.old) (length out.old)).past }
    ensures out_after { out.new ≡ over (start_of text.now (length join.old) (length out.old)).text out.old }
    ensures told_value { told_paper result.told ≡ on_paper (start_order text.now (length join.old) (length out.old)) (more_to_tell text.now (length out.old) (tries_at text.now max_text 1 0)) }
{
    match text_checks::check_text(text) {
        Err(why) => lay_refusal(why, out),
        Ok(()) => report_part(text, 0, 1, join, out),
    }
}
