// How many lines a block has: the entries that measure, by line number.
#![tactic(auto)]

ghost use Rattle.std.specs.Prelude.{◌≡◌, [], ◌∷◌, length};
ghost use Rattle.base_refusals.specs.Orders.{on_paper};
ghost use Rattle.text_line_start.specs.Starts.{place_of};
ghost use Rattle.read_blocks.specs.Blocks.{run_found, found, lines_of, join_holds};
ghost use Rattle.read_blocks.specs.ByLine.{block_found};
ghost use Rattle.read_lengths.specs.Lengths.{length_paper, measured, unless_line, standalone_found, indented_found, length_order, flush_order, indented_order};
ghost use Rattle.read_lengths.specs.Inner.{unmeasured};

use base_refusals::Refusal;

// What measuring answers, with how many bytes were joined, and the place behind the block.
#[derive(Clone, Copy)]
pub struct Measure {
    pub length: Result<usize, Refusal>,
    pub lookahead: usize,
    pub joined: usize,
    pub next: usize,
}

// Nothing is there, and nothing was joined.
fn no_measure(r: Refusal, at: usize) -> Measure
    ensures { result ≡ unmeasured r at }
{
    Measure {
        length: Err(r),
        lookahead: 0,
        joined: 0,
        next: at,
    }
}

// The run from the line at the place on.
fn measure_run(text: &[u8], at: usize, base: usize, join: &mut [u8]) -> Measure
    ensures value { result ≡ measured text.now at (run_found text.now at base (length join.old)) }
    ensures join_after { join.new ≡ join_holds join.old (run_found text.now at base (length join.old)) }
{
    let j = run_lines::join_run(text, at, base, join);
    let stop = j.stop;
    match stop {
        Err(r) => Measure {
            length: Err(r),
            lookahead: j.lookahead,
            joined: j.len,
            next: at,
        },
        Ok(()) => {
            if block_chain::good_line(&join[..j.len], 0, j.len) {
                return Measure {
                    length: Ok(j.lines),
                    lookahead: j.lookahead,
                    joined: j.len,
                    next: j.next,
                };
            }
            Measure {
                length: Err(Refusal::NoReading),
                lookahead: j.lookahead,
                joined: j.len,
                next: at,
            }
        }
    }
}

// The block at the place: one good line, or a run. The caller has checked the text.
fn measure_at(text: &[u8], at: usize, base: usize, join: &mut [u8]) -> Measure
    ensures value { result ≡ measured text.now at (found text.now at base (length join.old)) }
    ensures join_after { join.new ≡ join_holds join.old (found text.now at base (length join.old)) }
{
    let f = block_trimmed_line::trimmed_line(text, at);
    if !f.opens {
        return no_measure(Refusal::NothingThere, at);
    }
    if block_chain::good_line(text, f.from, f.to) {
        return Measure {
            length: Ok(1),
            lookahead: 0,
            joined: 0,
            next: f.next,
        };
    }
    if f.closes {
        return no_measure(Refusal::NoReading, at);
    }
    measure_run(text, at, base, join)
}

// The block at the place, if it isn't one line. The caller has checked the text.
fn measure_wrapped_at(text: &[u8], at: usize, join: &mut [u8]) -> Measure
    ensures value { result ≡ measured text.now at (unless_line (found text.now at 0 (length join.old))) }
    ensures join_after { join.new ≡ join_holds join.old (unless_line (found text.now at 0 (length join.old))) }
{
    let f = block_trimmed_line::trimmed_line(text, at);
    if !f.opens {
        return no_measure(Refusal::NothingThere, at);
    }
    if block_chain::good_line(text, f.from, f.to) {
        return no_measure(Refusal::NoReading, at);
    }
    if f.closes {
        return no_measure(Refusal::NoReading, at);
    }
    measure_run(text, at, 0, join)
}

// How many lines a block has whose first line isn't indented.
pub fn standalone_attrs_block_len(text: &[u8], line: usize, join: &mut [u8]) -> Measure
    ensures value { result ≡ measured text.now (place_of text.now line) (standalone_found text.now line (length join.old)) }
    ensures join_after { join.new ≡ join_holds join.old (standalone_found text.now line (length join.old)) }
    ensures length_value { length_paper result.length ≡ on_paper (flush_order text.now line (length join.old)) (lines_of (standalone_found text.now line (length join.old)) ∷ []) }
{
    match text_line_start::line_start(text, line) {
        Err(r) => no_measure(r, 0),
        Ok(at) => {
            if block_trimmed_line::is_indented(text, at) {
                return no_measure(Refusal::NothingThere, at);
            }
            measure_at(text, at, 0, join)
        }
    }
}

// How many lines a wrapped block has, whatever its first line's indentation.
pub fn indented_wrapped_attrs_block_len(text: &[u8], line: usize, join: &mut [u8]) -> Measure
    ensures value { result ≡ measured text.now (place_of text.now line) (indented_found text.now line (length join.old)) }
    ensures join_after { join.new ≡ join_holds join.old (indented_found text.now line (length join.old)) }
    ensures length_value { length_paper result.length ≡ on_paper (indented_order text.now line (length join.old)) (lines_of (indented_found text.now line (length join.old)) ∷ []) }
{
    match text_line_start::line_start(text, line) {
        Err(r) => no_measure(r, 0),
        Ok(at) => measure_wrapped_at(text, at, join),
    }
}

// How many lines a block has whose first line stands in a column.
pub fn attrs_block_len_at(text: &[u8], line: usize, column: usize, join: &mut [u8]) -> Measure
    ensures value { result ≡ measured text.now (place_of text.now line) (block_found text.now line column (length join.old)) }
    ensures join_after { join.new ≡ join_holds join.old (block_found text.now line column (length join.old)) }
    ensures length_value { length_paper result.length ≡ on_paper (length_order text.now line column (length join.old)) (lines_of (block_found text.now line column (length join.old)) ∷ []) }
{
    match text_line_start::line_start(text, line) {
        Err(r) => no_measure(r, 0),
        Ok(at) => measure_at(text, at, column, join),
    }
}
