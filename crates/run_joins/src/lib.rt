// One line joined behind those that a run has already, in lent memory.
#![tactic(auto)]

ghost use Rattle.std.specs.Prelude.{◌≡◌, ◌+◌, ◌≤◌, eqb, ltb, length, None};
ghost use Rattle.std.proofs.lemmas.List.Edits.{sets};
ghost use Rattle.base_refusals.specs.Orders.{on_paper};
ghost use Rattle.text_lines.specs.Trim.{trim};
ghost use Rattle.text_tabs.specs.Columns.{indent_from, capped};
ghost use Rattle.run_scanners.specs.Scanners.{hold_from, is_held, last_open_brace};
ghost use Rattle.run_joins.specs.Joins.{goes_on, passes, spaced, brace_after, is_closing, join_step, join_after, effect_paper, join_order, join_values};
ghost use Rattle.run_joins.specs.Inner.{next_state};

use run_scanners::Held;

// What a run has when the next line comes: the length of the joined text, the column of the last open brace, what is added to the
// first line's brace column, the quote that is left open, and the scan of the joined text for an open block.
#[derive(Clone, Copy)]
pub struct State {
    pub len: usize,
    pub brace: usize,
    pub base: usize,
    pub quote: Option<u8>,
    pub hold: Option<Held>,
}

// What a line does to a run: it refuses it, doesn't fit, is joined, or closes it.
#[derive(Clone, Copy)]
pub enum Effect {
    Broken,
    Full,
    Go(State),
    Closes(State),
}

// The column behind the spaces and tabs at the front, where the first byte stands in column c.
fn indent_from(c: usize, s: &[u8]) -> usize
    ensures { result ≡ capped (indent_from c s.now) }
{
    let mut column = c;
    for b in s {
        if !base_bytes::is_indent(*b) {
            return column;
        }
        column = text_tabs::column_after(column, *b);
    }
    column
}

// Whether a later line, whose trimmed bytes are `core`, may be joined.
fn goes_on(st: State, pad: usize, line: &[u8], core: &[u8]) -> bool
    requires { core.now ≡ trim line.now }
    ensures { result ≡ goes_on st.brace st.quote pad line.now }
{
    if indent_from(pad, line) <= st.brace {
        return false;
    }
    let quote = st.quote;
    match quote {
        None => block_payloads::continues_run(core),
        Some(_) => false,
    }
}

// Whether a line may be joined, by its own tests.
fn passes_tests(st: State, pad: usize, line: &[u8], core: &[u8]) -> bool
    requires { core.now ≡ trim line.now }
    ensures { result ≡ passes (eqb st.len 0) st.brace st.quote pad line.now }
{
    if core.len() == 0 {
        return false;
    }
    if st.len == 0 {
        return true;
    }
    goes_on(st, pad, line, core)
}

// Whether `cap` bytes have no room for the trimmed bytes behind `len` bytes, with the space before them.
fn lacks_room(cap: usize, len: usize, core: &[u8]) -> bool
    ensures { result ≡ ltb cap (len + length (spaced (eqb len 0) core.now)) }
{
    if len == 0 {
        return cap < core.len();
    }
    if cap < len {
        return true;
    }
    cap - len <= core.len()
}

// Writes the trimmed bytes behind `len` bytes, with the space before them, and says where they end.
fn put_line(join: &mut [u8], len: usize, core: &[u8]) -> usize
    requires { len + length (spaced (eqb len 0) core.now) ≤ length join.old }
    ensures value { result ≡ len + length (spaced (eqb len 0) core.now) }
    ensures join_after { join.new ≡ sets join.old len (spaced (eqb len 0) core.now) }
{
    if len == 0 {
        base_lists::put_bytes(join, 0, core);
        return core.len();
    }
    join[len] = b' ';
    base_lists::put_bytes(join, len + 1, core);
    len + 1 + core.len()
}

// The scan for an open block goes on over the trimmed bytes and the space before them.
fn hold_line(hold: Option<Held>, first: bool, core: &[u8]) -> Option<Held>
    ensures { result ≡ hold_from hold (spaced first core.now) }
{
    if first {
        return run_scanners::hold_on(core, hold);
    }
    let space = [b' '];
    let behind = run_scanners::hold_on(&space, hold);
    run_scanners::hold_on(core, behind)
}

// The column of the last open brace behind a line.
fn brace_after(brace: usize, base: usize, pad: usize, line: &[u8]) -> usize
    ensures { result ≡ capped (brace_after brace base (last_open_brace None pad line.now)) }
{
    match run_scanners::last_open_brace_column(line, None, pad) {
        None => brace,
        Some(c) => {
            if text_tabs::MOST - base < c {
                return text_tabs::MOST;
            }
            base + c
        }
    }
}

// Whether a line ends the run, where its scan stands at `hold`.
fn is_last(line: &[u8], hold: Option<Held>) -> bool
    ensures { result ≡ is_closing line.now (is_held hold) }
{
    if !run_scanners::contains_close(line) {
        return false;
    }
    !run_scanners::is_held(hold)
}

// The run's state behind a line that makes the joined text `len` bytes long.
fn state_after(len: usize, st: State, pad: usize, line: &[u8], core: &[u8]) -> State
    requires { core.now ≡ trim line.now }
    ensures { result ≡ next_state len st pad line.now }
{
    let hold = st.hold;
    State {
        len,
        brace: brace_after(st.brace, st.base, pad, line),
        base: 0,
        quote: run_scanners::open_quote_at_end(core),
        hold: hold_line(hold, st.len == 0, core),
    }
}

// Joins one line, before whose bytes `pad` columns stand, behind what is joined already.
pub fn join_line(line: &[u8], pad: usize, st: State, join: &mut [u8]) -> Effect
    ensures value { result ≡ join_step join.old st pad line.now }
    ensures join_after { join.new ≡ join_after join.old st pad line.now }
    ensures result_value { effect_paper result ≡ on_paper (join_order join.old st pad line.now) (join_values join.old st pad line.now) }
{
    let r = text_lines::trim_ascii(line);
    let from = r.from;
    let to = r.to;
    let core = &line[from..to];
    if !passes_tests(st, pad, line, core) {
        return Effect::Broken;
    }
    if lacks_room(join.len(), st.len, core) {
        return Effect::Full;
    }
    let len = put_line(join, st.len, core);
    let next = state_after(len, st, pad, line, core);
    let hold = next.hold;
    if is_last(line, hold) {
        return Effect::Closes(next);
    }
    Effect::Go(next)
}
