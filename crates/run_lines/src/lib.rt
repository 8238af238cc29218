// The lines of a wrapped run, joined into lent memory.
#![tactic(auto)]

ghost use Rattle.std.specs.Prelude.{◌≡◌, length, Err, Ok};
ghost use Rattle.base_lists.specs.Lists.{over};
ghost use Rattle.base_refusals.specs.Numbers.{outcome_no};
ghost use Rattle.base_refusals.specs.Orders.{order_no};
ghost use Rattle.run_lines.specs.Runs.{run_at, run_order, joined_of};

use base_refusals::Refusal;
use run_joins::{Effect, State};

// How many bytes and lines are joined, of how many untrimmed bytes, and where the line behind them begins.
#[derive(Clone, Copy)]
pub struct Joined {
    pub stop: Result<(), Refusal>,
    pub len: usize,
    pub lines: usize,
    pub lookahead: usize,
    pub next: usize,
}

fn closed(len: usize, lines: usize, lookahead: usize, next: usize) -> Joined
    ensures { result ≡ record { stop = Ok tt; len = len; lines = lines; lookahead = lookahead; next = next } }
{
    Joined {
        stop: Ok(()),
        len,
        lines,
        lookahead,
        next,
    }
}

fn refused(no: Refusal, len: usize, lines: usize, lookahead: usize, next: usize) -> Joined
    ensures { result ≡ record { stop = Err no; len = len; lines = lines; lookahead = lookahead; next = next } }
{
    Joined {
        stop: Err(no),
        len,
        lines,
        lookahead,
        next,
    }
}

// Joins the lines of a run, from the line on that begins at `at`.
pub fn join_run(text: &[u8], at: usize, base: usize, join: &mut [u8]) -> Joined
    ensures value { result ≡ joined_of text.now at (run_at (length join.old) base text.now at) }
    ensures join_after { join.new ≡ over (run_at (length join.old) base text.now at).text join.old }
    ensures stop_value { outcome_no result.stop ≡ order_no (run_order (length join.old) base text.now at) }
{
    let mut st = State {
        len: 0,
        brace: 0,
        base,
        quote: None,
        hold: run_scanners::hold_start(),
    };
    let mut count = 0;
    let mut lookahead = 0;
    let mut from = at;
    'lines: loop {
        if text.len() <= from {
            break 'lines refused(Refusal::NoReading, st.len, count, lookahead, from);
        }
        let l = text_lines::line_from(text, from);
        let to = l.to;
        match run_joins::join_line(&text[from..to], 0, st, join) {
            Effect::Broken => break 'lines refused(
                Refusal::NoReading,
                st.len,
                count,
                lookahead,
                from,
            ),
            Effect::Full => break 'lines refused(Refusal::JoinFull, st.len, count, lookahead, from),
            Effect::Closes(v) => break 'lines closed(
                v.len,
                count + 1,
                lookahead + (to - from),
                l.next,
            ),
            Effect::Go(v) => {
                st = v;
                count += 1;
                lookahead += to - from;
                from = l.next;
                continue 'lines;
            }
        }
    }
}
