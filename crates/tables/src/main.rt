// Hand-made tables: every clause of 'well-formed' broken once, and what the writer and the merge answer to each.
#![tactic(auto)]

mod broken;
mod buffers;
mod changed;
mod columns;
mod full;
mod good;
mod loose;
mod pairs;
mod repeats;
mod texts;

use base_refusals::Refusal;
use set_table::{Attrs, Filled};

// What lent memory holds before a call.
pub(crate) const MARK: u8 = b'#';

pub(crate) fn say(rt: &impl Print, words: &[u8]) {
    let _ = rt.write_all(words);
}

// A table over one text, the other being lent empty.
pub(crate) fn report<'a>(rt: &impl Print, name: &'a [u8], text: &'a [u8], set: Attrs) {
    over(rt, name, text, b"", set, good::set());
}

// One line: whether the table is well-formed over the texts, what the writer answers and leaves, and what a merge with another table answers,
// where it is the first and where it is the second.
pub(crate) fn over<'a>(
    rt: &impl Print,
    name: &'a [u8],
    first: &'a [u8],
    second: &'a [u8],
    set: Attrs,
    other: Attrs,
) {
    let mut out = [MARK; 80];
    say(rt, name);
    if set_wellformed::well_formed(first, second, set) {
        say(rt, b": well-formed");
    } else {
        say(rt, b": not well-formed");
    }
    let wrote = set_writer::write_attrs(first, second, set, &mut out);
    say_wrote(rt, wrote, &out);
    say(rt, b", merged ");
    say_merged(rt, set_merge::merge_attrs(first, second, set, other));
    say(rt, b" and ");
    say_merged(rt, set_merge::merge_attrs(first, second, other, set));
    say(rt, b"\n");
}

// The text that was written, or the refusal; then whether the rest of the memory is as it was.
pub(crate) fn say_wrote(rt: &impl Print, wrote: Result<usize, Refusal>, out: &[u8]) {
    match wrote {
        Err(r) => {
            let _ = print!(rt; ", written: refused {}", base_refusals::number(r));
            say_kept(rt, out);
        }
        Ok(n) => {
            say(rt, b", written: ");
            say(rt, part(out, 0, n));
            say_kept(rt, part(out, n, out.len()));
        }
    }
}

// The bytes from `from` up to `to`, none where there are no such places.
pub(crate) fn part(s: &[u8], from: usize, to: usize) -> &[u8] {
    if s.len() < to {
        return &s[..0];
    }
    if to < from {
        return &s[..0];
    }
    &s[from..to]
}

fn say_kept(rt: &impl Print, rest: &[u8]) {
    if is_kept(rest) {
        say(rt, b", rest kept");
    } else {
        say(rt, b", REST CHANGED");
    }
}

pub(crate) fn is_kept(s: &[u8]) -> bool {
    s.iter().all(|b| *b == MARK)
}

fn say_merged(rt: &impl Print, merged: Filled) {
    let outcome = merged.outcome;
    match outcome {
        Err(r) => say_refused(rt, r, merged.set),
        Ok(()) => say(rt, b"yes"),
    }
}

// A refusal hands out no set.
fn say_refused(rt: &impl Print, r: Refusal, set: Attrs) {
    let _ = print!(rt; "{}", base_refusals::number(r));
    if 0 < set.norder {
        say(rt, b" WITH A SET");
    }
}

// In the second text: 0 `tyre`, 5 `grip`, 9 a character of two bytes, 11 LF, 12 a double quote, 13 a backslash, 14 a space, 15 `side`, 20 `id`,
// 23 `class`, and its end at 28.
fn two(rt: &impl Print, first: &[u8]) {
    let second = b"tyre grip\xC3\xA9\n\"\\ side id class";
    texts::run(rt, first, second);
    pairs::run(rt, first, second);
    repeats::run(rt, first, second);
}

fn long_texts(rt: &impl Print) {
    let long = [b'a'; 65536];
    loose::too_long(rt, &long);
    columns::too_long(rt, &long);
}

// 0 `v17`, 4 `wheel`, 10 `side`, 15 `left`, 20 `id`, 23 `class`, 29 `9x`, 32 `a`, 34 `b`, 35 a character of two bytes, 37 LF, 38 a double
// quote, 39 a backslash, 40 a space, 41 `lang`.
fn main(rt: HostRuntime) {
    let text = b"v17 wheel side left id class 9x a b\xC3\xA9\n\"\\ lang";
    broken::run(&rt, text);
    full::run(&rt);
    buffers::run(&rt, text);
    two(&rt, text);
    loose::run(&rt);
    columns::run(&rt);
    long_texts(&rt);
}
