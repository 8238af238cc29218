// Runs the worked examples of RFC 3629, of RFC 5646, of CommonMark 0.31.2 and of document 01 against the leaf functions.
#![tactic(auto)]

mod commonmark;
mod lines_and_names;
mod refused;
mod rfc3629;
mod rfc5646;

// How many examples hold, and how many fail.
#[derive(Clone, Copy)]
pub(crate) struct Tally {
    pub(crate) hold: u64,
    pub(crate) fail: u64,
}

// One example more.
pub(crate) fn held(rt: &impl Print, t: Tally, ok: bool) -> Tally {
    if !ok {
        return failed(rt, t);
    }
    Tally {
        hold: next(t.hold),
        fail: t.fail,
    }
}

// One that fails is told by its number among all.
fn failed(rt: &impl Print, t: Tally) -> Tally {
    let fail = next(t.fail);
    let _ = println!(rt; "fails: {}", t.hold.wrapping_add(fail));
    Tally { hold: t.hold, fail }
}

fn next(n: u64) -> u64 {
    n.wrapping_add(1)
}

fn main(rt: HostRuntime) {
    let start = Tally { hold: 0, fail: 0 };
    let encoded = rfc3629::run(&rt, start);
    let marked = commonmark::run(&rt, encoded);
    let named = lines_and_names::run(&rt, marked);
    let tagged = rfc5646::run(&rt, named);
    let t = refused::run(&rt, tagged);
    let _ = println!(rt; "{} examples hold, {} fail", t.hold, t.fail);
}
