// A program that tells a walker's tokens step by step, and merges into lent sets, also where that is refused, and three sets in both groupings.
#![tactic(auto)]

mod groups;
mod merges;
mod steps;

use base_refusals::Refusal;

pub(crate) fn say(rt: &impl Print, words: &[u8]) {
    let _ = rt.write_all(words);
}

pub(crate) fn say_refusal(rt: &impl Print, r: Refusal) {
    let _ = print!(rt; "refused {}", base_refusals::number(r));
}

fn main(rt: HostRuntime) {
    steps::run(&rt);
    merges::run(&rt);
    groups::run(&rt);
}
