// Three sets over two texts merged in both groupings, by value and into a set that is lent; the limit is met in no step, in the second or in the first.
use crate::merges::{say_set, tell};
use crate::{say, say_refusal};
use base_refusals::Refusal;
use set_table::{Attrs, Filled};

// A set of the first text, one of the second, and one of both.
pub(crate) fn run(rt: &impl Print) {
    let first = b"{.a #x k=1}{.c m=5}";
    let second = b"{.b k=2 m=3}{#y n}";
    let a = read_brace::read_attrs_at(first, 0);
    let b = read_brace::read_attrs_at(second, 0);
    let c = read_brace::read_attrs_at(first, 11);
    let d = read_brace::read_attrs_at(second, 12);
    let both = set_merge::merge_attrs(first, second, c.set, set_exchange::exchange(d.set));
    sized(
        rt,
        first,
        second,
        a.set,
        set_exchange::exchange(b.set),
        both.set,
    );
}

fn sized<'a>(rt: &impl Print, first: &'a [u8], second: &'a [u8], a: Attrs, b: Attrs, c: Attrs) {
    let most = Attrs::CLASSES as u8;
    say(rt, b"three sets\n");
    grouped(rt, first, second, a, b, c);
    say(rt, b"with as many classes as may be\n");
    grouped(rt, first, second, classes(a, most - 2), b, c);
    say(
        rt,
        b"with one more: in the second step of either grouping\n",
    );
    grouped(rt, first, second, classes(a, most - 1), b, c);
    say(
        rt,
        b"the first one full: in the first step from the left, in the second from the right\n",
    );
    grouped(rt, first, second, classes(a, most), b, c);
    say(
        rt,
        b"the last one full: in the second step from the left, in the first from the right\n",
    );
    grouped(rt, first, second, a, b, classes(c, most));
    say(
        rt,
        b"the middle one full: in the first step of either grouping\n",
    );
    grouped(rt, first, second, a, classes(b, most), c);
    say(rt, b"the middle one empty\n");
    grouped(rt, first, second, a, Attrs::empty(), c);
}

// The set with so many classes. Those that weren't there have no bytes.
pub(crate) fn classes(set: Attrs, n: u8) -> Attrs {
    let mut s = set;
    s.nclass = n;
    s
}

fn grouped<'a>(rt: &impl Print, first: &'a [u8], second: &'a [u8], a: Attrs, b: Attrs, c: Attrs) {
    let none = Attrs::empty();
    say(rt, b"from the left: ");
    let ab = set_merge::merge_attrs(first, second, a, b);
    let left = set_merge::merge_attrs(first, second, ab.set, c);
    let step = ab.outcome;
    say_steps(rt, first, second, step, left);
    say(rt, b"from the right: ");
    let bc = set_merge::merge_attrs(first, second, b, c);
    let right = set_merge::merge_attrs(first, second, a, bc.set);
    let step = bc.outcome;
    say_steps(rt, first, second, step, right);
    say(rt, b"leading from the right: ");
    let led = set_merge::merge_leading_attrs(first, second, c, b);
    let all = set_merge::merge_leading_attrs(first, second, led.set, a);
    let step = led.outcome;
    say_steps(rt, first, second, step, all);
    say(rt, b"lent from the left, ");
    tell(
        rt,
        first,
        second,
        set_lent::merge_both(first, second, b, a, c),
    );
    say(rt, b"lent from the right, ");
    let lent = set_lent::merge_both(first, second, b, none, c);
    tell(rt, first, second, lent);
    say(rt, b"and then, ");
    tell(
        rt,
        first,
        second,
        set_lent::merge_both(first, second, lent.set, a, none),
    );
}

// What became of the first step, and of the second where the first was taken.
fn say_steps<'a>(
    rt: &impl Print,
    first: &'a [u8],
    second: &'a [u8],
    step: Result<(), Refusal>,
    then: Filled,
) {
    match step {
        Err(r) => {
            say_refusal(rt, r);
            say(rt, b" in the first step\n");
        }
        Ok(()) => say_second(rt, first, second, then),
    }
}

fn say_second<'a>(rt: &impl Print, first: &'a [u8], second: &'a [u8], then: Filled) {
    let outcome = then.outcome;
    match outcome {
        Err(r) => {
            say_refusal(rt, r);
            say(rt, b" in the second step\n");
        }
        Ok(()) => {
            say(rt, b"merged\n");
            say_set(rt, first, second, then.set);
        }
    }
}
