// A set whose classes are each listed once.
#![tactic(auto)]

ghost use Rattle.std.specs.Prelude.{◌≡◌, map, ◌≤◌, min, take};
ghost use Rattle.block_grammar.specs.Meaning.{is_among, classes_once};
ghost use Rattle.set_table.specs.Types.{two, value_bytes, max_classes};
ghost use Rattle.set_table.specs.Rows.{listed_of};

use set_table::{Attrs, Value};

// The lesser of two numbers.
fn least(a: usize, b: usize) -> usize
    ensures { result ≡ min a b }
{
    a.min(b)
}

// Whether a value stands for the same bytes as one of the first n classes.
fn is_listed<'a>(
    first: &'a [u8],
    second: &'a [u8],
    classes: [Value; Attrs::CLASSES],
    n: usize,
    value: Value,
) -> bool
    requires { n ≤ max_classes }
    ensures { result ≡ is_among (value_bytes (two first.now second.now) value) (map (value_bytes (two first.now second.now)) (take n classes)) }
{
    classes[..n].iter().any(|class| set_marks::same_values(first, second, value, *class))
}

// The set with each class at its first place alone: those that equal none before them move up behind each other.
pub fn classes_once<'a>(first: &'a [u8], second: &'a [u8], set: Attrs) -> Attrs
    ensures { listed_of (two first.now second.now) result ≡ classes_once (listed_of (two first.now second.now) set) }
{
    let many = least(set.nclass as usize, Attrs::CLASSES);
    let mut classes = set.classes;
    let mut n: usize = 0;
    for value in set.classes[..many].iter() {
        if !is_listed(first, second, classes, n, *value) {
            classes[n] = *value;
            n += 1;
        }
    }
    let mut kept = set;
    kept.classes = classes;
    kept.nclass = n as u8;
    kept
}
