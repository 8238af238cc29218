// A set that the caller lends, added to where it stands.
#![tactic(auto)]

ghost use Rattle.std.specs.Prelude.{◌≡◌, [], ◌∷◌};
ghost use Rattle.base_refusals.specs.Numbers.{outcome_no};
ghost use Rattle.base_refusals.specs.Orders.{order_no, on_paper};
ghost use Rattle.set_table.specs.Types.{two};
ghost use Rattle.set_table.specs.Rows.{meaning_of};
ghost use Rattle.set_merge.specs.Merge.{merge_of, merge_order};
ghost use Rattle.set_loose.specs.Loose.{is_loose, loose_of, loose_order, acted_no, did_paper};
ghost use Rattle.set_lent.specs.Lent.{end_of, loose_end, lent_both, lent_loose};

use base_refusals::Refusal;
use set_loose::Consumed;
use set_table::{Attrs, Filled};

// What becomes of a lent set into which one set is merged from before and another from behind.
#[derive(Clone, Copy)]
pub struct Both {
    pub led: Result<(), Refusal>,
    pub merged: Result<(), Refusal>,
    pub set: Attrs,
}

// What becomes of a lent set out of which the key `loose` is taken: the answer, and what the set then holds.
#[derive(Clone, Copy)]
pub struct Left {
    pub did: Result<bool, Refusal>,
    pub set: Attrs,
}

// The merged set, or the one that was there where the merge is refused.
fn end_of(was: Attrs, merged: Filled) -> Attrs
    ensures { result ≡ end_of was merged }
{
    let outcome = merged.outcome;
    match outcome {
        Err(_) => was,
        Ok(()) => merged.set,
    }
}

// The set `incoming` merged into the set `target`, both over the texts. A refusal leaves the target as it was.
pub fn merge_into<'a>(
    first: &'a [u8],
    second: &'a [u8],
    target: &mut Attrs,
    incoming: Attrs,
) -> Result<(), Refusal>
    ensures { (result ≡ (merge_of (two first.now second.now) target.old incoming).outcome) × (target.new ≡ end_of target.old (merge_of (two first.now second.now) target.old incoming)) × (outcome_no result ≡ order_no (merge_order (two first.now second.now) target.old incoming)) }
{
    let was = *target;
    let merged = set_merge::merge_attrs(first, second, was, incoming);
    *target = end_of(was, merged);
    merged.outcome
}

// The set `leading` comes first, and what `target` has wins.
pub fn merge_leading_into<'a>(
    first: &'a [u8],
    second: &'a [u8],
    target: &mut Attrs,
    leading: Attrs,
) -> Result<(), Refusal>
    ensures { (result ≡ (merge_of (two first.now second.now) leading target.old).outcome) × (target.new ≡ end_of target.old (merge_of (two first.now second.now) leading target.old)) × (outcome_no result ≡ order_no (merge_order (two first.now second.now) leading target.old)) }
{
    let was = *target;
    let merged = set_merge::merge_leading_attrs(first, second, was, leading);
    *target = end_of(was, merged);
    merged.outcome
}

// A set of one's own lent to both: first to the leading set, then to the incoming one.
pub fn merge_both<'a>(
    first: &'a [u8],
    second: &'a [u8],
    target: Attrs,
    leading: Attrs,
    incoming: Attrs,
) -> Both
    ensures { (result ≡ lent_both (two first.now second.now) target leading incoming) × (outcome_no result.led ≡ order_no (merge_order (two first.now second.now) leading target)) × (outcome_no result.merged ≡ order_no (merge_order (two first.now second.now) (end_of target (merge_of (two first.now second.now) leading target)) incoming)) }
{
    let mut set = target;
    let led = merge_leading_into(first, second, &mut set, leading);
    let merged = merge_into(first, second, &mut set, incoming);
    Both { led, merged, set }
}

// The set that is left, or the one that was there where nothing was taken out.
fn loose_end(was: Attrs, consumed: Consumed) -> Attrs
    ensures { result ≡ loose_end was consumed }
{
    let did = consumed.did;
    match did {
        Err(_) => was,
        Ok(true) => consumed.set,
        Ok(false) => was,
    }
}

// Where the key `loose` of the lent set has no value, takes it out of the set. On no and on a refusal the set stays as it was.
pub fn consume_loose_in<'a>(
    first: &'a [u8],
    second: &'a [u8],
    set: &mut Attrs,
) -> Result<bool, Refusal>
    ensures { (result ≡ (loose_of (two first.now second.now) set.old).did) × (set.new ≡ loose_end set.old (loose_of (two first.now second.now) set.old)) × (did_paper result ≡ on_paper (loose_order (two first.now second.now) set.old) (acted_no (is_loose (meaning_of (two first.now second.now) set.old)) ∷ [])) }
{
    let was = *set;
    let consumed = set_loose::consume_loose(first, second, was);
    *set = loose_end(was, consumed);
    consumed.did
}

// A set of one's own lent for that: the answer, and what it holds afterwards.
pub fn consume_loose_lent<'a>(first: &'a [u8], second: &'a [u8], set: Attrs) -> Left
    ensures { (result ≡ lent_loose (two first.now second.now) set) × (did_paper result.did ≡ on_paper (loose_order (two first.now second.now) set) (acted_no (is_loose (meaning_of (two first.now second.now) set)) ∷ [])) }
{
    let mut held = set;
    let did = consume_loose_in(first, second, &mut held);
    Left { did, set: held }
}
