// The quick test: whether what stands behind a brace is surely no payload, without a look into values.
#![tactic(auto)]

ghost use Rattle.std.specs.Prelude.{◌≡◌};
ghost use Rattle.block_grammar.specs.declared.Walk.{Walk};
ghost use Rattle.block_grammar.specs.Quick.{edge, quick_step, quick_refuses};
ghost use Rattle.block_quick.specs.Inner.{Leads, Tells};

use block_grammar::Walk;

// What a byte does to the quick test: it answers, or it goes on.
#[derive(Clone, Copy)]
enum Turn {
    Refuse,
    Leave,
    On(Walk),
}

// A byte between tokens.
fn edge_turn(table: &[u64; 16], c: u8) -> Turn
    requires { Tells table.now }
    ensures { Leads result (λ rest. edge c rest) }
{
    if 128 <= c {
        return Turn::Leave;
    }
    match c {
        b'}' | b'\n' | b'"' | b'\'' | b'\\' | b':' => Turn::Leave,
        b' ' | b'\t' | b'\r' => Turn::On(Walk::Edge),
        b'#' | b'.' => Turn::On(Walk::Sigil),
        _ => {
            if base_letters::is_of(table, base_letters::KEY_START, c) {
                return Turn::On(Walk::Word);
            }
            Turn::Refuse
        }
    }
}

// A byte in a key or bare name.
fn word_turn(table: &[u64; 16], c: u8) -> Turn
    requires { Tells table.now }
    ensures { Leads result (λ rest. quick_step Walk.Word c rest) }
{
    if base_letters::is_of(table, base_letters::NAME_PART, c) {
        return Turn::On(Walk::Word);
    }
    if c == b'=' {
        return Turn::On(Walk::Value);
    }
    edge_turn(table, c)
}

// The byte behind `=`.
fn value_turn(c: u8) -> Turn
    ensures { Leads result (λ rest. quick_step Walk.Value c rest) }
{
    match c {
        b'}' | b' ' | b'\t' | b'\r' | b'\n' => Turn::Refuse,
        _ => Turn::Leave,
    }
}

// A byte of the quick test.
fn turn_by(table: &[u64; 16], w: Walk, c: u8) -> Turn
    requires { Tells table.now }
    ensures { Leads result (λ rest. quick_step w c rest) }
{
    match w {
        Walk::Edge => edge_turn(table, c),
        Walk::Word => word_turn(table, c),
        Walk::Sigil => {
            if base_letters::is_of(table, base_letters::NAME_START, c) {
                return Turn::On(Walk::Ident);
            }
            Turn::Refuse
        }
        Walk::Ident => {
            if base_letters::is_of(table, base_letters::NAME_PART, c) {
                return Turn::On(Walk::Ident);
            }
            edge_turn(table, c)
        }
        Walk::Value => value_turn(c),
    }
}

// Whether what stands behind the brace at `brace` is surely no payload, without a look into values.
pub fn attr_payload_provably_invalid(s: &[u8], brace: usize) -> bool
    ensures { result ≡ quick_refuses s.now brace }
{
    if s.len() <= brace {
        return true;
    }
    let table = base_letters::CLASS;
    let mut w = Walk::Edge;
    for b in &s[brace + 1..] {
        match turn_by(&table, w, *b) {
            Turn::Refuse => return true,
            Turn::Leave => return false,
            Turn::On(v) => w = v,
        }
    }
    true
}
