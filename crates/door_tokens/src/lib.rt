// What C and Rust call to find the payload of a block at a brace, and to walk over its tokens.
#![tactic(auto)]

ghost use Rattle.std.specs.Prelude.{◌≡◌};
ghost use Rattle.read_brace.specs.Brace.{payload_at};
ghost use Rattle.block_next_token.specs.Walk.{step_at};
ghost use Rattle.door_shared.specs.Tells.{told_in};
ghost use Rattle.door_sets.specs.Sets.{mode_of};
ghost use Rattle.door_tokens.specs.Tokens.{is_payload, range_told, is_token, token_shape, ahead_shape, step_told};

use block_tokens::Token;

// What stands ahead, by a number, and from where to where its name stands.
#[derive(Clone, Copy)]
struct Shape {
    kind: usize,
    from: usize,
    to: usize,
}

// Whether a payload of a block stands behind the brace at a place. Tells from where to where, 0 and 0 where there is none.
#[unsafe(no_mangle)]
pub extern "C" fn bridlesnow_payload_at(text: &[u8], place: usize, told: &mut [usize]) -> bool
    ensures value { result ≡ is_payload (payload_at text.now place) }
    ensures told_after { told.new ≡ told_in told.old (range_told (payload_at text.now place)) }
{
    let range = read_brace::payload_range(text, place);
    door_shared::tell(told, 0, range.from);
    door_shared::tell(told, 1, range.to);
    0 < range.from
}

// Whether a token stands ahead.
fn is_token(ahead: Option<Token>) -> bool
    ensures { result ≡ is_token ahead }
{
    match ahead {
        None => false,
        Some(token) => match token {
            Token::Bad(_) => false,
            _ => true,
        },
    }
}

// A token by its number and the range of its name.
fn token_shape(token: Token) -> Shape
    ensures { result ≡ token_shape token }
{
    match token {
        Token::Bad(n) => Shape {
            kind: 0,
            from: n,
            to: n,
        },
        Token::Tag(f, e) => Shape {
            kind: 1,
            from: f,
            to: e,
        },
        Token::Id(f, e) => Shape {
            kind: 2,
            from: f,
            to: e,
        },
        Token::Class(f, e) => Shape {
            kind: 3,
            from: f,
            to: e,
        },
        Token::Plain(f, k, _) => Shape {
            kind: 4,
            from: f,
            to: k,
        },
        Token::Quoted(f, k, _) => Shape {
            kind: 5,
            from: f,
            to: k,
        },
        Token::Bare(f, e) => Shape {
            kind: 6,
            from: f,
            to: e,
        },
    }
}

// What stands ahead in the same way; the end stands where it is.
fn ahead_shape(ahead: Option<Token>, at: usize) -> Shape
    ensures { result ≡ ahead_shape ahead at }
{
    match ahead {
        None => Shape {
            kind: 7,
            from: at,
            to: at,
        },
        Some(token) => token_shape(token),
    }
}

// Whether a token stands at a place of a text, behind blanks or none; `loose` is 0 for an inline block. Tells what it is, from where to where its name stands,
// and the place behind it, where the next one is asked for.
#[unsafe(no_mangle)]
pub extern "C" fn bridlesnow_next_token(
    text: &[u8],
    at: usize,
    loose: u8,
    told: &mut [usize],
) -> bool
    ensures value { result ≡ is_token (step_at (mode_of loose) text.now at).ahead }
    ensures told_after { told.new ≡ told_in told.old (step_told (step_at (mode_of loose) text.now at)) }
{
    let step = block_next_token::step_from(text, at, door_sets::mode_of(loose));
    let ahead = step.ahead;
    let shape = ahead_shape(ahead, step.at);
    door_shared::tell(told, 0, shape.kind);
    door_shared::tell(told, 1, shape.from);
    door_shared::tell(told, 2, shape.to);
    door_shared::tell(told, 3, step.at);
    is_token(ahead)
}
