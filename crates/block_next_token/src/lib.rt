// A walker, which holds a text, a place in it and a mode, and gives the text's tokens one after the other.
#![tactic(auto)]

ghost use Rattle.std.specs.Prelude.{◌≡◌};
ghost use Rattle.block_grammar.specs.Computed.{read_from};
ghost use Rattle.block_tokens.specs.Shown.{token_end};
ghost use Rattle.block_next_token.specs.Walk.{gone_to, step_at, set_down, at_front, walker_step, ahead_of, gone, counted, ahead_paper, step_paper, count_paper};

use base_bytes::Mode;
use block_tokens::Token;

#[derive(Clone, Copy)]
pub struct Walker<'a> {
    pub text: &'a [u8],
    pub at: usize,
    pub mode: Mode,
}

// What stood ahead, and the place behind it. A walker stays at the end and before bytes that are no token.
#[derive(Clone, Copy)]
pub struct Step {
    pub ahead: Option<Token>,
    pub at: usize,
}

// The place behind the token at a.
fn place_behind(token: Token, a: usize) -> usize
    ensures { result ≡ gone_to a (token_end token) }
{
    match token {
        Token::Bad(_) => a,
        Token::Tag(_, e) => e,
        Token::Id(_, e) => e,
        Token::Class(_, e) => e,
        Token::Plain(_, _, e) => e,
        Token::Quoted(_, _, e) => e,
        Token::Bare(_, e) => e,
    }
}

// The work, on a slice and a number: what stands ahead of a place.
fn step_at(text: &[u8], at: usize, mode: Mode) -> Step
    ensures { result ≡ step_at mode text.now at }
{
    let a = block_tokens::blank_end(text, at, mode);
    if text.len() <= a {
        return Step { ahead: None, at: a };
    }
    let token = block_tokens::token_at(text, a, mode);
    let e = place_behind(token, a);
    Step {
        ahead: Some(token),
        at: e,
    }
}

// The walker at the text's front.
pub fn new<'a>(text: &'a [u8], mode: Mode) -> Walker<'a>
    ensures { result ≡ at_front text.entry mode }
{
    Walker { text, at: 0, mode }
}

// What stands ahead.
pub fn peek<'a>(w: Walker<'a>) -> Option<Token>
    ensures { (result ≡ ahead_of w.entry) × (ahead_paper result ≡ ahead_paper (ahead_of w.entry)) }
{
    let step = step_at(w.text, w.at, w.mode);
    step.ahead
}

// The walker behind it.
pub fn after<'a>(w: Walker<'a>) -> Walker<'a>
    ensures { result ≡ gone w.entry }
{
    let step = step_at(w.text, w.at, w.mode);
    Walker {
        text: w.text,
        at: step.at,
        mode: w.mode,
    }
}

// What stands ahead; the walker goes behind it.
pub fn next<'s, 'a>(w: &'s mut Walker<'a>) -> Option<Token>
    ensures { (result ≡ ahead_of w.old) × (w.new ≡ gone w.old) × (ahead_paper result ≡ ahead_paper (ahead_of w.old)) }
{
    let step = step_at(w.text, w.at, w.mode);
    w.at = step.at;
    step.ahead
}

// One step of a walker that is set down at a place.
pub fn step_from(text: &[u8], at: usize, mode: Mode) -> Step
    ensures { (result ≡ walker_step (set_down text.entry at mode)) × (step_paper result ≡ step_paper (walker_step (set_down text.entry at mode))) }
{
    let mut w = Walker { text, at, mode };
    let ahead = next(&mut w);
    Step { ahead, at: w.at }
}

// What stands behind the first token.
pub fn second(text: &[u8], mode: Mode) -> Option<Token>
    ensures { (result ≡ ahead_of (gone (at_front text.entry mode))) × (ahead_paper result ≡ ahead_paper (ahead_of (gone (at_front text.entry mode)))) }
{
    peek(after(new(text, mode)))
}

// How many tokens a walker gives up to the text's end.
pub fn token_count(text: &[u8], mode: Mode) -> Option<usize>
    ensures value { result ≡ counted (read_from mode text.now 0 0) }
    ensures result_value { count_paper result ≡ count_paper (counted (read_from mode text.now 0 0)) }
{
    let mut n: usize = 0;
    let mut i: usize = 0;
    'tokens: loop {
        let step = step_from(text, i, mode);
        let ahead = step.ahead;
        match ahead {
            None => break 'tokens Some(n),
            Some(token) => match token {
                Token::Bad(_) => break 'tokens None,
                _ => {
                    n += 1;
                    i = step.at;
                    continue 'tokens;
                }
            },
        }
    }
}
