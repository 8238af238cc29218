// The tokens of payloads, step by step.
use crate::say;
use base_bytes::Mode;
use block_tokens::Token;

pub(crate) fn run(rt: &impl Print) {
    tell(rt, b".wheel #v17 side=\"left\" :de-AT loose", Mode::Strict);
    tell(rt, b"  a='}'  ", Mode::Strict);
    tell(rt, b"class=\"b c\" _k=\xC3\xA9", Mode::Strict);
    tell(rt, b"a\r\nb=1\n", Mode::Loose);
    tell(rt, b"a\r\nb=1\n", Mode::Strict);
    tell(rt, b".a k=\"1\"b .c", Mode::Strict);
    tell(rt, b":abcdefgh :abcdefghi", Mode::Strict);
    tell(rt, b"   ", Mode::Strict);
    tell(rt, b"", Mode::Strict);
}

// The payload, each step of a walker over it up to the last, what stands behind the first token, and how many there are.
fn tell(rt: &impl Print, text: &[u8], mode: Mode) {
    say(rt, b"payload `");
    say(rt, text);
    say(rt, b"`\n");
    walk(rt, text, mode);
    say(rt, b"  second:");
    say_ahead(rt, text, block_next_token::second(text, mode));
    say_count(rt, block_next_token::token_count(text, mode));
}

// A walker that is set down where the last step left it, until it goes no further.
fn walk(rt: &impl Print, text: &[u8], mode: Mode) {
    let mut i: usize = 0;
    // A loop: a step takes in as many bytes as its token has, so no range or iterator gives the places.
    'steps: loop {
        let step = block_next_token::step_from(text, i, mode);
        say_step(rt, text, i, step.ahead);
        match step.ahead {
            None => return,
            Some(token) => match token {
                Token::Bad(_) => return,
                _ => i = step.at,
            },
        }
    }
}

fn say_step(rt: &impl Print, text: &[u8], at: usize, ahead: Option<Token>) {
    let _ = print!(rt; "  at {at}:");
    say_ahead(rt, text, ahead);
}

fn say_ahead(rt: &impl Print, text: &[u8], ahead: Option<Token>) {
    match ahead {
        None => say(rt, b" end\n"),
        Some(token) => say_token(rt, text, token),
    }
}

fn say_token(rt: &impl Print, text: &[u8], token: Token) {
    match token {
        Token::Bad(place) => say_bad(rt, place),
        Token::Tag(from, to) => say_part(rt, b" tag", text, from, to),
        Token::Id(from, to) => say_part(rt, b" id", text, from, to),
        Token::Class(from, to) => say_part(rt, b" class", text, from, to),
        Token::Plain(from, to, end) => say_key(rt, b" plain", text, from, to, end),
        Token::Quoted(from, to, end) => say_key(rt, b" quoted", text, from, to, end),
        Token::Bare(from, to) => say_part(rt, b" bare", text, from, to),
    }
    say(rt, b"\n");
}

// The bytes stop being a token at the place.
fn say_bad(rt: &impl Print, place: usize) {
    let _ = print!(rt; " no token, wrong at {place}");
}

fn say_part<'a>(rt: &impl Print, kind: &'a [u8], text: &'a [u8], from: usize, to: usize) {
    say(rt, kind);
    say(rt, b" `");
    say(rt, set_table::bytes_of(text, from, to));
    say(rt, b"`");
}

// A key from `from` up to its `=` at `to`, and what stands behind that up to `end`.
fn say_key<'a>(
    rt: &impl Print,
    kind: &'a [u8],
    text: &'a [u8],
    from: usize,
    to: usize,
    end: usize,
) {
    say_part(rt, b" key", text, from, to);
    say(rt, kind);
    say(rt, b" `");
    if to < end {
        say(rt, set_table::bytes_of(text, to + 1, end));
    }
    say(rt, b"`");
}

fn say_count(rt: &impl Print, count: Option<usize>) {
    match count {
        None => say(rt, b"  no count\n"),
        Some(n) => {
            let _ = println!(rt; "  tokens: {n}");
        }
    }
}
