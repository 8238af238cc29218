// Lines of blocks that stand back to back.
#![tactic(auto)]

ghost use Rattle.std.specs.Prelude.{◌≡◌, ◌≤◌, ◌<◌, length, take};
ghost use Rattle.base_bytes.specs.declared.Mode.TheVariants.{Loose};
ghost use Rattle.block_chain.specs.Chain.{good_line};
ghost use Rattle.block_chain.specs.Inner.{blocks_ok, WentPast};

use base_bytes::Mode;

// The front of the text up to `to`; the whole of it where it is shorter.
fn front(text: &[u8], to: usize) -> &[u8]
    ensures { result.now ≡ take to text.now }
{
    if to <= text.len() {
        return &text[..to];
    }
    text
}

// Where the block closes whose brace stands at i, if it is a good one.
fn block_close(s: &[u8], i: usize) -> Option<usize>
    requires { i < length s.now }
    ensures { WentPast Loose s.now i result }
{
    if s[i] != b'{' {
        return None;
    }
    match block_close::find_close(s, i + 1) {
        None => None,
        Some(e) => {
            if text_names::is_whole(block_tokens::payload_test(&s[i + 1..e], Mode::Loose)) {
                return Some(e);
            }
            None
        }
    }
}

// Whether good blocks stand from `from` on up to the end.
fn blocks_ok(s: &[u8], from: usize) -> bool
    requires { from ≤ length s.now }
    ensures { result ≡ blocks_ok Loose s.now from }
{
    let mut i = from;
    'blocks: loop {
        if s.len() <= i {
            break 'blocks true;
        }
        match block_close(s, i) {
            None => break 'blocks false,
            Some(e) => {
                i = e + 1;
                continue 'blocks;
            }
        }
    }
}

// Whether the part of the text from `from` up to `to` is one or more good blocks.
pub fn good_line(text: &[u8], from: usize, to: usize) -> bool
    ensures { result ≡ good_line text.now from to }
{
    let s = front(text, to);
    if s.len() <= from {
        return false;
    }
    blocks_ok(s, from)
}
