// The entries that take a payload alone, and what may continue a wrapped run: they say yes or no.
#![tactic(auto)]

ghost use Rattle.std.specs.Prelude.{◌≡◌, cond, ◌&&◌, ◌+◌, ◌≤◌, ◌<◌, eqb, length, get_or, drop};
ghost use Rattle.base_bytes.specs.declared.Mode.TheVariants.{Strict, Loose};
ghost use Rattle.base_bytes.specs.Bytes.{close_brace, open_brace};
ghost use Rattle.block_payloads.specs.Payloads.{is_payload, behind_last, continues, is_continuation};

use base_bytes::Mode;

// Whether the bytes are a payload, in either mode.
fn is_payload(s: &[u8], mode: Mode) -> bool
    ensures { result ≡ is_payload mode s.now }
{
    if !text_checks::is_text(s) {
        return false;
    }
    text_names::is_whole(block_tokens::payload_test(s, mode))
}

// Whether the bytes are a payload of an inline block.
pub fn parse_attrs(s: &[u8]) -> bool
    ensures { result ≡ is_payload Strict s.now }
{
    is_payload(s, Mode::Strict)
}

// Whether the bytes are a payload of a line's block.
pub fn is_valid_attr_payload(s: &[u8]) -> bool
    ensures { result ≡ is_payload Loose s.now }
{
    is_payload(s, Mode::Loose)
}

// Behind `}{` at i, or as before.
fn behind(s: &[u8], i: usize, best: usize) -> usize
    requires { i + 1 < length s.now }
    ensures { result ≡ cond (eqb (get_or s.now i 0) close_brace && eqb (get_or s.now (i + 1) 0) open_brace) (i + 2) best }
{
    if s[i] == b'}' && s[i + 1] == b'{' {
        i + 2
    } else {
        best
    }
}

// Where what stands behind the last `}{` begins; 0 where there is none.
fn behind_last(s: &[u8]) -> usize
    ensures { (result ≤ length s.now) × (drop result s.now ≡ behind_last s.now) }
{
    let mut best = 0;
    for i in 1..s.len() {
        best = behind(s, i - 1, best);
    }
    best
}

// Whether a trimmed line may continue a wrapped run, for any bytes.
pub fn continues_run(l: &[u8]) -> bool
    ensures { result ≡ continues l.now }
{
    let n = l.len();
    if n == 0 {
        return false;
    }
    if l[n - 1] == b'}' {
        return true;
    }
    let from = behind_last(l);
    text_names::is_whole(block_tokens::payload_test(&l[from..], Mode::Loose))
}

// Whether a line may continue a wrapped run.
pub fn valid_wrapped_attr_continuation(s: &[u8]) -> bool
    ensures { result ≡ is_continuation s.now }
{
    if !text_checks::is_text(s) {
        return false;
    }
    let r = text_lines::trim_ascii(s);
    let from = r.from;
    let to = r.to;
    continues_run(&s[from..to])
}
