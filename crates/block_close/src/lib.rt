// Where a block closes: the first `}` that no quote and no backslash covers.
#![tactic(auto)]

ghost use Rattle.std.specs.Prelude.{◌≡◌, true, drop};
ghost use Rattle.base_bytes.specs.Bytes.{is_quote};
ghost use Rattle.block_grammar.specs.Close.{close_paper};
ghost use Rattle.block_grammar.specs.ComputedClose.{find_close};
ghost use Rattle.block_close.specs.Inner.{no_lf_first, Shuts};

// Whether the line goes on at k: a byte that is no LF stands there.
fn goes_on(s: &[u8], k: usize) -> bool
    ensures { result ≡ no_lf_first (drop k s.now) }
{
    if s.len() <= k {
        return false;
    }
    s[k] != b'\n'
}

// Where the quote q closes, from i on; an LF before that means no close.
fn quote_close(s: &[u8], i: usize, q: u8) -> Option<usize>
    requires { is_quote q ≡ true }
    ensures { Shuts s.now q i result }
{
    let mut k = i;
    'bytes: loop {
        if !goes_on(s, k) {
            break 'bytes None;
        }
        if s[k] == q {
            break 'bytes Some(k);
        }
        if s[k] == b'\\' {
            if !goes_on(s, k + 1) {
                break 'bytes None;
            }
            k += 2;
            continue 'bytes;
        }
        k += 1;
        continue 'bytes;
    }
}

// The first `}` from `at` on that no quote and no backslash covers, with no LF before it.
pub fn find_close(s: &[u8], at: usize) -> Option<usize>
    ensures value { result ≡ find_close s.now at }
    ensures result_value { close_paper result ≡ close_paper (find_close s.now at) }
{
    let mut i = at;
    'bytes: loop {
        if !goes_on(s, i) {
            break 'bytes None;
        }
        match s[i] {
            b'}' => break 'bytes Some(i),
            b'\\' => {
                if !goes_on(s, i + 1) {
                    break 'bytes None;
                }
                i += 2;
                continue 'bytes;
            }
            b'"' | b'\'' => match quote_close(s, i + 1, s[i]) {
                None => break 'bytes None,
                Some(e) => {
                    i = e + 1;
                    continue 'bytes;
                }
            },
            _ => {
                i += 1;
                continue 'bytes;
            }
        }
    }
}
