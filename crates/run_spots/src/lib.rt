// Where a walk over a line stands, and what the line opens with and closes.
#![tactic(auto)]

ghost use Rattle.std.specs.Prelude.{◌≡◌, ◌≤◌, eqb, length, drop};
ghost use Rattle.block_payloads.specs.Payloads.{opens};
ghost use Rattle.base_lists.specs.Lists.{begins_pair};
ghost use Rattle.run_spots.specs.Spots.{is_stray, inside_after, opens_by, spot_after, closes_comment, shallow_or, opens_comment};

use block_grammar::Scan;

// Where a walk stands in a line: the column of the next byte, whether a block is open, and the column of the last brace that opened one.
#[derive(Clone, Copy)]
pub struct Spot {
    pub scan: Scan,
    pub column: usize,
    pub inside: bool,
    pub brace: usize,
}

// Whether the byte is a stray close.
pub fn is_stray(p: Spot, b: u8) -> bool
    ensures { result ≡ is_stray p b }
{
    let st = p.scan;
    if p.inside {
        return false;
    }
    run_scanners::is_bare(st, b, b'}')
}

// Whether a block is open behind the byte.
pub fn inside_after(p: Spot, b: u8) -> bool
    ensures { result ≡ inside_after p b }
{
    let st = p.scan;
    if p.inside {
        return !run_scanners::is_bare(st, b, b'}');
    }
    run_scanners::is_bare(st, b, b'{')
}

// Whether the byte opens a block.
fn opens_at(p: Spot, b: u8) -> bool
    ensures { result ≡ opens_by p b }
{
    let st = p.scan;
    if p.inside {
        return false;
    }
    run_scanners::is_bare(st, b, b'{')
}

// The column of the last brace that opened a block.
pub fn brace_after(p: Spot, b: u8) -> usize
    ensures { result ≡ (spot_after p b).brace }
{
    if opens_at(p, b) { p.column } else { p.brace }
}

// Whether the line's first byte that is no whitespace is a brace.
pub fn opens_brace(line: &[u8]) -> bool
    ensures { result ≡ opens line.now }
{
    let from = text_lines::trim_ascii_start(line);
    if line.len() <= from {
        return false;
    }
    line[from] == b'{'
}

// Whether the bytes b and c stand at i.
fn pair_at(s: &[u8], i: usize, b: u8, c: u8) -> bool
    requires { i ≤ length s.now }
    ensures { result ≡ begins_pair b c (drop i s.now) }
{
    if s.len() - i < 2 {
        return false;
    }
    if s[i] != b {
        return false;
    }
    s[i + 1] == c
}

// Whether the line opens a comment.
pub fn opens_comment(line: &[u8]) -> bool
    ensures { result ≡ opens_comment line.now }
{
    let from = text_lines::trim_ascii_start(line);
    pair_at(line, from, b'{', b'%')
}

// Whether a comment closes in the line.
pub fn closes_comment(s: &[u8]) -> bool
    ensures { result ≡ closes_comment s.now }
{
    (0..s.len()).any(|i| pair_at(s, i, b'%', b'}'))
}

// Whether the line is too far left, or one before it was.
pub fn shallow_or(shallow: bool, n: usize, column: usize, brace: usize) -> bool
    ensures { result ≡ shallow_or shallow (eqb n 0) column brace }
{
    if shallow {
        return true;
    }
    if n == 0 {
        return false;
    }
    column <= brace
}
