// The classes of bytes that document 01 names, with a function for each that stands between or in values, and the two modes.
#![tactic(auto)]

ghost use Rattle.std.specs.Prelude.{◌≡◌};
ghost use Rattle.base_bytes.specs.Bytes.{is_space, is_punct, is_quote, is_plain, is_blank, is_indent, is_tail};

// Which bytes part tokens: spaces alone, or also CR and LF.
#[derive(Clone, Copy, PartialEq, Eq)]
pub enum Mode {
    Strict,
    Loose,
}

// One of the five ASCII whitespace bytes: what trimming drops and class values are split at.
pub fn is_space(b: u8) -> bool
    ensures { result ≡ is_space b }
{
    matches!(b, b'\t' | b'\n' | 12 | b'\r' | b' ')
}

// ASCII punctuation: what a backslash can escape.
pub fn is_punct(b: u8) -> bool
    ensures { result ≡ is_punct b }
{
    matches!(b, b'!'..=b'/' | b':'..=b'@' | b'['..=b'`' | b'{'..=b'~')
}

// A quote of either kind.
pub fn is_quote(b: u8) -> bool
    ensures { result ≡ is_quote b }
{
    matches!(b, b'"' | b'\'')
}

// A byte of an unquoted value.
pub fn is_plain(b: u8) -> bool
    ensures { result ≡ is_plain b }
{
    !matches!(
        b,
        b' ' | b'\t' | b'\n' | b'\r' | b'"' | b'\'' | b'\\' | b'|' | b'}'
    )
}

// A byte that parts tokens.
pub fn is_blank(mode: Mode, b: u8) -> bool
    ensures { result ≡ is_blank mode b }
{
    match mode {
        Mode::Strict => b == b' ',
        Mode::Loose => matches!(b, b'\n' | b'\r' | b' '),
    }
}

// A byte that indents a line.
pub fn is_indent(b: u8) -> bool
    ensures { result ≡ is_indent b }
{
    matches!(b, b'\t' | b' ')
}

// A byte that goes on a character of UTF-8.
pub fn is_tail(b: u8) -> bool
    ensures { result ≡ is_tail b }
{
    matches!(b, 0x80..=0xBF)
}
