// Columns: characters from 0, with tab stops of 4.
#![tactic(auto)]

ghost use Rattle.std.specs.Prelude.{◌≡◌};
ghost use Rattle.text_tabs.specs.Columns.{tab_stop, column_after, columns_from, indent_columns, capped};

// The greatest column that a number holds: a text of 65,535 bytes never comes near.
pub const MOST: usize = 18446744073709551615;

// The column behind the byte b, which stands at column c or goes on the character before it.
pub fn column_after(c: usize, b: u8) -> usize
    ensures { result ≡ capped (column_after c b) }
{
    if b == b'\t' {
        return tab_stop(c);
    }
    if base_bytes::is_tail(b) {
        return c;
    }
    if c == MOST { MOST } else { c + 1 }
}

// The next multiple of 4.
fn tab_stop(c: usize) -> usize
    ensures { result ≡ capped (tab_stop c) }
{
    if MOST - 4 < c {
        return MOST;
    }
    c + (4 - c % 4)
}

// The column behind the last byte, where the first stands at column c.
pub fn columns(c: usize, s: &[u8]) -> usize
    ensures { result ≡ capped (columns_from c s.now) }
{
    s.iter().fold(c, |at, b| column_after(at, *b))
}

// The column behind the spaces and tabs at the front.
pub fn indent_columns(s: &[u8]) -> usize
    ensures { result ≡ capped (indent_columns s.now) }
{
    let mut column = 0;
    for b in s {
        if !base_bytes::is_indent(*b) {
            return column;
        }
        column = column_after(column, *b);
    }
    column
}
