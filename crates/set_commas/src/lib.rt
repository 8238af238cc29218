// A value's pieces between its commas, by their places in the raw text: no buffer, and one walk over the value.
#![tactic(auto)]

ghost use Rattle.std.specs.Prelude.{◌≡◌, length};
ghost use Rattle.set_marks.specs.Marks.{bytes_in};
ghost use Rattle.set_commas.specs.Commas.{comma_pieces, cut_at, cut_paper};

// Where a piece ends: at the value's end, or at a comma, with where the next piece begins.
#[derive(Clone, Copy)]
pub enum Cut {
    Last(usize),
    Comma(usize, usize),
}

// Where the piece that begins at `at` ends. A backslash that escapes the comma behind the piece belongs to no piece.
pub fn cut_from(s: &[u8], at: usize, quoted: bool) -> Cut
    ensures value { result ≡ cut_at quoted s.now at }
    ensures result_value { cut_paper result ≡ cut_paper (cut_at quoted s.now at) }
{
    let mut i = at;
    'bytes: loop {
        match set_marks::value_piece(s, i, quoted) {
            None => break 'bytes Cut::Last(i),
            Some((b, next)) => {
                if b == b',' {
                    break 'bytes Cut::Comma(i, next);
                }
                i = next;
                continue 'bytes;
            }
        }
    }
}

// How many pieces the value has: one more than commas.
pub fn piece_count(s: &[u8], quoted: bool) -> usize
    ensures { result ≡ length (comma_pieces (bytes_in quoted s.now)) }
{
    let mut n: usize = 1;
    let mut i = 0;
    'bytes: loop {
        match set_marks::value_piece(s, i, quoted) {
            None => break 'bytes n,
            Some((b, next)) => {
                i = next;
                if b != b',' {
                    continue 'bytes;
                }
                n += 1;
                continue 'bytes;
            }
        }
    }
}
