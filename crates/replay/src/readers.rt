// Whether the two readers at a brace answer alike: the answer with its places, and the set row by row, the rows past the counts too.
use base_bytes::Mode;
use read_brace::{NotRead, Read};
use read_tags::Tags;

// What was read, and whether both readers said so.
#[derive(Clone, Copy)]
pub(crate) struct Twice {
    pub(crate) read: Read,
    pub(crate) alike: bool,
}

// Asks the first reader and the one that reads in one pass.
pub(crate) fn ordinary(text: &[u8], place: usize, mode: Mode) -> Twice {
    let read = read_brace::read_attrs_at_with(text, place, mode);
    let alike = is_alike(read, read_once::read_attrs_once(text, place, mode));
    Twice { read, alike }
}

// The same with the tag looked at.
pub(crate) fn strictly(text: &[u8], place: usize, mode: Mode) -> Twice {
    let read = read_tags::read_attrs_at_tags(text, place, mode, Tags::WellFormed);
    let other = read_once::read_attrs_once_with(text, place, mode, Tags::WellFormed);
    let alike = is_alike(read, other);
    Twice { read, alike }
}

fn is_alike(a: Read, b: Read) -> bool {
    same_answer(a.answer, b.answer) && a.set == b.set
}

fn same_answer(a: Result<usize, NotRead>, b: Result<usize, NotRead>) -> bool {
    match (a, b) {
        (Err(NotRead::Refused(r)), Err(NotRead::Refused(q))) => r == q,
        (Err(NotRead::Unread(n)), Err(NotRead::Unread(m))) => n == m,
        (Ok(n), Ok(m)) => n == m,
        _ => false,
    }
}
