// Requests for how far bytes can be continued to a name or a tag: `leaf place_of KIND HEX`.
use crate::reply::Reply;
use crate::{ask, fields, reply};

// Whether a request is one of them.
pub(crate) fn is_asked(line: &[u8]) -> bool {
    line.starts_with(b"leaf place_of ")
}

// Answers it, its text laid into a.
pub(crate) fn answer(line: &[u8], a: &mut [u8], output: &mut [u8], at: usize) -> usize {
    let laid = fields::unhex(fields::field(line, b' ', 3), a);
    let r = reply_to(line, laid.bad, fields::part(a, 0, laid.n));
    reply::put(output, at, r, b"", b"")
}

fn reply_to(line: &[u8], bad: u8, text: &[u8]) -> Reply {
    if bad != 0 {
        return reply::alone(reply::ERROR);
    }
    if ask::cap_of(line, ask::LEAF, 4).bad != 0 {
        return reply::alone(reply::ERROR);
    }
    match fields::index_of(b"name/key/bare/tag", fields::field(line, b' ', 2)) {
        0 => told(text_names::is_css_identifier(text)),
        1 => told(text_names::is_identifier(text)),
        2 => told(text_names::is_boolean_attr_name(text)),
        3 => told(text_names::is_language_tag(text)),
        _ => reply::alone(reply::ERROR),
    }
}

fn told(tested: Result<(), usize>) -> Reply {
    match tested {
        Ok(()) => reply::alone(reply::WHOLE),
        Err(n) => reply::numbered(reply::NUMBER, n),
    }
}
