// Answers, laid into a lent buffer. Each function takes the place from which to write and answers the place behind; a byte
// that has no room is dropped.
use crate::fields;

// Adds one byte.
pub(crate) fn put_byte(output: &mut [u8], at: usize, byte: u8) -> usize {
    if output.len() <= at {
        return at;
    }
    output[at] = byte;
    at + 1
}

// Adds bytes as they are.
pub(crate) fn put(output: &mut [u8], at: usize, s: &[u8]) -> usize {
    let mut to = at;
    for byte in s {
        to = put_byte(output, to, *byte);
    }
    to
}

// Adds a number in decimal.
pub(crate) fn put_number(output: &mut [u8], at: usize, n: usize) -> usize {
    let mut digits = [0u8; 20];
    let k = text_digits::put_decimal(&mut digits, 0, n as u64);
    put(output, at, fields::part(&digits, 0, k))
}

// Adds bytes in lower-case hex, `-` for none.
pub(crate) fn put_hex(output: &mut [u8], at: usize, s: &[u8]) -> usize {
    if s.len() == 0 {
        return put_byte(output, at, b'-');
    }
    put_pairs(output, at, s)
}

// Adds bytes in lower-case hex, nothing for none.
pub(crate) fn put_pairs(output: &mut [u8], at: usize, s: &[u8]) -> usize {
    let mut to = at;
    for byte in s {
        to = put_pair(output, to, *byte);
    }
    to
}

fn put_pair(output: &mut [u8], at: usize, byte: u8) -> usize {
    let next = put_byte(output, at, digit(byte / 16));
    put_byte(output, next, digit(byte % 16))
}

// A digit in hex; a value above 15 has none.
fn digit(n: u8) -> u8 {
    match n {
        0..=9 => b'0' + n,
        10..=15 => b'a' + (n - 10),
        _ => b'?',
    }
}

// Ends an answer's line, and writes out where many answers wait.
pub(crate) fn end_line(rt: &impl Print, output: &mut [u8], at: usize) -> usize {
    let next = put_byte(output, at, b'\n');
    if next < 131072 {
        return next;
    }
    flush(rt, output, next)
}

// Writes all out and answers the new place to write at, the front.
pub(crate) fn flush(rt: &impl Print, output: &[u8], at: usize) -> usize {
    let _ = rt.write_all(fields::part(output, 0, at));
    0
}
