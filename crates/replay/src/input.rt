// Request lines from standard input, through a buffer that holds the longest.
use crate::{answer, fields, out};
use std::io::Read;

// How many bytes wait at the front of each buffer, for their LF and to be written out, and whether there is more to read.
#[derive(Clone, Copy)]
struct State {
    read: usize,
    at: usize,
    more: bool,
}

// How many bytes came, and how many the buffer then has.
#[derive(Clone, Copy)]
struct Came {
    n: usize,
    have: usize,
}

// How far the lines of a buffer have been answered, and where the next answer goes.
#[derive(Clone, Copy)]
struct Answered {
    from: usize,
    at: usize,
}

// Answers every line. A proved loop has to end, and nothing says that the input does, so the loop counts its turns down,
// from a number that no run uses up.
pub(crate) fn answer_all(
    rt: &(impl Input + Print),
    input: &mut [u8],
    a: &mut [u8],
    b: &mut [u8],
    join: &mut [u8],
    index: &mut [u8],
    table: &mut [usize],
    laid: &mut [u8],
    output: &mut [u8],
) {
    let mut s = State {
        read: 0,
        at: 0,
        more: true,
    };
    for _ in 0..u64::MAX {
        s = turn(rt, input, a, b, join, index, table, laid, output, s);
        if !s.more {
            return;
        }
    }
}

// Reads once, and answers each line that is whole.
fn turn(
    rt: &(impl Input + Print),
    input: &mut [u8],
    a: &mut [u8],
    b: &mut [u8],
    join: &mut [u8],
    index: &mut [u8],
    table: &mut [usize],
    laid: &mut [u8],
    output: &mut [u8],
    s: State,
) -> State {
    let came = take(rt, input, s.read);
    let have = came.have;
    let done = answer_lines(
        rt,
        fields::part(input, 0, have),
        a,
        b,
        join,
        index,
        table,
        laid,
        output,
        s.at,
    );
    State {
        read: keep(input, done.from, have),
        at: flushed(rt, output, done.at, came.n),
        more: came.n > 0,
    }
}

// Reads once behind the bytes that wait.
fn take(rt: &impl Input, input: &mut [u8], read: usize) -> Came {
    let n = fill(rt, input, read);
    Came {
        n,
        have: ended(input, read, n),
    }
}

// Keeps what waits for its LF, and answers how much it is.
fn keep(input: &mut [u8], from: usize, have: usize) -> usize {
    let left = shift(input, from, have);
    shortened(input, left)
}

// How many bytes the buffer has where n more came. At the end of the input a line may lack its LF, and is given it.
fn ended(input: &mut [u8], read: usize, n: usize) -> usize {
    if n > 0 {
        return added(read, n);
    }
    if read == 0 {
        return 0;
    }
    out::put_byte(input, read, b'\n')
}

// Writes all out at the end of the input.
fn flushed(rt: &impl Print, output: &[u8], at: usize, n: usize) -> usize {
    if n > 0 {
        return at;
    }
    out::flush(rt, output, at)
}

fn added(a: usize, b: usize) -> usize {
    if 18446744073709551615 - a < b {
        a
    } else {
        a + b
    }
}

// Reads once behind the bytes that wait, and answers how many bytes came.
fn fill(rt: &impl Input, input: &mut [u8], read: usize) -> usize {
    if input.len() < read {
        return 0;
    }
    let mut reader = rt.reader();
    match reader.read(&mut input[read..]) {
        Ok(n) => n,
        Err(_) => 0,
    }
}

// Answers each line of the buffer that has its LF.
fn answer_lines(
    rt: &impl Print,
    lines: &[u8],
    a: &mut [u8],
    b: &mut [u8],
    join: &mut [u8],
    index: &mut [u8],
    table: &mut [usize],
    laid: &mut [u8],
    output: &mut [u8],
    at: usize,
) -> Answered {
    let mut from = 0;
    let mut to = at;
    // A while: the place behind the last whole line is answered too, which an iterator over the lines does not tell.
    while from < lines.len() {
        let end = fields::find(lines, from, b'\n');
        if lines.len() <= end {
            return Answered { from, at: to };
        }
        let next = end + 1;
        to = answer(
            fields::part(lines, from, end),
            a,
            b,
            join,
            index,
            table,
            laid,
            output,
            to,
        );
        to = out::end_line(rt, output, to);
        from = next;
    }
    Answered { from, at: to }
}

// Moves what waits for its LF to the front of the buffer, and answers how much it is.
fn shift(input: &mut [u8], from: usize, have: usize) -> usize {
    for i in from..have {
        copy_byte(input, i, i - from);
    }
    have.saturating_sub(from)
}

fn copy_byte(input: &mut [u8], from: usize, to: usize) {
    if input.len() <= from {
        return;
    }
    if input.len() <= to {
        return;
    }
    input[to] = input[from];
}

// Where a line is too long for the buffer, a byte that no request begins with takes its place: what follows up to the LF
// goes behind it and is answered as a request that is none known.
fn shortened(input: &mut [u8], left: usize) -> usize {
    if left < input.len() {
        return left;
    }
    if input.len() == 0 {
        return 0;
    }
    input[0] = b'?';
    1
}
