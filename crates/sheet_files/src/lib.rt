// The sheets that a program is to read: the files that its arguments name, one after the other, or standard input where there are none. What stands in
// files and in arguments is nothing that can be proved, so these functions promise no more than that they are safe.
#![tactic(auto)]

ghost use Rattle.std.specs.Prelude.{◌≤◌, length};

use base_refusals::Refusal;
use std::env::FillError;
use std::io::Read;
use std::rt::{Env, Files};
use std::{fs, io, str};

// One byte more than a sheet may have is enough to refuse it, so no further one is read.
pub const TEXT: usize = base_refusals::MAX_TEXT + 1;

// What the programs need of the system that runs them.
pub trait System: Env + Files + Input + Print + Alloc {
    // Writes bytes to standard error, and these need not be text.
    fn warn_all(&self, words: &[u8]) -> io::Result<()>;
}

impl System for HostRuntime {
    fn warn_all(&self, words: &[u8]) -> io::Result<()> {
        self.stderr().write_all(words)
    }
}

// How many sheets there are. The first argument is the program's own name.
pub fn count(rt: &impl Env) -> usize {
    let n = words(rt);
    if n == 0 {
        return 1;
    }
    n
}

// No argument is longer, as Linux hands them out.
pub const WORD: usize = 131072;

// No name of a file is longer.
const NAME: usize = 4096;

// How many arguments there are behind the program's own name.
pub fn words(rt: &impl Env) -> usize {
    for i in 0..usize::MAX {
        if !is_there(rt, i) {
            return i;
        }
    }
    usize::MAX
}

// Whether there is an argument of that number, counted from 0.
fn is_there(rt: &impl Env, i: usize) -> bool {
    if i == usize::MAX {
        return false;
    }
    match rt.arg(i + 1, &mut [0u8; 0]) {
        Ok(_) => true,
        Err(FillError::TooLong) => true,
        Err(FillError::NotPresent) => false,
    }
}

// Lays an argument, counted from 0, at the front of lent memory, and answers how many bytes it has.
pub fn word(rt: &impl Env, i: usize, out: &mut [u8]) -> usize
    ensures { result ≤ length out.new }
{
    if i == usize::MAX {
        return 0;
    }
    match rt.arg(i + 1, out) {
        Ok(n) => n,
        Err(_) => 0,
    }
}

// Whether the first argument is that word.
pub fn first_is(rt: &impl Env, word: &[u8]) -> bool {
    if !is_there(rt, 0) {
        return false;
    }
    let mut name = [0u8; NAME];
    let n = self::word(rt, 0, &mut name);
    base_lists::same_bytes(&name[..n], word)
}

// Reads a sheet by its number, counted from 0, into lent memory. One that an argument names stands under a heading, and `-` names standard input.
pub fn read(rt: &impl System, i: usize, text: &mut [u8]) -> Option<usize> {
    if !is_there(rt, 0) {
        return Some(read_input(rt, text));
    }
    if i == usize::MAX {
        return None;
    }
    let mut name = [0u8; NAME];
    let n = word(rt, i, &mut name);
    say(rt, b"==> ");
    say(rt, &name[..n]);
    say(rt, b" <==\n");
    match read_named(rt, &name[..n], text) {
        Ok(k) => Some(k),
        Err(_) => {
            say(rt, b"not there\n");
            None
        }
    }
}

// The same without a heading. What can't be read is told on standard error.
pub fn read_plain(rt: &impl System, i: usize, text: &mut [u8]) -> Option<usize> {
    if !is_there(rt, 0) {
        return Some(read_input(rt, text));
    }
    if i == usize::MAX {
        return None;
    }
    let mut name = [0u8; NAME];
    let n = word(rt, i, &mut name);
    match read_named(rt, &name[..n], text) {
        Ok(k) => Some(k),
        Err(why) => {
            fail(rt, &name[..n], why);
            None
        }
    }
}

// Says on standard error what is wrong with the sheet of that number.
pub fn complain(rt: &impl System, i: usize, words: &[u8]) {
    if i == usize::MAX {
        return;
    }
    let mut name = [0u8; NAME];
    let n = word(rt, i, &mut name);
    warn(rt, &name[..n]);
    warn(rt, words);
}

// Reads the sheet of that name, and answers how many bytes it has. The library opens no file whose name isn't UTF-8.
fn read_named(rt: &impl System, name: &[u8], text: &mut [u8]) -> io::Result<usize> {
    if base_lists::same_bytes(name, b"-") {
        return Ok(read_input(rt, text));
    }
    let Ok(path) = str::from_utf8(name) else {
        return Err(io::Error::new(io::ErrorKind::InvalidInput, "the name is not UTF-8"));
    };
    let mut file = fs::open(rt, path)?;
    Ok(read_full(&mut file, text))
}

fn read_input(rt: &impl Input, text: &mut [u8]) -> usize {
    let mut reader = rt.reader();
    read_full(&mut reader, text)
}

// Reads until the memory is full, the input ends or a read fails, and answers how many bytes came.
fn read_full(from: &mut impl Read, text: &mut [u8]) -> usize {
    let mut done = 0;
    // A while: a read brings as many bytes as it likes, so no range or iterator gives its steps.
    while done < text.len() {
        match from.read(&mut text[done..]) {
            Ok(0) | Err(_) => break,
            Ok(n) => done += n,
        }
    }
    done
}

// Says on standard error why a file can't be read.
fn fail(rt: &impl System, name: &[u8], why: io::Error) {
    warn(rt, name);
    warn(rt, b": ");
    match format!(in rt.alloc(); "{why}") {
        Ok(text) => warn(rt, words_of(text.as_str()).as_bytes()),
        Err(_) => {}
    }
    warn(rt, b"\n");
}

// An error's words without its number.
fn words_of(text: &str) -> &str {
    match text.split_once(" (os error ") {
        Some((words, _)) => words,
        None => text,
    }
}

// Writes `refused`, a tab and a number.
pub fn say_refused(rt: &impl Print, why: Refusal) {
    say(rt, b"refused\t");
    say_number(rt, wide(base_refusals::number(why)));
    say(rt, b"\n");
}

fn wide(n: u8) -> usize {
    n as usize
}

// Writes a number in decimal.
pub fn say_number(rt: &impl Print, n: usize) {
    let _ = rt.print(n);
}

// Writes bytes to standard error.
pub fn warn(rt: &impl System, words: &[u8]) {
    let _ = rt.warn_all(words);
}

// Writes bytes to standard output, and answers whether all were.
pub fn say(rt: &impl Print, words: &[u8]) -> bool {
    rt.write_all(words).is_ok()
}
