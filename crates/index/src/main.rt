// The program `index`: it keeps an index beside a sheet. Behind the word `build` it builds the index of the sheet that the next argument names, and writes
// it; behind `find` it looks up in the index that the next argument names the first record of the id that stands behind it, and writes its first line,
// line count and offset, parted by tabs, or `not found`; behind `mend` stand the first and the last line that were replaced, the old sheet, the new one
// and the old one's index, and it writes the new one's. `-` names standard input. A refusal is one line, `refused`, a tab and its number. Nothing is
// written where a file can't be read, an index is longer than any sheet's, or the words are others.
#![tactic(auto)]

use base_refusals::Refusal;
use sheet_files::System;
use std::rt::Env;

// No sheet has more blocks, each of which takes four bytes with its LF.
const ROWS: usize = 16384;
// Their table, five numbers a row.
const NUMBERS: usize = ROWS * 5;
// No sheet's index is longer: the first line; for each record three numbers of up to five digits, three tabs and LF; and all ids together, which are no
// longer than the sheet.
const INDEX: usize = sheet_records::HEADER + ROWS * 19 + base_refusals::MAX_TEXT;
// One byte more is enough to see that an index is longer, so no further one is read.
const FILE: usize = INDEX + 1;

fn main(rt: HostRuntime) {
    let words = sheet_files::words(&rt);
    if sheet_files::first_is(&rt, b"build") {
        return build(&rt, words);
    }
    if sheet_files::first_is(&rt, b"find") {
        return find(&rt, words);
    }
    if sheet_files::first_is(&rt, b"mend") {
        return mend(&rt, words);
    }
    wrong(&rt)
}

fn wrong(rt: &impl System) {
    sheet_files::warn(
        rt,
        b"index: build SHEET, find INDEX ID, or mend A B OLD NEW INDEX\n",
    );
}

// Builds the index of a sheet.
fn build(rt: &impl System, words: usize) {
    if words != 2 {
        return wrong(rt);
    }
    let mut text = [0u8; sheet_files::TEXT];
    match sheet_files::read_plain(rt, 1, &mut text) {
        None => {}
        Some(n) => write_built(rt, set_table::bytes_of(&text, 0, n)),
    }
}

fn write_built(rt: &impl Print, text: &[u8]) {
    let mut join = [0u8; base_refusals::MAX_TEXT];
    let mut table = [0usize; NUMBERS];
    let mut out = [0u8; INDEX];
    let built = sheet_index::build_index(text, &mut join, &mut table, &mut out);
    write_index(rt, built, &out);
}

// Writes the index that was laid at the front of lent memory, or why there is none.
fn write_index(rt: &impl Print, built: Result<(usize, usize), Refusal>, out: &[u8]) {
    match built {
        Err(why) => sheet_files::say_refused(rt, why),
        Ok((_, bytes)) => {
            sheet_files::say(rt, set_table::bytes_of(out, 0, bytes));
        }
    }
}

// Looks an id up in an index.
fn find(rt: &impl System, words: usize) {
    if words != 3 {
        return wrong(rt);
    }
    let mut index = [0u8; FILE];
    let mut id = [0u8; sheet_files::WORD];
    let k = sheet_files::word(rt, 2, &mut id);
    match read_index(rt, 1, &mut index) {
        None => {}
        Some(n) => write_found(
            rt,
            sheet_index::find_record(
                set_table::bytes_of(&index, 0, n),
                set_table::bytes_of(&id, 0, k),
            ),
        ),
    }
}

// Reads an index by its number among the arguments. One that is longer than any sheet's is no index, and no part of it is read.
fn read_index(rt: &impl System, i: usize, index: &mut [u8]) -> Option<usize> {
    match sheet_files::read_plain(rt, i, index) {
        None => None,
        Some(n) => {
            if n <= INDEX {
                return Some(n);
            }
            sheet_files::warn(rt, b"index: ");
            sheet_files::complain(rt, i, b" is longer than any sheet's index\n");
            None
        }
    }
}

fn write_found(rt: &impl Print, found: Result<Option<(usize, usize, usize)>, Refusal>) {
    match found {
        Err(why) => sheet_files::say_refused(rt, why),
        Ok(None) => {
            sheet_files::say(rt, b"not found\n");
        }
        Ok(Some((line, count, offset))) => write_row(rt, line, count, offset),
    }
}

// Writes three numbers parted by tabs.
fn write_row(rt: &impl Print, line: usize, count: usize, offset: usize) {
    sheet_files::say_number(rt, line);
    sheet_files::say(rt, b"\t");
    sheet_files::say_number(rt, count);
    sheet_files::say(rt, b"\t");
    sheet_files::say_number(rt, offset);
    sheet_files::say(rt, b"\n");
}

// Mends an index.
fn mend(rt: &impl System, words: usize) {
    if words != 6 {
        return wrong(rt);
    }
    let mut old = [0u8; sheet_files::TEXT];
    let mut new = [0u8; sheet_files::TEXT];
    let mut index = [0u8; FILE];
    let n = length_of(sheet_files::read_plain(rt, 3, &mut old));
    let m = length_of(sheet_files::read_plain(rt, 4, &mut new));
    let k = length_of(read_index(rt, 5, &mut index));
    if n == NONE {
        return;
    }
    if m == NONE {
        return;
    }
    if k == NONE {
        return;
    }
    write_mended(
        rt,
        set_table::bytes_of(&old, 0, n),
        set_table::bytes_of(&new, 0, m),
        set_table::bytes_of(&index, 0, k),
    );
}

// A length that no file has, for one that isn't there.
const NONE: usize = usize::MAX;

fn length_of(file: Option<usize>) -> usize {
    match file {
        None => NONE,
        Some(n) => n,
    }
}

fn write_mended<'a>(rt: &impl System, old: &'a [u8], new: &'a [u8], index: &'a [u8]) {
    let mut join = [0u8; base_refusals::MAX_TEXT];
    let mut table = [0usize; NUMBERS];
    let mut out = [0u8; INDEX];
    let built = sheet_mends::mend_index(
        old,
        new,
        line_number(rt, 1),
        line_number(rt, 2),
        index,
        &mut join,
        &mut table,
        &mut out,
    );
    write_index(rt, built, &out);
}

// The line that an argument names. A number that is beyond all lines is one that no sheet has.
fn line_number(rt: &impl Env, i: usize) -> usize {
    let mut word = [0u8; sheet_files::WORD];
    let n = sheet_files::word(rt, i, &mut word);
    number(set_table::bytes_of(&word, 0, n))
}

fn number(word: &[u8]) -> usize {
    let mut n = 0;
    for digit in word {
        n = longer(n, *digit);
    }
    n
}

// The number with one digit more; what isn't a digit, and what is too long, makes it one that no line has.
fn longer(n: usize, digit: u8) -> usize {
    if digit < b'0' {
        return usize::MAX;
    }
    if b'9' < digit {
        return usize::MAX;
    }
    if base_refusals::MAX_TEXT < n {
        return usize::MAX;
    }
    let d = wide(digit - b'0');
    if base_refusals::MAX_TEXT < d {
        return usize::MAX;
    }
    n * 10 + d
}

fn wide(b: u8) -> usize {
    b as usize
}
