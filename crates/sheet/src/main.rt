// The sheet program: it writes the report on a sheet, a line for each block. Without arguments it reads standard input; else the
// files that its arguments name, one after the other and each under a heading, and for `-` standard input.
#![tactic(auto)]

use sheet_files::System;
use sheet_report::{Part, Told};

fn main(rt: HostRuntime) {
    let mut text = [0u8; sheet_files::TEXT];
    let mut join = [0u8; base_refusals::MAX_TEXT];
    let mut out = [0u8; sheet_report::LINE];
    report_all(&rt, &mut text, &mut join, &mut out);
}

fn report_all(rt: &impl System, text: &mut [u8], join: &mut [u8], out: &mut [u8]) {
    let count = sheet_files::count(rt);
    for i in 0..count {
        report_on(rt, i, text, join, out);
    }
}

// The report on one sheet, where there is such a file.
fn report_on(rt: &impl System, i: usize, text: &mut [u8], join: &mut [u8], out: &mut [u8]) {
    match sheet_files::read(rt, i, text) {
        None => {}
        Some(n) => write_report(rt, set_table::bytes_of(text, 0, n), join, out),
    }
}

// Writes the report part by part. A proved loop has to end: this one goes on for more turns than any sheet needs.
fn write_report(rt: &impl Print, text: &[u8], join: &mut [u8], out: &mut [u8]) {
    let mut part = sheet_report::report_start(text, join, out);
    for _ in 0..u64::MAX {
        if !write_part(rt, part, out) {
            return;
        }
        part = sheet_report::report_part(text, part.at, part.line, join, out);
    }
}

// Writes what a part laid at the buffer's front, and answers whether to go on: more comes, and it could be written.
fn write_part(rt: &impl Print, part: Part, out: &[u8]) -> bool {
    if !sheet_files::say(rt, set_table::bytes_of(out, 0, part.len)) {
        return false;
    }
    matches!(part.told, Ok(Told::More))
}
