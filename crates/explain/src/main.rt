// The program `explain`: of a sheet it writes a line for each finding: `found`, the number of its kind, the line that looks like a block, the line in which the mistake
// stands, its place in bytes and the finding's number, parted by tabs; or `refused` and a number. Without arguments it reads standard input; else the files that its
// arguments name, one after the other and each under a heading, and for `-` standard input.
#![tactic(auto)]

use base_refusals::Refusal;
use sheet_files::System;
use sheet_findings::Finding;

fn main(rt: HostRuntime) {
    let mut text = [0u8; sheet_files::TEXT];
    let mut join = [0u8; base_refusals::MAX_TEXT];
    explain_all(&rt, &mut text, &mut join);
}

fn explain_all(rt: &impl System, text: &mut [u8], join: &mut [u8]) {
    let count = sheet_files::count(rt);
    for i in 0..count {
        explain(rt, i, text, join);
    }
}

// The findings of one sheet, where there is such a file.
fn explain(rt: &impl System, i: usize, text: &mut [u8], join: &mut [u8]) {
    match sheet_files::read(rt, i, text) {
        None => {}
        Some(n) => explain_text(rt, set_table::bytes_of(text, 0, n), join),
    }
}

// The findings of a text that passes the checks.
fn explain_text(rt: &impl Print, text: &[u8], join: &mut [u8]) {
    match text_checks::check_text(text) {
        Err(why) => sheet_files::say_refused(rt, why),
        Ok(()) => write_findings(rt, text, join),
    }
}

// Writes the findings one after the other. A proved loop has to end: this one goes on for more turns than any sheet needs.
fn write_findings(rt: &impl Print, text: &[u8], join: &mut [u8]) {
    let mut at = 0;
    let mut line = 1;
    for _ in 0..u64::MAX {
        let next = sheet_findings::next_finding(text, at, join);
        let first = sum(line, next.skipped);
        let told = next.told;
        if !write_told(rt, told, first) {
            return;
        }
        at = next.next;
        line = sum(first, next.lines);
    }
}

// The sum of two numbers, which for a sheet's lines is never too large.
fn sum(a: usize, b: usize) -> usize {
    a.saturating_add(b)
}

// Writes what is told of a line, and answers whether to go on.
fn write_told(rt: &impl Print, told: Result<Option<Finding>, Refusal>, line: usize) -> bool {
    match told {
        Err(why) => {
            sheet_files::say_refused(rt, why);
            false
        }
        Ok(None) => false,
        Ok(Some(finding)) => write_finding(rt, finding, line),
    }
}

// Writes a finding whose line has that number.
fn write_finding(rt: &impl Print, f: Finding, line: usize) -> bool {
    let kind = f.kind;
    sheet_files::say(rt, b"found\t");
    sheet_files::say_number(rt, sheet_findings::kind_number(kind) as usize);
    sheet_files::say(rt, b"\t");
    sheet_files::say_number(rt, line);
    sheet_files::say(rt, b"\t");
    sheet_files::say_number(rt, sum(line, f.row));
    sheet_files::say(rt, b"\t");
    sheet_files::say_number(rt, f.place);
    sheet_files::say(rt, b"\t");
    sheet_files::say_number(rt, f.number);
    sheet_files::say(rt, b"\n")
}
