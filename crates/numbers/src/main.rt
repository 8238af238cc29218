// The program `numbers`: it counts over many sheets what the sheet program does, and writes thirteen lines, name, tab and number. Without arguments it
// reads one sheet from standard input; else the files that its arguments name, and for `-` standard input. Behind a first argument `--add` they are
// reports, which are added up. Nothing is written where a file can't be read or is no report, and one line where a total would not fit.
#![tactic(auto)]

use sheet_files::System;
use sheet_numbers::Reported;
use sheet_totals::{Added, Totals};

// A report with one file more, and whether to go on.
#[derive(Clone, Copy)]
struct Turn {
    on: bool,
    totals: Totals,
}

fn main(rt: HostRuntime) {
    let mut text = [0u8; sheet_files::TEXT];
    let mut join = [0u8; base_refusals::MAX_TEXT];
    let mut out = [0u8; sheet_numbers::REPORT];
    if sheet_files::first_is(&rt, b"--add") {
        count(&rt, true, 1, &mut text, &mut join, &mut out);
    } else {
        count(&rt, false, 0, &mut text, &mut join, &mut out);
    }
}

// Goes through the files from the number `first` on, and writes the report over them.
fn count(
    rt: &impl System,
    adds: bool,
    first: usize,
    text: &mut [u8],
    join: &mut [u8],
    out: &mut [u8],
) {
    let all = sheet_files::count(rt);
    let files = beyond(all, first);
    let mut totals = Totals::empty();
    for i in first..all {
        let turn = one_more(rt, adds, i, totals, text, join);
        if !turn.on {
            return;
        }
        totals = turn.totals;
        tell_progress(rt, beyond(i + 1, first), files);
    }
    write_report(rt, totals, out);
}

// By how much a number is beyond another.
fn beyond(n: usize, first: usize) -> usize {
    n.saturating_sub(first)
}

// One file more.
fn one_more(
    rt: &impl System,
    adds: bool,
    i: usize,
    totals: Totals,
    text: &mut [u8],
    join: &mut [u8],
) -> Turn {
    match sheet_files::read_plain(rt, i, text) {
        None => Turn { on: false, totals },
        Some(n) => {
            let sheet = set_table::bytes_of(text, 0, n);
            if adds {
                return with_report(rt, i, totals, sheet_numbers::read_totals(sheet));
            }
            turn_of(rt, sheet_tally::feed(totals, sheet, join))
        }
    }
}

// One report more, if it is one.
fn with_report(rt: &impl System, i: usize, totals: Totals, more: Reported) -> Turn {
    if !more.good {
        sheet_files::warn(rt, b"numbers: ");
        sheet_files::complain(rt, i, b" is no report\n");
        return Turn { on: false, totals };
    }
    turn_of(rt, sheet_totals::add_totals(totals, more.totals))
}

// Goes on unless a total would not fit, which is told.
fn turn_of(rt: &impl Print, added: Added) -> Turn {
    let outcome = added.outcome;
    let totals = added.totals;
    match outcome {
        Err(why) => {
            sheet_files::say_refused(rt, why);
            Turn { on: false, totals }
        }
        Ok(()) => Turn { on: true, totals },
    }
}

// With more than 100 files says on standard error after each 100 how many were read.
fn tell_progress(rt: &impl System, read: usize, files: usize) {
    if files <= 100 {
        return;
    }
    if read % 100 != 0 {
        return;
    }
    let mut digits = [0u8; 20];
    let n = text_digits::put_decimal(&mut digits, 0, read as u64);
    sheet_files::warn(rt, b"numbers: ");
    sheet_files::warn(rt, set_table::bytes_of(&digits, 0, n));
    sheet_files::warn(rt, b" read\n");
}

// Writes the thirteen lines.
fn write_report(rt: &impl Print, totals: Totals, out: &mut [u8]) {
    match sheet_numbers::put_totals(totals, out) {
        Err(_) => {}
        Ok(n) => {
            sheet_files::say(rt, set_table::bytes_of(out, 0, n));
        }
    }
}
