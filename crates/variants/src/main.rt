// The program `variants`: it writes the dealers' table of a sheet, a line for each variant, or one line that says why there is none. Without arguments
// it reads standard input; else the files that its arguments name, one after the other and each under a heading, and for `-` standard input.
#![tactic(auto)]

use sheet_files::System;

fn main(rt: HostRuntime) {
    let mut text = [0u8; sheet_files::TEXT];
    let mut join = [0u8; base_refusals::MAX_TEXT];
    let mut out = [0u8; sheet_listing::LISTING];
    list_all(&rt, &mut text, &mut join, &mut out);
}

fn list_all(rt: &impl System, text: &mut [u8], join: &mut [u8], out: &mut [u8]) {
    let count = sheet_files::count(rt);
    for i in 0..count {
        list(rt, i, text, join, out);
    }
}

// The listing of one sheet, where there is such a file.
fn list(rt: &impl System, i: usize, text: &mut [u8], join: &mut [u8], out: &mut [u8]) {
    match sheet_files::read(rt, i, text) {
        None => {}
        Some(n) => write_listing(rt, set_table::bytes_of(text, 0, n), join, out),
    }
}

// Writes the listing of a sheet.
fn write_listing(rt: &impl Print, text: &[u8], join: &mut [u8], out: &mut [u8]) {
    let n = sheet_listing::lay_listing(sheet_variants::variants_of(text, join), out);
    sheet_files::say(rt, set_table::bytes_of(out, 0, n));
}
