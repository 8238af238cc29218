// Buffers of exactly the canonical text's length and one short, and the longest canonical text.
use crate::good::class_of;
use crate::{MARK, good, is_kept, part, say, say_wrote};
use base_refusals::Refusal;
use set_table::Origin;

pub(crate) fn run(rt: &impl Print, text: &[u8]) {
    exact(rt, text);
    short(rt, text);
    none(rt, text);
    longest(rt);
}

// `{class="wheel" id="v17" a="\"\\" side="left"}` has 45 bytes.
fn exact(rt: &impl Print, text: &[u8]) {
    let mut out = [MARK; 45];
    say(rt, b"45 bytes lent");
    let wrote = set_writer::write_attrs(text, b"", good::set(), &mut out);
    say_wrote(rt, wrote, &out);
    say(rt, b"\n");
}

fn short(rt: &impl Print, text: &[u8]) {
    let mut out = [MARK; 44];
    say(rt, b"44 bytes lent");
    let wrote = set_writer::write_attrs(text, b"", good::set(), &mut out);
    say_wrote(rt, wrote, &out);
    say(rt, b"\n");
}

fn none(rt: &impl Print, text: &[u8]) {
    let mut out = [MARK; 1];
    say(rt, b"no byte lent");
    let wrote = set_writer::write_attrs(text, b"", good::set(), &mut out[..0]);
    say_wrote(rt, wrote, &out[..0]);
    say(rt, b"\n");
}

fn longest(rt: &impl Print) {
    let text = [b'a'; 65535];
    let mut out = [MARK; 65540];
    longest_into(rt, &text, &mut out);
}

// `{class="` and `"}` are ten bytes more than the class.
fn longest_into(rt: &impl Print, text: &[u8], out: &mut [u8]) {
    say(rt, b"a canonical text of 65,536 bytes: ");
    say_length(
        rt,
        set_writer::write_attrs(text, b"", class_of(Origin::First, 65526), out),
    );
    if is_kept(out) {
        say(rt, b", memory kept");
    }
    say(rt, b"\na canonical text of 65,535 bytes: ");
    say_length(
        rt,
        set_writer::write_attrs(text, b"", class_of(Origin::First, 65525), out),
    );
    if is_kept(part(out, 65535, 65540)) {
        say(rt, b", rest kept");
    }
    say(rt, b"\n");
}

pub(crate) fn say_length(rt: &impl Print, wrote: Result<usize, Refusal>) {
    match wrote {
        Err(r) => {
            let _ = print!(rt; "refused {}", base_refusals::number(r));
        }
        Ok(n) => {
            let _ = print!(rt; "{n}");
        }
    }
}
