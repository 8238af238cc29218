// Where blocks that should stand back to back go wrong, and why.
#![tactic(auto)]

ghost use Rattle.std.specs.Prelude.{◌≡◌, drop};
ghost use Rattle.block_faults.specs.Faults.{fault_from, fault_paper};

use base_bytes::Mode;

// Nothing is wrong; or at that place stands what opens no block, a brace that isn't closed, or the byte at which a payload went wrong.
#[derive(Clone, Copy)]
pub enum Fault {
    Behind(usize),
    Open(usize),
    Wrong(usize),
}

// What is wrong first with the blocks that should stand from `from` on up to the end.
pub fn chain_fault(s: &[u8], from: usize) -> Option<Fault>
    ensures value { result ≡ fault_from (drop from s.now) 0 from }
    ensures result_value { fault_paper result ≡ fault_paper (fault_from (drop from s.now) 0 from) }
{
    let mut i = from;
    'blocks: loop {
        if s.len() <= i {
            break 'blocks None;
        }
        if s[i] != b'{' {
            break 'blocks Some(Fault::Behind(i));
        }
        match block_close::find_close(s, i + 1) {
            None => break 'blocks Some(Fault::Open(i)),
            Some(e) => match block_tokens::payload_test(&s[i + 1..e], Mode::Loose) {
                Err(n) => break 'blocks Some(Fault::Wrong(i + 1 + n)),
                Ok(()) => {
                    i = e + 1;
                    continue 'blocks;
                }
            },
        }
    }
}
