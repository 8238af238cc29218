// Lists, most of them of bytes: the words that definitions are written in, laws about lists, and two functions over byte strings.
#![tactic(auto)]

ghost use Rattle.std.specs.Prelude.{◌≡◌};
ghost use Rattle.std.proofs.lemmas.List.Edits.{sets};
ghost use Rattle.base_lists.specs.Lists.{same};

// Whether two byte strings are the same, byte for byte.
pub fn same_bytes(a: &[u8], b: &[u8]) -> bool
    ensures { result ≡ same a.now b.now }
{
    a == b
}

// Writes the bytes s into lent memory from the place `at` on; what has no room is left out.
pub fn put_bytes(out: &mut [u8], at: usize, s: &[u8])
    ensures { out.new ≡ sets out.old at s.now }
{
    if at < out.len() {
        let n = s.len().min(out.len() - at);
        // Not `copy_from_slice`: it calls `memmove`, which the archives for C ask of nobody.
        for i in 0..n {
            out[at + i] = s[i];
        }
    }
}
