// The payload grammar: definitions and theorems, and as code only the types that scans and the quick test are made of.

// The quote that the search stands in, by its byte.
#![tactic(auto)]

// Where the search stands: in which quote, and whether a backslash covers the next byte.
#[derive(Clone, Copy)]
pub struct Scan {
    pub quote: Option<u8>,
    pub escaped: bool,
}

// Where the quick test stands: between tokens, behind `#` or `.`, in the name behind that, in a key or bare name, behind `=`.
#[derive(Clone, Copy)]
pub enum Walk {
    Edge,
    Sigil,
    Ident,
    Word,
    Value,
}
