// Reading an attribute block at a brace with its language tag looked at.
#![tactic(auto)]

ghost use Rattle.std.specs.Prelude.{◌≡◌, Bool, suc, ◌+◌, ◌-◌, ◌≤◌, length, get_or};
ghost use Rattle.std.proofs.Math.Seq.{slice};
ghost use Rattle.base_lists.specs.Lists.{same};
ghost use Rattle.base_letters.specs.Classes.{TellsBytes};
ghost use Rattle.base_refusals.specs.Orders.{on_paper};
ghost use Rattle.base_refusals.specs.declared.Refusal.TheVariants.{BadTag};
ghost use Rattle.block_grammar.specs.Computed.{read_payload};
ghost use Rattle.block_grammar.specs.ComputedClose.{find_close};
ghost use Rattle.block_grammar.specs.Grammar.{Item};
ghost use Rattle.block_grammar.specs.Meaning.{lang_name};
ghost use Rattle.read_brace.specs.Brace.{brace_paper, place_said, refusing_read, behind_close};
ghost use Rattle.read_tags.specs.Tagged.{lang_of, passed_by, read_tagged, tagged_order, tagged_place_at};
ghost use Rattle.read_tags.specs.Inner.{passes_with, TagTells};

use base_bytes::Mode;
use base_refusals::Refusal;
use block_tokens::Token;
use read_brace::{NotRead, Read};

// Whether a value of `lang` may be any, or has to be empty or a well-formed tag.
#[derive(Clone, Copy)]
pub enum Tags {
    Any,
    WellFormed,
}

// What a token says of `lang`, where the tokens before it say whether a value passes: the same with it, and the place behind the token.
#[derive(Clone, Copy)]
enum TagStep {
    End,
    Bad,
    Next(bool, usize),
}

// Whether the name from f up to k is `lang`.
fn is_lang(s: &[u8], f: usize, k: usize) -> bool
    ensures { result ≡ same (slice f k s.now) lang_name }
{
    base_lists::same_bytes(set_table::bytes_of(s, f, k), b"lang")
}

// With a key whose value is plain.
fn plain_passes(s: &[u8], f: usize, k: usize, e: usize, before: bool) -> bool
    requires { k + 1 ≤ e }
    ensures { result ≡ passes_with before (lang_of (Item.plain (slice f k s.now) (slice (k + 1) e s.now))) }
{
    if !is_lang(s, f, k) {
        return before;
    }
    text_langtags::is_allowed_tag(set_table::bytes_of(s, k + 1, e))
}

// With a key whose value is quoted.
fn quoted_passes(s: &[u8], f: usize, k: usize, e: usize, before: bool) -> bool
    requires { k + 3 ≤ e }
    ensures { result ≡ passes_with before (lang_of (Item.quoted (slice f k s.now) (get_or s.now (k + 1) 0) (slice (k + 2) (e - 1) s.now))) }
{
    if !is_lang(s, f, k) {
        return before;
    }
    text_langtags::is_allowed_unescaped(set_table::bytes_of(s, k + 2, e - 1))
}

// With a bare name, whose value is empty.
fn bare_passes(s: &[u8], f: usize, e: usize, before: bool) -> bool
    ensures { result ≡ passes_with before (lang_of (Item.bare (slice f e s.now))) }
{
    if !is_lang(s, f, e) {
        return before;
    }
    true
}

// With a tag behind `:`.
fn tag_passes(s: &[u8], f: usize, e: usize) -> bool
    ensures { (before : Bool) → result ≡ passes_with before (lang_of (Item.tag (slice f e s.now))) }
{
    text_langtags::is_allowed_tag(set_table::bytes_of(s, f, e))
}

// What the token from i on says, blanks passed; the table of classes is lent.
fn token_told(table: &[u64; 16], s: &[u8], i: usize, mode: Mode, before: bool) -> TagStep
    requires { (i ≤ length s.now) × TellsBytes table.now }
    ensures { TagTells mode s.now i before result }
{
    let a = block_tokens::blank_end(s, i, mode);
    if s.len() <= a {
        return TagStep::End;
    }
    match block_tokens::token_by(table, s, a, mode) {
        Token::Bad(_) => TagStep::Bad,
        Token::Tag(f, e) => TagStep::Next(tag_passes(s, f, e), e),
        Token::Id(_, e) => TagStep::Next(before, e),
        Token::Class(_, e) => TagStep::Next(before, e),
        Token::Plain(f, k, e) => TagStep::Next(plain_passes(s, f, k, e, before), e),
        Token::Quoted(f, k, e) => TagStep::Next(quoted_passes(s, f, k, e, before), e),
        Token::Bare(f, e) => TagStep::Next(bare_passes(s, f, e, before), e),
    }
}

// Whether the last value of `lang` in a payload passes; what has no reading is refused elsewhere.
fn payload_passes(s: &[u8], mode: Mode) -> bool
    ensures { result ≡ passed_by (read_payload mode 0 s.now) }
{
    let table = base_letters::CLASS;
    let mut passes = true;
    let mut i = 0;
    'tokens: loop {
        match token_told(&table, s, i, mode, passes) {
            TagStep::End => break 'tokens passes,
            TagStep::Bad => break 'tokens true,
            TagStep::Next(with, e) => {
                passes = with;
                i = e;
                continue 'tokens;
            }
        }
    }
}

// A refusal hands out no set.
fn refused() -> Read
    ensures { result ≡ refusing_read BadTag }
{
    let filled = set_fill::refusing(Refusal::BadTag);
    let set = filled.set;
    Read {
        answer: Err(NotRead::Refused(Refusal::BadTag)),
        set,
    }
}

// The block at the place, whose language tag has to be empty or well-formed.
fn read_strictly(text: &[u8], place: usize, mode: Mode) -> Read
    ensures { result ≡ read_tagged Tags.WellFormed mode text.now place }
{
    if !payload_passes(read_brace::payload_at(text, place), mode) {
        return refused();
    }
    read_brace::read_attrs_at_with(text, place, mode)
}

// The block whose brace stands at the place, in either mode, with its language tag looked at or not.
pub fn read_attrs_at_tags(text: &[u8], place: usize, mode: Mode, tags: Tags) -> Read
    ensures value { result ≡ read_tagged tags mode text.now place }
    ensures answer_value { brace_paper result.answer ≡ on_paper (tagged_order tags mode text.now place) (behind_close (find_close text.now (suc place))) }
    ensures answer_value_2 { place_said result.answer ≡ tagged_place_at tags mode text.now place }
{
    match tags {
        Tags::Any => read_brace::read_attrs_at_with(text, place, mode),
        Tags::WellFormed => read_strictly(text, place, mode),
    }
}
