// The three kinds of name, and language tags: whether bytes are one, and else how far they can be continued to one.
#![tactic(auto)]

ghost use Rattle.std.specs.Prelude.{◌≡◌, ◌+◌, ◌≤◌, length};
ghost use Rattle.base_letters.specs.Classes.{is_of};
ghost use Rattle.text_names.specs.Tested.{tested, says_whole, tested_paper};
ghost use Rattle.text_names.specs.Names.{is_name, is_key, is_bare_name, name_place, key_place, bare_place};
ghost use Rattle.text_names.specs.Computed.{tag_from, is_tag, language_by, is_language, tag_passes, tag_place};

// What a test comes to, with the place for where it fails.
pub fn whole_or_stops(ok: bool, place: usize) -> Result<(), usize>
    ensures value { result ≡ tested ok place }
    ensures result_value { tested_paper result ≡ tested_paper (tested ok place) }
{
    if ok {
        return Ok(());
    }
    Err(place)
}

// The answer without the place.
pub fn is_whole(t: Result<(), usize>) -> bool
    ensures { result ≡ says_whole t }
{
    matches!(t, Ok(()))
}

// A name, as it stands behind `#` or `.`.
pub fn is_css_identifier(s: &[u8]) -> Result<(), usize>
    ensures value { result ≡ tested (is_name s.now) (name_place s.now) }
    ensures result_value { tested_paper result ≡ tested_paper (tested (is_name s.now) (name_place s.now)) }
{
    if s.len() == 0 {
        return Err(0);
    }
    let e = base_letters::name_end(s, 0);
    whole_or_stops(e == s.len(), e)
}

// A key, as it stands before `=`.
pub fn is_identifier(s: &[u8]) -> Result<(), usize>
    ensures value { result ≡ tested (is_key s.now) (key_place s.now) }
    ensures result_value { tested_paper result ≡ tested_paper (tested (is_key s.now) (key_place s.now)) }
{
    if s.len() == 0 {
        return Err(0);
    }
    let e = base_letters::key_end(s, 0);
    whole_or_stops(e == s.len(), e)
}

// A bare name, with no value.
pub fn is_boolean_attr_name(s: &[u8]) -> Result<(), usize>
    ensures value { result ≡ tested (is_bare_name s.now) (bare_place s.now) }
    ensures result_value { tested_paper result ≡ tested_paper (tested (is_bare_name s.now) (bare_place s.now)) }
{
    if s.len() == 0 {
        return Err(0);
    }
    let e = base_letters::bare_end(s, 0);
    whole_or_stops(e == s.len(), e)
}

// A tag, by recursion on the rest of the slice behind a subtag and its hyphen; `at` is the place behind what was passed before.
// The table is lent, so that no level holds one of its own.
fn tag_by(table: &[u64; 16], s: &[u8], at: usize) -> Result<(), usize>
    requires { at + length s.now ≤ 9223372036854775807 }
    ensures { result ≡ tested (tag_from (is_of table.now 3) s.now 0) (at + tag_passes (is_of table.now 3) s.now 0) }
{
    let n = base_letters::run_end(table, base_letters::ALNUM, s, 0);
    if n < 1 {
        return Err(at);
    }
    if 8 < n {
        return Err(at + 8);
    }
    if n == s.len() {
        return Ok(());
    }
    if s[n] != b'-' {
        return Err(at + n);
    }
    tag_by(table, &s[n + 1..], at + n + 1)
}

// A tag.
pub fn is_tag(s: &[u8]) -> Result<(), usize>
    ensures value { result ≡ tested (is_tag s.now) (tag_place s.now) }
    ensures result_value { tested_paper result ≡ tested_paper (tested (is_tag s.now) (tag_place s.now)) }
{
    let table = base_letters::CLASS;
    tag_by(&table, s, 0)
}

// The same as `tag_by` in a loop, a byte at a time: for a long tag, since it takes no more stack for a longer one.
fn long_tag_by(table: &[u64; 16], s: &[u8]) -> Result<(), usize>
    ensures { result ≡ tested (tag_from (is_of table.now 3) s.now 0) (tag_passes (is_of table.now 3) s.now 0) }
{
    let mut k: usize = 0;
    for (i, b) in s.iter().enumerate() {
        if base_letters::is_of(table, base_letters::ALNUM, *b) {
            if k == 8 {
                return Err(i);
            }
            k += 1;
        } else if *b == b'-' && k != 0 {
            k = 0;
        } else {
            return Err(i);
        }
    }
    whole_or_stops(0 < k, s.len())
}

// The longest tag that is tested by recursion: its at most 256 subtags take 8 KB of stack as they are compiled. The longest text would take 1 MB.
const SHORT: usize = 512;

// What may stand behind `:`, by the letters and digits that a lent table tells.
pub fn language_by(table: &[u64; 16], s: &[u8]) -> Result<(), usize>
    ensures value { result ≡ tested (language_by (is_of table.now 3) s.now) (tag_passes (is_of table.now 3) s.now 0) }
    ensures result_value { tested_paper result ≡ tested_paper (tested (language_by (is_of table.now 3) s.now) (tag_passes (is_of table.now 3) s.now 0)) }
{
    if s.len() == 0 {
        return Ok(());
    }
    if s.len() <= SHORT {
        return tag_by(table, s, 0);
    }
    long_tag_by(table, s)
}

// What may stand behind `:`: nothing, or a tag.
pub fn is_language_tag(s: &[u8]) -> Result<(), usize>
    ensures value { result ≡ tested (is_language s.now) (tag_place s.now) }
    ensures result_value { tested_paper result ≡ tested_paper (tested (is_language s.now) (tag_place s.now)) }
{
    let table = base_letters::CLASS;
    language_by(&table, s)
}
