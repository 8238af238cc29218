// The language tag that a value of a set is.
#![tactic(auto)]

ghost use Rattle.std.specs.Prelude.{◌≡◌};
ghost use Rattle.text_langtags.specs.Computed.{is_allowed};
ghost use Rattle.set_table.specs.Types.{two, value_bytes};

use set_table::Value;

// Whether a value is empty, which means an unknown language, or a well-formed tag.
pub fn value_allowed<'a>(first: &'a [u8], second: &'a [u8], value: Value) -> bool
    ensures { result ≡ is_allowed (value_bytes (two first.now second.now) value) }
{
    let raw = set_marks::raw_bytes(first, second, value);
    if set_marks::is_quoted(value) {
        return text_langtags::is_allowed_unescaped(raw);
    }
    text_langtags::is_allowed_tag(raw)
}
