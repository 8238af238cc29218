// The two checks with which every entry begins that reads a whole text.
#![tactic(auto)]

ghost use Rattle.std.specs.Prelude.{◌≡◌};
ghost use Rattle.text_checks.specs.Check.{text_order, both_order, check_of, both_of, is_text};
ghost use Rattle.base_refusals.specs.Numbers.{outcome_no};
ghost use Rattle.base_refusals.specs.Orders.{order_no};

use base_refusals::Refusal;

// Whether the text is short enough and well-formed UTF-8.
pub fn check_text(text: &[u8]) -> Result<(), Refusal>
    ensures value { result ≡ check_of text.now }
    ensures result_value { outcome_no result ≡ order_no (text_order text.now) }
{
    if base_refusals::MAX_TEXT < text.len() {
        return Err(Refusal::TextTooLong);
    }
    if !text_utf8::is_utf8(text) {
        return Err(Refusal::NotUtf8);
    }
    Ok(())
}

// The same of two texts, the first before the second.
pub fn check_both(first: &[u8], second: &[u8]) -> Result<(), Refusal>
    ensures value { result ≡ both_of first.now second.now }
    ensures result_value { outcome_no result ≡ order_no (both_order first.now second.now) }
{
    check_text(first)?;
    check_text(second)
}

// Whether the bytes are short enough and UTF-8.
pub fn is_text(s: &[u8]) -> bool
    ensures { result ≡ is_text s.now }
{
    check_text(s).is_ok()
}
