// What C and Rust call with a text alone: yes or no, or the number of a refusal.
#![tactic(auto)]

ghost use Rattle.std.specs.Prelude.{◌≡◌};
ghost use Rattle.base_refusals.specs.Numbers.{outcome_no};
ghost use Rattle.base_bytes.specs.declared.Mode.TheVariants.{Strict, Loose};
ghost use Rattle.text_utf8.specs.Computed.{is_utf8};
ghost use Rattle.text_checks.specs.Check.{check_of};
ghost use Rattle.block_payloads.specs.Payloads.{is_payload, is_continuation};

// Whether the bytes are UTF-8.
#[unsafe(no_mangle)]
pub extern "C" fn bridlesnow_is_utf8(text: &[u8]) -> bool
    ensures { result ≡ is_utf8 text.now }
{
    text_utf8::is_utf8(text)
}

// 1 or 2 where the text is refused as a whole.
#[unsafe(no_mangle)]
pub extern "C" fn bridlesnow_check_text(text: &[u8]) -> u8
    ensures { result ≡ outcome_no (check_of text.now) }
{
    base_refusals::outcome_number(text_checks::check_text(text))
}

// Whether the bytes are a payload of an inline block.
#[unsafe(no_mangle)]
pub extern "C" fn bridlesnow_parse_attrs(payload: &[u8]) -> bool
    ensures { result ≡ is_payload Strict payload.now }
{
    block_payloads::parse_attrs(payload)
}

// Whether the bytes are a payload of a block on lines of its own.
#[unsafe(no_mangle)]
pub extern "C" fn bridlesnow_is_valid_attr_payload(payload: &[u8]) -> bool
    ensures { result ≡ is_payload Loose payload.now }
{
    block_payloads::is_valid_attr_payload(payload)
}

// Whether a wrapped run can go on with the line.
#[unsafe(no_mangle)]
pub extern "C" fn bridlesnow_valid_wrapped_attr_continuation(line: &[u8]) -> bool
    ensures { result ≡ is_continuation line.now }
{
    block_payloads::valid_wrapped_attr_continuation(line)
}
