// Where the line of a number begins.
#![tactic(auto)]

ghost use Rattle.std.specs.Prelude.{◌≡◌};
ghost use Rattle.text_line_start.specs.Starts.{start_at, start_paper, numbered_start};

use base_refusals::Refusal;

// Where the line of a number begins; 1, 2 and 3 come first.
pub fn line_start(text: &[u8], line: usize) -> Result<usize, Refusal>
    ensures value { result ≡ start_at text.now line }
    ensures result_value { start_paper result ≡ numbered_start text.now line }
{
    text_checks::check_text(text)?;
    match text_lines::line_of(text, line) {
        None => Err(Refusal::NothingThere),
        Some(r) => Ok(r.from),
    }
}
