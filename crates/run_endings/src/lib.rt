// Whether a text ends in a run that is refused only for a line too far left.
#![tactic(auto)]

ghost use Rattle.std.specs.Prelude.{◌≡◌, ◌<◌, ◌≤◌, length};
ghost use Rattle.base_refusals.specs.Numbers.{max_text};
ghost use Rattle.base_refusals.specs.Orders.{on_paper};
ghost use Rattle.text_lines.specs.Lines.{lines};
ghost use Rattle.run_endings.specs.Endings.{ends_paper, tries_of, ends_of, ends_in, ends_shown, ends_order, yes_no};
ghost use Rattle.run_endings.specs.Inner.{Edge, Before, next_or, verdict_of, back_from, ended_by};

use base_refusals::Refusal;
use run_refused::RunReply;

// Whether a text ends in a refused run, with the lookahead of the runs made.
#[derive(Clone, Copy)]
pub struct EndsRun {
    pub answer: Result<bool, Refusal>,
    pub lookahead: usize,
}

// What a run that was tried says of the text's end, or that the next is tried.
#[derive(Clone, Copy)]
enum Verdict {
    Told(Result<bool, Refusal>),
    Next,
}

// Where the line begins that ends before the place.
fn line_start(text: &[u8], at: usize) -> usize
    requires { (0 < at) × ((at ≤ length text.now) × Edge text.now at) }
    ensures { Before text.now at result }
{
    text[..at - 1]
        .iter()
        .rposition(|b| *b == b'\n')
        .map_or(0, |lf| lf + 1)
}

// Where the run that was tried doesn't end with the text: whether another is tried.
fn next_or(again: bool, tried: bool) -> Verdict
    ensures { result ≡ next_or again tried }
{
    if !again {
        return Verdict::Told(Ok(false));
    }
    if tried {
        return Verdict::Told(Ok(false));
    }
    Verdict::Next
}

// What the answer of a run says, which began so many lines before the text's end.
fn verdict_of(answer: Result<RunReply, Refusal>, count: usize, again: bool, tried: bool) -> Verdict
    ensures { result ≡ verdict_of answer count again tried }
{
    match answer {
        Err(r) => Verdict::Told(Err(r)),
        Ok(RunReply::Lines(n)) => {
            if n == count {
                return Verdict::Told(Ok(true));
            }
            next_or(again, tried)
        }
        Ok(RunReply::No(_)) => next_or(again, tried),
        Ok(RunReply::NoEnd) => next_or(again, tried),
    }
}

// The answer with its lookahead.
fn ended(answer: Result<bool, Refusal>, lookahead: usize) -> EndsRun
    ensures { result ≡ record { answer = answer; lookahead = lookahead } }
{
    EndsRun { answer, lookahead }
}

// The lines that open with a brace, from the last upwards: at most two are tried.
fn search_back(text: &[u8], again: bool, join: &mut [u8]) -> EndsRun
    requires { length text.now ≤ max_text }
    ensures value { result ≡ ends_shown (ended_by (back_from again join.old (lines text.now))) }
    ensures join_after { join.new ≡ (ended_by (back_from again join.old (lines text.now))).join }
{
    let mut at = text.len();
    let mut count = 0;
    let mut tried = false;
    let mut lookahead = 0;
    // A loop: a step goes up a whole line, as long as that line is.
    'lines: loop {
        if at == 0 {
            break 'lines ended(Ok(false), lookahead);
        }
        at = line_start(text, at);
        count += 1;
        let l = text_lines::line_from(text, at);
        let to = l.to;
        if text_lines::is_blank_line(&text[at..to]) {
            break 'lines ended(Ok(false), lookahead);
        }
        if !run_spots::opens_brace(&text[at..to]) {
            continue 'lines;
        }
        let r = run_refused::refused_run_at(text, at, join);
        lookahead += r.lookahead;
        let answer = r.answer;
        match verdict_of(answer, count, again, tried) {
            Verdict::Told(e) => break 'lines ended(e, lookahead),
            Verdict::Next => {
                tried = true;
                continue 'lines;
            }
        }
    }
}

// The last line decides whether any is tried, and whether a second one is.
fn ends_in(text: &[u8], join: &mut [u8]) -> EndsRun
    requires { length text.now ≤ max_text }
    ensures value { result ≡ ends_shown (ends_of join.old (lines text.now)) }
    ensures join_after { join.new ≡ (ends_of join.old (lines text.now)).join }
{
    if text.len() == 0 {
        return ended(Ok(false), 0);
    }
    let at = line_start(text, text.len());
    let l = text_lines::line_from(text, at);
    let to = l.to;
    if !run_scanners::contains_close(&text[at..to]) {
        return ended(Ok(false), 0);
    }
    let again = run_spots::closes_comment(&text[at..to]);
    search_back(text, again, join)
}

// Whether the text ends in a run that is refused only for a line too far left.
pub fn ends_in_refused_brace_run(text: &[u8], join: &mut [u8]) -> EndsRun
    ensures value { result ≡ ends_shown (ends_in join.old text.now) }
    ensures join_after { join.new ≡ (ends_in join.old text.now).join }
    ensures answer_value { ends_paper result.answer ≡ on_paper (ends_order join.old text.now) (yes_no (length join.old) (tries_of (lines text.now))) }
{
    match text_checks::check_text(text) {
        Err(r) => ended(Err(r), 0),
        Ok(()) => ends_in(text, join),
    }
}
