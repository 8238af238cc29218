// What C and Rust call about runs that are refused only for a line too far left: the number of a refusal, 0 where there is none.
#![tactic(auto)]

ghost use Rattle.std.specs.Prelude.{◌≡◌, length};
ghost use Rattle.base_lists.specs.Lists.{over};
ghost use Rattle.run_refused.specs.Refused.{reply_paper, refused_run};
ghost use Rattle.run_endings.specs.Endings.{ends_paper, ends_in};
ghost use Rattle.door_shared.specs.Tells.{told_in};
ghost use Rattle.door_runs.specs.Runs.{run_kind, run_lines, ends_kind, run_told, ends_told};

use base_refusals::Refusal;

// The number of what is said of a refused run.
fn answer_number(a: Result<run_refused::RunReply, Refusal>) -> u8
    ensures { result ≡ (reply_paper a).number }
{
    match a {
        Ok(run_refused::RunReply::No(_)) => 0,
        Ok(run_refused::RunReply::Lines(_)) => 0,
        Ok(run_refused::RunReply::NoEnd) => 0,
        Err(r) => base_refusals::number(r),
    }
}

// 1 where a run is refused.
fn kind_of(a: Result<run_refused::RunReply, Refusal>) -> usize
    ensures { result ≡ run_kind a }
{
    match a {
        Ok(run_refused::RunReply::No(_)) => 0,
        Ok(run_refused::RunReply::Lines(_)) => 1,
        Ok(run_refused::RunReply::NoEnd) => 0,
        Err(_) => 0,
    }
}

// How many lines it takes, or were looked at; the largest number where they reach to the end.
fn lines_of(a: Result<run_refused::RunReply, Refusal>) -> usize
    ensures { result ≡ run_lines a }
{
    match a {
        Ok(run_refused::RunReply::No(n)) => n,
        Ok(run_refused::RunReply::Lines(n)) => n,
        Ok(run_refused::RunReply::NoEnd) => 18446744073709551615,
        Err(_) => 0,
    }
}

// Whether the brace run at a line is refused only for a line too far left. Tells 1 for yes, else 0; the lines that it takes or that
// were looked at, the largest number where they reach to the end; the lookahead; how many bytes were joined.
#[unsafe(no_mangle)]
pub extern "C" fn bridlesnow_refused_brace_run(
    text: &[u8],
    line: usize,
    join: &mut [u8],
    told: &mut [usize],
) -> u8
    ensures value { result ≡ (reply_paper (refused_run (length join.old) text.now line).answer).number }
    ensures join_after { join.new ≡ over (refused_run (length join.old) text.now line).text join.old }
    ensures told_after { told.new ≡ told_in told.old (run_told (refused_run (length join.old) text.now line)) }
{
    let run = run_refused::refused_brace_run(text, line, join);
    let answer = run.answer;
    door_shared::tell(told, 0, kind_of(answer));
    door_shared::tell(told, 1, lines_of(answer));
    door_shared::tell(told, 2, run.lookahead);
    door_shared::tell(told, 3, run.joined);
    answer_number(answer)
}

// The number of whether a text ends in a refused run.
fn ends_number(e: Result<bool, Refusal>) -> u8
    ensures { result ≡ (ends_paper e).number }
{
    match e {
        Ok(false) => 0,
        Ok(true) => 0,
        Err(r) => base_refusals::number(r),
    }
}

// 1 where it does.
fn ends_kind(e: Result<bool, Refusal>) -> usize
    ensures { result ≡ ends_kind e }
{
    usize::from(matches!(e, Ok(true)))
}

// Whether the text ends in such a run. Tells 1 for yes, else 0; the lookahead of the runs made.
#[unsafe(no_mangle)]
pub extern "C" fn bridlesnow_ends_in_refused_brace_run(
    text: &[u8],
    join: &mut [u8],
    told: &mut [usize],
) -> u8
    ensures value { result ≡ (ends_paper (ends_in join.old text.now).answer).number }
    ensures join_after { join.new ≡ (ends_in join.old text.now).join }
    ensures told_after { told.new ≡ told_in told.old (ends_told (ends_in join.old text.now)) }
{
    let run = run_endings::ends_in_refused_brace_run(text, join);
    let answer = run.answer;
    door_shared::tell(told, 0, ends_kind(answer));
    door_shared::tell(told, 1, run.lookahead);
    ends_number(answer)
}
