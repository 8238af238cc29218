// Requests for refused brace runs.
use crate::reply;
use crate::reply::Reply;
use base_refusals::Refusal;
use run_refused::RunReply;

// The run at a line.
pub(crate) fn run(text: &[u8], line: usize, join: &mut [u8]) -> Reply {
    let r = run_refused::refused_brace_run(text, line, join);
    let answer = r.answer;
    reply::with_run(answered(answer), r.lookahead, join)
}

// Whether the text ends in one.
pub(crate) fn ends(text: &[u8], join: &mut [u8]) -> Reply {
    let r = run_endings::ends_in_refused_brace_run(text, join);
    let answer = r.answer;
    reply::with_run(ended(answer), r.lookahead, join)
}

fn answered(answer: Result<RunReply, Refusal>) -> Reply {
    match answer {
        Ok(RunReply::No(n)) => reply::numbered(reply::NO_AT, n),
        Ok(RunReply::Lines(n)) => reply::numbered(reply::LINES, n),
        Ok(RunReply::NoEnd) => reply::alone(reply::NO_END),
        Err(r) => reply::refused(reply::REFUSED, r),
    }
}

fn ended(answer: Result<bool, Refusal>) -> Reply {
    match answer {
        Ok(false) => reply::alone(reply::NO),
        Ok(true) => reply::alone(reply::YES),
        Err(r) => reply::refused(reply::REFUSED, r),
    }
}
