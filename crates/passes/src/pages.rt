// SyncState::on_list: a page, and what follows it.
ghost use Rattle.model.specs.Seam as seam;
ghost use Rattle.model.specs.Formats.{short_text, next_f, page_f, outcome_f};
ghost use Rattle.model.specs.Sync.{after_page, on_page, on_list};
ghost use Rattle.frame.specs.Meaning.{page_at, meant_failure, meant_outcome};
ghost use Rattle.values.specs.Parts.{meant_next};
ghost use Rattle.state.specs.Contract.{HasState};
ghost use Rattle.machine.specs.Contract.{Does, Changes};
ghost use Rattle.passes.specs.Reading.{failed_in_pass, answered_in_pass};

use crate::changes::list_changes;
use crate::requests::{request_list, request_more};
use crate::starting::{abandon_pass, restart_pass};
use frame::{Failure, Outcome};
use machine::Progress;
use values::Next;

fn list_more(work: &mut [u8], out: &mut [u8], p: Progress, cursor: &[u8]) -> Progress
    requires has_state { HasState work.old }
    requires ok { short_text.Ok cursor.now }
    ensures { Does (after_page (seam.Next.More cursor.now)) work.old out.old p result work.new out.new }
{
    pass_header::set_from(work, cursor);
    request_more(work, out, p, cursor)
}

fn list_done(work: &mut [u8], p: Progress, cursor: &[u8]) -> Progress
    requires has_state { HasState work.old }
    requires ok { short_text.Ok cursor.now }
    ensures { Changes (after_page (seam.Next.Done cursor.now)) work.old p result work.new }
{
    pass_header::set_done(work, cursor);
    if pass_tables::is_full(work) {
        let next = state::next_request(work);
        state::set_learned_all(work, next);
        return p;
    }
    p
}

fn after_page(work: &mut [u8], out: &mut [u8], p: Progress, frame: &[u8], next: Next) -> Progress
    requires has_state { HasState work.old }
    requires ok { next_f.Ok (meant_next frame.now next) }
    ensures { Does (after_page (meant_next frame.now next)) work.old out.old p result work.new out.new }
{
    match next {
        Next::More(cursor) => list_more(work, out, p, cursor.bytes(frame)),
        Next::Done(cursor) => list_done(work, p, cursor.bytes(frame)),
    }
}

fn on_page(
    work: &mut [u8],
    out: &mut [u8],
    p: Progress,
    frame: &[u8],
    id: u64,
    page: usize,
) -> Progress
    requires has_state { HasState work.old }
    requires ok { page_f.Ok (page_at frame.now page) }
    ensures { Does (on_page id (page_at frame.now page)) work.old out.old p result work.new out.new }
{
    let walked = list_changes(work, p, frame, id, page);
    let listed = walked.progress;
    let read = values::read_next(walked.place, frame);
    let end = read.end;
    let asked = after_page(work, out, listed, frame, end);
    observe::read_unread(work, out, asked)
}

fn list_failed(
    work: &mut [u8],
    out: &mut [u8],
    p: Progress,
    frame: &[u8],
    failure: Failure,
) -> Progress
    requires { HasState work.old }
    ensures { Does (failed_in_pass (meant_failure frame.now failure)) work.old out.old p result work.new out.new }
{
    match failure {
        Failure::CursorExpired => restart_pass(work, out, p),
        Failure::PreconditionFailed => {
            abandon_pass(work, out, p, frame, Outcome::Failed(failure))
        }
        Failure::NotFound => abandon_pass(work, out, p, frame, Outcome::Failed(failure)),
        Failure::AlreadyExists => abandon_pass(work, out, p, frame, Outcome::Failed(failure)),
        Failure::Transient => request_list(work, out, p),
        Failure::Rejected(_why) => abandon_pass(work, out, p, frame, Outcome::Failed(failure)),
    }
}

fn list_answered(
    work: &mut [u8],
    out: &mut [u8],
    p: Progress,
    frame: &[u8],
    id: u64,
    outcome: Outcome,
) -> Progress
    requires has_state { HasState work.old }
    requires ok { outcome_f.Ok (meant_outcome frame.now outcome) }
    ensures { Does (answered_in_pass id (meant_outcome frame.now outcome)) work.old out.old p result work.new out.new }
{
    match outcome {
        Outcome::Listed(page) => on_page(work, out, p, frame, id, page),
        Outcome::Read(_event) => abandon_pass(work, out, p, frame, outcome),
        Outcome::Written(_event) => abandon_pass(work, out, p, frame, outcome),
        Outcome::Deleted => abandon_pass(work, out, p, frame, outcome),
        Outcome::Failed(failure) => list_failed(work, out, p, frame, failure),
    }
}

pub fn on_list(
    work: &mut [u8],
    out: &mut [u8],
    p: Progress,
    frame: &[u8],
    id: u64,
    outcome: Outcome,
) -> Progress
    requires has_state { HasState work.old }
    requires ok { outcome_f.Ok (meant_outcome frame.now outcome) }
    ensures { Does (on_list id (meant_outcome frame.now outcome)) work.old out.old p result work.new out.new }
{
    if pass_tables::is_open(work) {
        return list_answered(work, out, p, frame, id, outcome);
    }
    p
}
