// SyncState::on_refresh
ghost use Rattle.std.specs.Prelude.{None};
ghost use Rattle.format.specs.Format.{option};
ghost use Rattle.model.specs.Sync.{ReadAnswer, answer_failed, refresh_answered, on_refresh};
ghost use Rattle.model.specs.Formats.{event_f, outcome_f};
ghost use Rattle.frame.specs.Meaning.{option_event_at, meant_failure, meant_outcome};
ghost use Rattle.state.specs.Contract.{HasState};
ghost use Rattle.state.specs.Values.{name_of, Named};
ghost use Rattle.machine.specs.Contract.{Does};

use crate::observations::{observe_gone, observe_read};
use crate::reads::doubt;
use frame::{Failure, Outcome};
use machine::Progress;
use names::Name;

fn refresh_read(
    work: &mut [u8],
    out: &mut [u8],
    p: Progress,
    frame: &[u8],
    id: u64,
    name: Name,
    at: usize,
) -> Progress
    requires has_state { HasState work.old }
    requires named { (Named name.bytes) × ((option event_f).Ok (option_event_at frame.now at)) }
    ensures { Does (refresh_answered id (name_of name.bytes) (ReadAnswer.Found (option_event_at frame.now at))) work.old out.old p result work.new out.new }
{
    if machine::doubtful(work, id, name) {
        return doubt(work, out, p, name);
    }
    observe_read(work, p, name, frame, at)
}

fn refresh_gone(work: &mut [u8], out: &mut [u8], p: Progress, id: u64, name: Name) -> Progress
    requires has_state { HasState work.old }
    requires named { Named name.bytes }
    ensures { Does (refresh_answered id (name_of name.bytes) (ReadAnswer.Found None)) work.old out.old p result work.new out.new }
{
    if machine::doubtful(work, id, name) {
        return doubt(work, out, p, name);
    }
    observe_gone(work, p, name)
}

fn refresh_failed(
    work: &mut [u8],
    out: &mut [u8],
    p: Progress,
    frame: &[u8],
    id: u64,
    name: Name,
    failure: Failure,
) -> Progress
    requires has_state { HasState work.old }
    requires named { Named name.bytes }
    ensures { Does (refresh_answered id (name_of name.bytes) (answer_failed (meant_failure frame.now failure))) work.old out.old p result work.new out.new }
{
    match failure {
        Failure::CursorExpired => {
            return p;
        }
        Failure::PreconditionFailed => {
            return p;
        }
        Failure::NotFound => {
            return refresh_gone(work, out, p, id, name);
        }
        Failure::AlreadyExists => {
            return p;
        }
        Failure::Transient => {
            return doubt(work, out, p, name);
        }
        Failure::Rejected(why) => {
            return p;
        }
    }
}

pub fn on_refresh(
    work: &mut [u8],
    out: &mut [u8],
    p: Progress,
    frame: &[u8],
    id: u64,
    name: Name,
    outcome: Outcome,
) -> Progress
    requires has_state { HasState work.old }
    requires named { (Named name.bytes) × (outcome_f.Ok (meant_outcome frame.now outcome)) }
    ensures { Does (on_refresh id (name_of name.bytes) (meant_outcome frame.now outcome)) work.old out.old p result work.new out.new }
{
    match outcome {
        Outcome::Listed(page) => {
            return p;
        }
        Outcome::Read(event) => {
            return refresh_read(work, out, p, frame, id, name, event);
        }
        Outcome::Written(event) => {
            return p;
        }
        Outcome::Deleted => {
            return p;
        }
        Outcome::Failed(failure) => {
            return refresh_failed(work, out, p, frame, id, name, failure);
        }
    }
}
