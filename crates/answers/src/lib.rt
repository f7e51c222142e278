// sync.rs, the answers to the reads and writes of edits.
#![tactic(auto)]

ghost use Rattle.std.specs.Prelude.{◌≡◌, Some, None};
ghost use Rattle.model.specs.Event.{ProviderEvent};
ghost use Rattle.model.specs.Formats.{event_f};
ghost use Rattle.model.specs.Sync.{observe_write, written, deleted, read_again, write_failed, on_edit_write, edit_read_found, on_edit_read};
ghost use Rattle.state.specs.Contract.{HasState};
ghost use Rattle.state.specs.Values.{name_of, Named};
ghost use Rattle.records.specs.Events.{IsEvent};
ghost use Rattle.frame.specs.Meaning.{option_event_at, meant_failure, meant_outcome};
ghost use Rattle.machine.specs.Contract.{Does, Changes};
ghost use Rattle.answers.specs.Valid.{ValidOutcome, write_not_found};
ghost use Rattle.answers.specs.Reads.{read_or_doubt, observe_missing, read_failed};
ghost use Rattle.format.specs.Format.{option};

use frame::{Cursor, Failure, Outcome};
use machine::Progress;
use names::Name;
use queues::Ending;
use values::Listed;
use waiting::OperationCase;

// SyncState::observe_write, of an event
#[tactic(auto, using(crate::proofs::Writes::write_doubted))]
fn observe_written(
    work: &mut [u8],
    out: &mut [u8],
    p: Progress,
    id: u64,
    name: Name,
    event: &[u8],
) -> Progress
    requires has_state { HasState work.old }
    requires named { (Named name.bytes) × (IsEvent event.now) }
    ensures { (e : ProviderEvent) → event_f.Ok e → event.now ≡ event_f.enc e → Does (observe_write id (name_of name.bytes) (Some e)) work.old out.old p result work.new out.new }
{
    if machine::doubtful(work, id, name) {
        return observe::doubt(work, out, p, name);
    }
    observe::observe_some(work, p, name, event)
}

// The same, of a resource that is gone.
#[tactic(auto, using(crate::proofs::Writes::write_doubted, crate::proofs::Writes::write_observed))]
fn observe_deleted(work: &mut [u8], out: &mut [u8], p: Progress, id: u64, name: Name) -> Progress
    requires has_state { HasState work.old }
    requires named { Named name.bytes }
    ensures { Does (observe_write id (name_of name.bytes) None) work.old out.old p result work.new out.new }
{
    if machine::doubtful(work, id, name) {
        return observe::doubt(work, out, p, name);
    }
    observe::observe_gone(work, p, name)
}

fn written(
    work: &mut [u8],
    out: &mut [u8],
    p: Progress,
    id: u64,
    name: Name,
    event: &[u8],
) -> Progress
    requires has_state { HasState work.old }
    requires named { (Named name.bytes) × (IsEvent event.now) }
    ensures { (e : ProviderEvent) → event_f.Ok e → event.now ≡ event_f.enc e → Does (written id (name_of name.bytes) e) work.old out.old p result work.new out.new }
{
    if waiting::operation_case(work, name, 0) == Some(OperationCase::Create) {
        let to = observe::resource_of(event);
        let q = observe_written(work, out, p, id, to, event);
        let r = writes::remap(work, out, q, name, to);
        return queues::finish(work, out, r, name, Ending::Applied, b"");
    }
    let q = observe_written(work, out, p, id, name, event);
    queues::finish(work, out, q, name, Ending::Applied, b"")
}

#[tactic(auto, using(crate::proofs::Writes::deletes))]
fn deleted(work: &mut [u8], out: &mut [u8], p: Progress, id: u64, name: Name) -> Progress
    requires has_state { HasState work.old }
    requires named { Named name.bytes }
    ensures { Does (deleted id (name_of name.bytes)) work.old out.old p result work.new out.new }
{
    let q = observe_deleted(work, out, p, id, name);
    queues::finish(work, out, q, name, Ending::Applied, b"")
}

fn read_again(work: &mut [u8], out: &mut [u8], p: Progress, name: Name) -> Progress
    requires has_state { HasState work.old }
    requires named { Named name.bytes }
    ensures { Does (read_again (name_of name.bytes)) work.old out.old p result work.new out.new }
{
    if waiting::waiting_count(work, name) == 0 {
        return p;
    }
    queues::read_for_edit(work, out, p, name)
}

// A write that found nothing: it is what a delete wants.
fn not_found(work: &mut [u8], out: &mut [u8], p: Progress, id: u64, name: Name) -> Progress
    requires has_state { HasState work.old }
    requires named { Named name.bytes }
    ensures { Does (write_not_found id (name_of name.bytes)) work.old out.old p result work.new out.new }
{
    if waiting::operation_case(work, name, 0) == Some(OperationCase::Delete) {
        return deleted(work, out, p, id, name);
    }
    read_again(work, out, p, name)
}

fn write_failed(
    work: &mut [u8],
    out: &mut [u8],
    p: Progress,
    id: u64,
    name: Name,
    frame: &[u8],
    failure: Failure,
) -> Progress
    requires has_state { HasState work.old }
    requires named { Named name.bytes }
    ensures { Does (write_failed id (name_of name.bytes) (meant_failure frame.now failure)) work.old out.old p result work.new out.new }
{
    match failure {
        Failure::NotFound => not_found(work, out, p, id, name),
        Failure::AlreadyExists => {
            waiting::set_collided(work, name);
            read_again(work, out, p, name)
        }
        Failure::Rejected(_) => {
            let ending = Ending::By(Outcome::Failed(failure));
            queues::finish(work, out, p, name, ending, frame)
        }
        Failure::CursorExpired | Failure::PreconditionFailed | Failure::Transient => {
            read_again(work, out, p, name)
        }
    }
}

// SyncState::on_edit_write
#[tactic(auto, using(crate::proofs::Writes::dropped, crate::proofs::Writes::failed))]
pub fn on_edit_write(
    work: &mut [u8],
    out: &mut [u8],
    p: Progress,
    id: u64,
    name: Name,
    frame: &[u8],
    outcome: Outcome,
) -> Progress
    requires has_state { HasState work.old }
    requires named { (Named name.bytes) × (ValidOutcome frame.now outcome) }
    ensures { Does (on_edit_write id (name_of name.bytes) (meant_outcome frame.now outcome)) work.old out.old p result work.new out.new }
{
    match outcome {
        Outcome::Written(at) => {
            let event = observe::event_part(frame, at);
            written(work, out, p, id, name, event)
        }
        Outcome::Deleted => deleted(work, out, p, id, name),
        Outcome::Failed(failure) => write_failed(work, out, p, id, name, frame, failure),
        Outcome::Listed(_) | Outcome::Read(_) => read_again(work, out, p, name),
    }
}

// ---- SyncState::on_edit_read

// A read that was overtaken: the head is read again; where none waits, there is doubt.
fn read_or_doubt(work: &mut [u8], out: &mut [u8], p: Progress, name: Name) -> Progress
    requires has_state { HasState work.old }
    requires named { Named name.bytes }
    ensures { Does (read_or_doubt (name_of name.bytes)) work.old out.old p result work.new out.new }
{
    if waiting::waiting_count(work, name) == 0 {
        return observe::doubt(work, out, p, name);
    }
    queues::read_for_edit(work, out, p, name)
}

#[tactic(auto, using(crate::proofs::Found::overtaken))]
fn edit_read_event(
    work: &mut [u8],
    out: &mut [u8],
    p: Progress,
    id: u64,
    name: Name,
    theirs: &[u8],
) -> Progress
    requires has_state { HasState work.old }
    requires named { (Named name.bytes) × (IsEvent theirs.now) }
    ensures { (t : ProviderEvent) → event_f.Ok t → theirs.now ≡ event_f.enc t → Does (edit_read_found id (name_of name.bytes) (Some t)) work.old out.old p result work.new out.new }
{
    if machine::doubtful(work, id, name) {
        return read_or_doubt(work, out, p, name);
    }
    let q = observe::observe_some(work, p, name, theirs);
    writes::plan_found(work, out, q, name, theirs)
}

// Nothing was found: of a key that was looked up that says nothing of the resource.
#[tactic(auto, using(crate::proofs::Found::missing_key, crate::proofs::Found::missing_gone))]
fn observe_missing(work: &mut [u8], p: Progress, name: Name) -> Progress
    requires has_state { HasState work.old }
    requires named { Named name.bytes }
    ensures { Changes (observe_missing (name_of name.bytes)) work.old p result work.new }
{
    if queues::looks_up(work, name) {
        return machine::learn(work, p, name);
    }
    observe::observe_gone(work, p, name)
}

#[tactic(auto, using(crate::proofs::Found::overtaken))]
fn edit_read_gone(work: &mut [u8], out: &mut [u8], p: Progress, id: u64, name: Name) -> Progress
    requires has_state { HasState work.old }
    requires named { Named name.bytes }
    ensures { Does (edit_read_found id (name_of name.bytes) None) work.old out.old p result work.new out.new }
{
    if machine::doubtful(work, id, name) {
        return read_or_doubt(work, out, p, name);
    }
    let q = observe_missing(work, p, name);
    writes::plan_gone(work, out, q, name)
}

fn edit_read_found(
    work: &mut [u8],
    out: &mut [u8],
    p: Progress,
    id: u64,
    name: Name,
    frame: &[u8],
    at: usize,
) -> Progress
    requires has_state { HasState work.old }
    requires named { (Named name.bytes) × ((option event_f).Ok (option_event_at frame.now at)) }
    ensures { Does (edit_read_found id (name_of name.bytes) (option_event_at frame.now at)) work.old out.old p result work.new out.new }
{
    let read = values::read_option_event(Cursor { at, ok: true }, frame);
    match read.listed {
        Listed::Nothing => edit_read_gone(work, out, p, id, name),
        Listed::Event(place) => {
            let theirs = observe::event_part(frame, place);
            edit_read_event(work, out, p, id, name, theirs)
        }
    }
}

#[tactic(auto, using(crate::proofs::Found::failed_gone, crate::proofs::Found::failed_again))]
fn read_failed(
    work: &mut [u8],
    out: &mut [u8],
    p: Progress,
    id: u64,
    name: Name,
    frame: &[u8],
    failure: Failure,
) -> Progress
    requires has_state { HasState work.old }
    requires named { Named name.bytes }
    ensures { Does (read_failed id (name_of name.bytes) (meant_failure frame.now failure)) work.old out.old p result work.new out.new }
{
    match failure {
        Failure::NotFound => edit_read_gone(work, out, p, id, name),
        Failure::Transient => read_again(work, out, p, name),
        _ => {
            let ending = Ending::By(Outcome::Failed(failure));
            queues::finish(work, out, p, name, ending, frame)
        }
    }
}

#[tactic(auto, using(crate::proofs::Found::read_found))]
pub fn on_edit_read(
    work: &mut [u8],
    out: &mut [u8],
    p: Progress,
    id: u64,
    name: Name,
    frame: &[u8],
    outcome: Outcome,
) -> Progress
    requires has_state { HasState work.old }
    requires named { (Named name.bytes) × (ValidOutcome frame.now outcome) }
    ensures { Does (on_edit_read id (name_of name.bytes) (meant_outcome frame.now outcome)) work.old out.old p result work.new out.new }
{
    match outcome {
        Outcome::Read(at) => edit_read_found(work, out, p, id, name, frame, at),
        Outcome::Failed(failure) => read_failed(work, out, p, id, name, frame, failure),
        _ => queues::finish(work, out, p, name, Ending::By(outcome), frame),
    }
}
