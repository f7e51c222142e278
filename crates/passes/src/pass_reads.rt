// SyncState::on_pass_read
ghost use Rattle.std.specs.Prelude.{None};
ghost use Rattle.format.specs.Format.{option};
ghost use Rattle.model.specs.Seam as seam;
ghost use Rattle.model.specs.Formats.{event_f, outcome_f};
ghost use Rattle.model.specs.Machine.{in_pass};
ghost use Rattle.model.specs.Sync.{abandon_pass, pass_read_found, on_pass_read};
ghost use Rattle.frame.specs.Meaning.{option_event_at, meant_failure, meant_outcome};
ghost use Rattle.state.specs.Contract.{HasState};
ghost use Rattle.state.specs.Values.{name_of, Named};
ghost use Rattle.machine.specs.Contract.{Does};

use crate::starting::abandon_pass;
use frame::{Failure, Outcome};
use machine::Progress;
use names::Name;
use pass_tables::Names;

fn abandon_if_open(
    work: &mut [u8],
    out: &mut [u8],
    p: Progress,
    frame: &[u8],
    outcome: Outcome,
) -> Progress
    requires { HasState work.old }
    ensures { Does (in_pass (λ pass. abandon_pass (meant_outcome frame.now outcome))) work.old out.old p result work.new out.new }
{
    if pass_tables::is_open(work) {
        return abandon_pass(work, out, p, frame, outcome);
    }
    p
}

fn pass_read_found(
    work: &mut [u8],
    out: &mut [u8],
    p: Progress,
    frame: &[u8],
    id: u64,
    name: Name,
    event: usize,
) -> Progress
    requires has_state { HasState work.old }
    requires named { (Named name.bytes) × ((option event_f).Ok (option_event_at frame.now event)) }
    ensures { Does (pass_read_found id (name_of name.bytes) (option_event_at frame.now event)) work.old out.old p result work.new out.new }
{
    if machine::doubtful(work, id, name) {
        return observe::doubt(work, out, p, name);
    }
    let listed = staged::listed_unread(work, name);
    let q = observe::observe_read(work, p, name, frame, event);
    if listed {
        Names::Observed.remove(work, name);
    }
    q
}

fn pass_read_gone(work: &mut [u8], out: &mut [u8], p: Progress, id: u64, name: Name) -> Progress
    requires has_state { HasState work.old }
    requires named { Named name.bytes }
    ensures { Does (pass_read_found id (name_of name.bytes) None) work.old out.old p result work.new out.new }
{
    if machine::doubtful(work, id, name) {
        return observe::doubt(work, out, p, name);
    }
    let listed = staged::listed_unread(work, name);
    let q = observe::observe_gone(work, p, name);
    if listed {
        Names::Observed.remove(work, name);
    }
    q
}

fn pass_read_failed(
    work: &mut [u8],
    out: &mut [u8],
    p: Progress,
    frame: &[u8],
    id: u64,
    name: Name,
    failure: Failure,
) -> Progress
    requires has_state { HasState work.old }
    requires named { Named name.bytes }
    ensures { Does (on_pass_read id (name_of name.bytes) (seam.Outcome.Failed (meant_failure frame.now failure))) work.old out.old p result work.new out.new }
{
    match failure {
        Failure::CursorExpired => { abandon_if_open(work, out, p, frame, Outcome::Failed(failure)) }
        Failure::PreconditionFailed => {
            abandon_if_open(work, out, p, frame, Outcome::Failed(failure))
        }
        Failure::NotFound => pass_read_gone(work, out, p, id, name),
        Failure::AlreadyExists => { abandon_if_open(work, out, p, frame, Outcome::Failed(failure)) }
        Failure::Transient => observe::read_unread(work, out, p),
        Failure::Rejected(_why) => {
            abandon_if_open(work, out, p, frame, Outcome::Failed(failure))
        }
    }
}

pub fn on_pass_read(
    work: &mut [u8],
    out: &mut [u8],
    p: Progress,
    frame: &[u8],
    id: u64,
    name: Name,
    outcome: Outcome,
) -> Progress
    requires has_state { HasState work.old }
    requires named { (Named name.bytes) × (outcome_f.Ok (meant_outcome frame.now outcome)) }
    ensures { Does (on_pass_read id (name_of name.bytes) (meant_outcome frame.now outcome)) work.old out.old p result work.new out.new }
{
    match outcome {
        Outcome::Listed(_page) => abandon_if_open(work, out, p, frame, outcome),
        Outcome::Read(event) => pass_read_found(work, out, p, frame, id, name, event),
        Outcome::Written(_event) => abandon_if_open(work, out, p, frame, outcome),
        Outcome::Deleted => abandon_if_open(work, out, p, frame, outcome),
        Outcome::Failed(failure) => pass_read_failed(work, out, p, frame, id, name, failure),
    }
}
