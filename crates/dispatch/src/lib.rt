// One input: which function handles it.
#![tactic(auto)]

ghost use Rattle.std.specs.Prelude.{◌≡◌};
ghost use Rattle.dispatch.specs.Inputs.{syncs, answers};
ghost use Rattle.model.specs.Formats.{input_f, outcome_f};
ghost use Rattle.model.specs.Sync.{on_outcome, known_outcome, handle, apply};
ghost use Rattle.frame.specs.Meaning.{meant_outcome, meant_input};
ghost use Rattle.state.specs.Contract.{HasState};
ghost use Rattle.state.specs.Values.{NamedIn, purpose_in};
ghost use Rattle.machine.specs.Contract.{Does};

use frame::{Input, Outcome};
use machine::Progress;
use state::Purpose;

// The answer to a request for a purpose.
fn on_outcome(
    work: &mut [u8],
    out: &mut [u8],
    p: Progress,
    frame: &[u8],
    id: u64,
    purpose: Purpose,
    outcome: Outcome,
) -> Progress
    requires has_state { HasState work.old }
    requires named { (NamedIn purpose) × (outcome_f.Ok (meant_outcome frame.now outcome)) }
    ensures { Does (on_outcome id (purpose_in purpose) (meant_outcome frame.now outcome)) work.old out.old p result work.new out.new }
{
    match purpose {
        Purpose::List => passes::on_list(work, out, p, frame, id, outcome),
        Purpose::PassRead(name) => passes::on_pass_read(work, out, p, frame, id, name, outcome),
        Purpose::EditRead(name) => answers::on_edit_read(work, out, p, id, name, frame, outcome),
        Purpose::EditWrite(name) => answers::on_edit_write(work, out, p, id, name, frame, outcome),
        Purpose::Refresh(name) => observe::on_refresh(work, out, p, frame, id, name, outcome),
    }
}

fn known_outcome(
    work: &mut [u8],
    out: &mut [u8],
    p: Progress,
    frame: &[u8],
    id: u64,
    purpose: Purpose,
    outcome: Outcome,
) -> Progress
    requires has_state { HasState work.old }
    requires named { (NamedIn purpose) × (outcome_f.Ok (meant_outcome frame.now outcome)) }
    ensures { Does (known_outcome id (purpose_in purpose) (meant_outcome frame.now outcome)) work.old out.old p result work.new out.new }
{
    state::remove_in_flight(work, id);
    let q = on_outcome(work, out, p, frame, id, purpose, outcome);
    passes::try_commit(work, out, q)
}

// An outcome with an unknown number does nothing.
fn outcome_of(
    work: &mut [u8],
    out: &mut [u8],
    p: Progress,
    frame: &[u8],
    id: u64,
    outcome: Outcome,
) -> Progress
    requires has_state { HasState work.old }
    requires ok { outcome_f.Ok (meant_outcome frame.now outcome) }
    ensures { Does (handle (answers id (meant_outcome frame.now outcome))) work.old out.old p result work.new out.new }
{
    match flights::purpose(work, id) {
        None => p,
        Some(purpose) => known_outcome(work, out, p, frame, id, purpose, outcome),
    }
}

fn sync(work: &mut [u8], out: &mut [u8], p: Progress) -> Progress
    requires { HasState work.old }
    ensures { Does (handle syncs) work.old out.old p result work.new out.new }
{
    if pass_tables::is_open(work) {
        p
    } else {
        passes::start_pass(work, out, p)
    }
}

fn handle(work: &mut [u8], out: &mut [u8], p: Progress, frame: &[u8], input: Input) -> Progress
    requires has_state { HasState work.old }
    requires ok { input_f.Ok (meant_input frame.now input) }
    ensures { Does (handle (meant_input frame.now input)) work.old out.old p result work.new out.new }
{
    match input {
        Input::Sync => sync(work, out, p),
        Input::Edit(edit) => queues::enqueue(work, out, p, frame, edit),
        Input::Outcome(id, outcome) => outcome_of(work, out, p, frame, id, outcome),
        Input::Tick(time) => clock::tick(work, out, p, time),
        Input::Resume => restarts::resume(work, out, p),
    }
}

// SyncState::apply
pub fn apply(work: &mut [u8], out: &mut [u8], p: Progress, frame: &[u8], input: Input) -> Progress
    requires has_state { HasState work.old }
    requires ok { input_f.Ok (meant_input frame.now input) }
    ensures { Does (apply (meant_input frame.now input)) work.old out.old p result work.new out.new }
{
    let q = handle(work, out, p, frame, input);
    observe::forget_settled(work);
    observe::forget_aliases(work);
    q
}
