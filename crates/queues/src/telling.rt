// What becomes of an edit, told for each of its ids.
ghost use Rattle.std.specs.Prelude.{[]};
ghost use Rattle.model.specs.Calls.{Notice, Effect, Rejection};
ghost use Rattle.model.specs.Formats.{short_text};
ghost use Rattle.model.specs.Sync.{describe};
ghost use Rattle.frame.specs.Meaning.{text_in, meant_outcome};
ghost use Rattle.effects.specs.Told.{meant_refusal};
ghost use Rattle.state.specs.Contract.{HasState};
ghost use Rattle.state.specs.Values.{name_of, Named};
ghost use Rattle.machine.specs.Contract.{Does, Pushes};
ghost use Rattle.queues.specs.Heads.{rejection_of, notify_at, Sends, id_effect, applied_effect};

use crate::places::{conflicts_at, refused_at};
use effects::Refusal;
use frame::{Outcome, TextPart};
use machine::Progress;
use names::Name;

// How an edit ends: applied, or rejected with a reason of the engine's or with the provider's.
#[derive(Clone, Copy)]
pub enum Ending {
    Applied,
    Rejected(Refusal),
    By(Outcome),
}

fn tell_applied(
    work: &[u8],
    out: &mut [u8],
    p: Progress,
    name: Name,
    j: usize,
    id: Name,
) -> Progress
    requires has_state { HasState work.now }
    requires named { Named name.bytes }
    ensures { Sends (applied_effect j (name_of id.bytes) (name_of name.bytes)) work.now out.old p result out.new }
{
    match waiting::find_entry(work, name, j) {
        Some(at) => {
            let conflicts = conflicts_at(work, at + 1578);
            let refused = refused_at(work, at + 4650);
            let edit = machine::text_of(&id.bytes);
            let pen = effects::applied(machine::pen_of(p), out, edit, conflicts, refused);
            machine::sent(p, pen)
        }
        None => p,
    }
}

fn tell_rejected(out: &mut [u8], p: Progress, id: Name, refusal: Refusal) -> Progress
    ensures { Pushes (Effect.Notify (Notice.Rejected (name_of id.bytes) (meant_refusal refusal))) out.old p result out.new }
{
    let key = id.bytes;
    let pen = effects::rejected(machine::pen_of(p), out, machine::text_of(&key), refusal);
    machine::sent(p, pen)
}

fn tell_rejected_by(
    out: &mut [u8],
    p: Progress,
    id: Name,
    frame: &[u8],
    outcome: Outcome,
) -> Progress
    ensures { Pushes (Effect.Notify (Notice.Rejected (name_of id.bytes) (Rejection.Provider (describe (meant_outcome frame.now outcome))))) out.old p result out.new }
{
    let key = id.bytes;
    let pen = effects::rejected_by(
        machine::pen_of(p),
        out,
        machine::text_of(&key),
        frame,
        outcome,
    );
    machine::sent(p, pen)
}

// The notice for one id of an entry.
fn tell_id(
    work: &[u8],
    out: &mut [u8],
    p: Progress,
    name: Name,
    j: usize,
    k: usize,
    ending: Ending,
    frame: &[u8],
) -> Progress
    requires has_state { HasState work.now }
    requires named { Named name.bytes }
    ensures { Sends (id_effect j k (name_of name.bytes) (rejection_of frame.now ending)) work.now out.old p result out.new }
{
    let id = waiting::entry_id(work, name, j, k);
    match ending {
        Ending::Applied => {
            return tell_applied(work, out, p, name, j, id);
        }
        Ending::Rejected(refusal) => {
            return tell_rejected(out, p, id, refusal);
        }
        Ending::By(outcome) => {
            return tell_rejected_by(out, p, id, frame, outcome);
        }
    }
}

// SyncState::notify, of the j-th entry of a queue: it stays there.
pub fn notify(
    work: &[u8],
    out: &mut [u8],
    p: Progress,
    name: Name,
    j: usize,
    ending: Ending,
    frame: &[u8],
) -> Progress
    requires has_state { HasState work.now }
    requires named { Named name.bytes }
    ensures { Does (notify_at j (name_of name.bytes) (rejection_of frame.now ending)) work.now out.old p result work.now out.new }
{
    let n = waiting::ids_count(work, name, j);
    let mut q = p;
    for k in 0..n {
        q = tell_id(work, out, q, name, j, k, ending, frame);
    }
    q
}

pub fn tell_expired(out: &mut [u8], p: Progress, frame: &[u8], id: TextPart) -> Progress
    requires { short_text.Ok (text_in frame.now id) }
    ensures { Pushes (Effect.Notify (Notice.Expired (text_in frame.now id))) out.old p result out.new }
{
    let edit = id.bytes(frame);
    let pen = effects::expired(machine::pen_of(p), out, edit);
    machine::sent(p, pen)
}

// Applied, with nothing to report.
pub fn tell_done(out: &mut [u8], p: Progress, frame: &[u8], id: TextPart) -> Progress
    requires { short_text.Ok (text_in frame.now id) }
    ensures { Pushes (Effect.Notify (Notice.Applied (text_in frame.now id) [] [])) out.old p result out.new }
{
    let edit = id.bytes(frame);
    let none = [0u8; 1];
    let pen = effects::applied(machine::pen_of(p), out, edit, &none, &none);
    machine::sent(p, pen)
}
