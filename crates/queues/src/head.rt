// The head of a queue: its start and its end.
ghost use Rattle.std.specs.Prelude.{Some};
ghost use Rattle.model.specs.Event.{ProviderEvent};
ghost use Rattle.model.specs.Seam.{Request};
ghost use Rattle.model.specs.State as model;
ghost use Rattle.model.specs.Machine.{request};
ghost use Rattle.model.specs.Sync.{start_edit, finish};
ghost use Rattle.state.specs.Contract.{HasState, Reads};
ghost use Rattle.state.specs.Values.{name_of, Named};
ghost use Rattle.waiting.specs.Queues.{queue, nth};
ghost use Rattle.machine.specs.Contract.{Does};
ghost use Rattle.queues.specs.Heads.{rejection_of, meant_beginning, begins_as, created, Sends, create_effect};

use crate::places::event_at;
use crate::reading::{looks_up, read_for_edit};
use crate::telling::{Ending, notify};
use effects::Refusal;
use machine::Progress;
use names::Name;
use state::Purpose;
use waiting::OperationCase;

// What the start of a head is.
#[derive(Clone, Copy)]
enum Beginning {
    Nothing,
    Create,
    Read,
    NotOwner,
}

fn begins(work: &[u8], name: Name) -> Beginning
    requires has_state { HasState work.now }
    requires named { Named name.bytes }
    ensures { Reads (λ s. begins_as (nth 0 (queue (name_of name.bytes) s))) work.now (meant_beginning result) }
{
    match waiting::operation_case(work, name, 0) {
        None => Beginning::Nothing,
        Some(OperationCase::Create) => {
            if looks_up(work, name) {
                Beginning::Read
            } else {
                Beginning::Create
            }
        }
        Some(OperationCase::Update) => Beginning::Read,
        Some(OperationCase::Delete) => {
            if waiting::is_attendee(work, name, 0) {
                Beginning::NotOwner
            } else {
                Beginning::Read
            }
        }
    }
}

// The request that creates the head's event, behind its number.
fn send_create(work: &[u8], out: &mut [u8], p: Progress, id: u64, name: Name) -> Progress
    requires has_state { HasState work.now }
    requires named { Named name.bytes }
    ensures { Sends (create_effect id (name_of name.bytes)) work.now out.old p result out.new }
{
    match waiting::find_entry(work, name, 0) {
        Some(at) => {
            let event = event_at(work, at + 67);
            let resource = machine::text_of(&name.bytes);
            let pen = effects::create(machine::pen_of(p), out, id, resource, event);
            machine::sent(p, pen)
        }
        None => p,
    }
}

// The write of a head that creates an event.
pub fn request_create(work: &mut [u8], out: &mut [u8], p: Progress, name: Name) -> Progress
    requires has_state { HasState work.old }
    requires named { Named name.bytes }
    ensures { (event : ProviderEvent) → Reads (λ s. created (nth 0 (queue (name_of name.bytes) s))) work.old (Some event) → Does (request (model.Purpose.EditWrite (name_of name.bytes)) (Request.Create (name_of name.bytes) event)) work.old out.old p result work.new out.new }
{
    let id = state::next_request(work);
    let q = machine::reserve(work, p, Purpose::EditWrite(name));
    send_create(work, out, q, id, name)
}

// SyncState::start_edit: an attendee's delete is finished.
#[cycle(finish_start_edit)]
pub fn start_edit(work: &mut [u8], out: &mut [u8], p: Progress, name: Name) -> Progress
    requires has_state { HasState work.old }
    requires named { Named name.bytes }
    ensures { Does (start_edit (name_of name.bytes)) work.old out.old p result work.new out.new }
{
    let beginning = begins(work, name);
    match beginning {
        Beginning::Nothing => {
            return p;
        }
        Beginning::Create => {
            return request_create(work, out, p, name);
        }
        Beginning::Read => {
            return read_for_edit(work, out, p, name);
        }
        Beginning::NotOwner => {
            let ending = Ending::Rejected(Refusal::NotOwner);
            return finish(work, out, p, name, ending, b"");
        }
    }
}

// SyncState::finish: the head's ids are told, it goes, and the next is started.
#[cycle(finish_start_edit)]
pub fn finish(
    work: &mut [u8],
    out: &mut [u8],
    p: Progress,
    name: Name,
    ending: Ending,
    frame: &[u8],
) -> Progress
    requires has_state { HasState work.old }
    requires named { Named name.bytes }
    ensures { Does (finish (name_of name.bytes) (rejection_of frame.now ending)) work.old out.old p result work.new out.new }
{
    let n = waiting::waiting_count(work, name);
    if n == 0 {
        return p;
    }
    let q = notify(work, out, p, name, 0, ending, frame);
    waiting::remove_entry(work, name, 0);
    start_edit(work, out, q, name)
}
