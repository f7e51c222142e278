// Reads for edits.
ghost use Rattle.model.specs.Seam.{Request};
ghost use Rattle.model.specs.State as model;
ghost use Rattle.model.specs.Maps.{is_some_and};
ghost use Rattle.model.specs.Machine.{request};
ghost use Rattle.model.specs.Sync.{read_for_edit, creates_under_key};
ghost use Rattle.state.specs.Contract.{HasState, Reads};
ghost use Rattle.state.specs.Values.{name_of, Named};
ghost use Rattle.waiting.specs.Queues.{queue, nth};
ghost use Rattle.machine.specs.Contract.{Does};

use crate::places::is_keyed;
use machine::Progress;
use names::Name;
use state::Purpose;

// SyncState::looks_up
pub fn looks_up(work: &[u8], name: Name) -> bool
    requires has_state { HasState work.now }
    requires named { Named name.bytes }
    ensures { Reads (λ s. is_some_and (λ p. creates_under_key p.edit.operation) (nth 0 (queue (name_of name.bytes) s))) work.now result }
{
    match waiting::find_entry(work, name, 0) {
        Some(at) => is_keyed(work, at + 66),
        None => false,
    }
}

fn request_lookup(work: &mut [u8], out: &mut [u8], p: Progress, name: Name) -> Progress
    requires has_state { HasState work.old }
    requires named { Named name.bytes }
    ensures { Does (request (model.Purpose.EditRead (name_of name.bytes)) (Request.Lookup (name_of name.bytes))) work.old out.old p result work.new out.new }
{
    let id = state::next_request(work);
    let q = machine::reserve(work, p, Purpose::EditRead(name));
    let key = name.bytes;
    let pen = effects::lookup(machine::pen_of(q), out, id, machine::text_of(&key));
    machine::sent(q, pen)
}

// SyncState::read_for_edit
pub fn read_for_edit(work: &mut [u8], out: &mut [u8], p: Progress, name: Name) -> Progress
    requires has_state { HasState work.old }
    requires named { Named name.bytes }
    ensures { Does (read_for_edit (name_of name.bytes)) work.old out.old p result work.new out.new }
{
    if looks_up(work, name) {
        return request_lookup(work, out, p, name);
    }
    machine::request_read(work, out, p, Purpose::EditRead(name), name)
}
