// SyncState::enqueue
ghost use Rattle.std.specs.Prelude.{◌≡◌, List, ℕ, ◌≤◌, length};
ghost use Rattle.model.specs.Edits as edits;
ghost use Rattle.model.specs.Formats.{operation_f, edit_f};
ghost use Rattle.model.specs.Sync.{with_resource, is_create, enqueue_live, enqueue};
ghost use Rattle.frame.specs.Meaning.{meant_operation, meant_edit};
ghost use Rattle.state.specs.Contract.{HasState, Reads};
ghost use Rattle.state.specs.Values.{name_of, Named};
ghost use Rattle.machine.specs.Contract.{Does, Changes};
ghost use Rattle.queues.specs.Enqueue.{append_entry, append_to, fold_last, cancel_last, target_of};

use crate::coalescing::{Folded, coalesced_with};
use crate::expiry::expired;
use crate::head::start_edit;
use crate::places::part;
use crate::telling::{Ending, notify, tell_done, tell_expired};
use crate::writing::{put_expiry, put_id, put_operation, put_role};
use frame::{Edit, Operation};
use machine::Progress;
use names::Name;

// A new entry behind the others of its queue.
fn append_entry(work: &mut [u8], p: Progress, name: Name, frame: &[u8], edit: Edit) -> Progress
    requires has_state { HasState work.old }
    requires named { (Named name.bytes) × (edit_f.Ok (meant_edit frame.now edit)) }
    ensures { Changes (append_entry (with_resource (name_of name.bytes) (meant_edit frame.now edit))) work.old p result work.new }
{
    let what = edit.operation;
    let by = edit.role;
    let until = edit.expires_at;
    let mut id = [0u8; 33];
    let a = put_id(&mut id, frame, edit.id);
    let mut operation = [0u8; 1469];
    let b = put_operation(&mut operation, frame, what);
    let mut role = [0u8; 34];
    let c = put_role(&mut role, frame, by);
    let mut expiry = [0u8; 9];
    let d = put_expiry(&mut expiry, until);
    let within = waiting::append(
        work,
        name,
        &id[..a],
        &operation[..b],
        &role[..c],
        &expiry[..d],
    );
    machine::tried(p, within)
}

fn append(
    work: &mut [u8],
    out: &mut [u8],
    p: Progress,
    name: Name,
    frame: &[u8],
    edit: Edit,
) -> Progress
    requires has_state { HasState work.old }
    requires named { (Named name.bytes) × (edit_f.Ok (meant_edit frame.now edit)) }
    ensures { Does (append_to (with_resource (name_of name.bytes) (meant_edit frame.now edit))) work.old out.old p result work.new out.new }
{
    let n = waiting::waiting_count(work, name);
    let q = append_entry(work, p, name, frame, edit);
    if n == 0 {
        return start_edit(work, out, q, name);
    }
    q
}

// Folds an edit into the newest entry, whose operation becomes the lent one.
fn fold_in(
    work: &mut [u8],
    p: Progress,
    name: Name,
    operation: &[u8],
    frame: &[u8],
    edit: Edit,
) -> Progress
    requires has_state { HasState work.old }
    requires named { (Named name.bytes) × (edit_f.Ok (meant_edit frame.now edit)) × (length operation.now ≤ 1469) }
    ensures { (o : edits.Operation) → operation_f.Ok o → operation.now ≡ operation_f.enc o → Changes (fold_last o (with_resource (name_of name.bytes) (meant_edit frame.now edit))) work.old p result work.new }
{
    let until = edit.expires_at;
    let mut id = [0u8; 33];
    let a = put_id(&mut id, frame, edit.id);
    let mut expiry = [0u8; 9];
    let d = put_expiry(&mut expiry, until);
    let within = waiting::fold(work, name, operation, &expiry[..d], &id[..a]);
    machine::tried(p, within)
}

// The newest entry and an edit cancel each other.
fn cancel(
    work: &mut [u8],
    out: &mut [u8],
    p: Progress,
    name: Name,
    frame: &[u8],
    edit: Edit,
) -> Progress
    requires has_state { HasState work.old }
    requires named { (Named name.bytes) × (edit_f.Ok (meant_edit frame.now edit)) }
    ensures { Does (cancel_last (with_resource (name_of name.bytes) (meant_edit frame.now edit))) work.old out.old p result work.new out.new }
{
    let n = waiting::waiting_count(work, name);
    if n == 0 {
        return p;
    }
    let last = n - 1;
    let q = notify(work, out, p, name, last, Ending::Applied, frame);
    waiting::remove_entry(work, name, last);
    tell_done(out, q, frame, edit.id)
}

// An edit that has not expired, in the queue of a resource.
fn enqueue_live(
    work: &mut [u8],
    out: &mut [u8],
    p: Progress,
    name: Name,
    frame: &[u8],
    edit: Edit,
) -> Progress
    requires has_state { HasState work.old }
    requires named { (Named name.bytes) × (edit_f.Ok (meant_edit frame.now edit)) }
    ensures { Does (enqueue_live (with_resource (name_of name.bytes) (meant_edit frame.now edit))) work.old out.old p result work.new out.new }
{
    let mut operation = [0u8; 1469];
    let folded = coalesced_with(work, name, frame, edit, &mut operation);
    match folded {
        Folded::Apart => {
            return append(work, out, p, name, frame, edit);
        }
        Folded::Into(n) => {
            return fold_in(work, p, name, part(&operation, 0, n), frame, edit);
        }
        Folded::Cancelled => {
            return cancel(work, out, p, name, frame, edit);
        }
    }
}

fn is_create(operation: Operation) -> bool
    ensures { (s : List ℕ) → result ≡ is_create (meant_operation s operation) }
{
    match operation {
        Operation::Create(_event) => {
            return true;
        }
        Operation::Update(_base, _ours) => {
            return false;
        }
        Operation::Delete => {
            return false;
        }
    }
}

// The resource that an edit is for: one alias is followed, never for a create.
fn target(work: &[u8], frame: &[u8], edit: Edit) -> Name
    requires has_state { HasState work.now }
    requires ok { edit_f.Ok (meant_edit frame.now edit) }
    ensures reads { Reads (target_of (meant_edit frame.now edit)) work.now (name_of result.bytes) }
    ensures named { Named result.bytes }
{
    let what = edit.operation;
    let resource = edit.resource;
    let name = machine::name_from(resource.bytes(frame));
    if is_create(what) {
        return name;
    }
    state::alias(work, name).unwrap_or(name)
}

// SyncState::enqueue
pub fn enqueue(work: &mut [u8], out: &mut [u8], p: Progress, frame: &[u8], edit: Edit) -> Progress
    requires has_state { HasState work.old }
    requires ok { edit_f.Ok (meant_edit frame.now edit) }
    ensures { Does (enqueue (meant_edit frame.now edit)) work.old out.old p result work.new out.new }
{
    let until = edit.expires_at;
    if expired(work, until) {
        return tell_expired(out, p, frame, edit.id);
    }
    let name = target(work, frame, edit);
    enqueue_live(work, out, p, name, frame, edit)
}
