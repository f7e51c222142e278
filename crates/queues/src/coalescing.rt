// An edit that is folded into the one before it.
ghost use Rattle.std.specs.Prelude.{◌≡◌, List, Bool, not, ℕ, ◌+◌, ◌≤◌, ◌<◌, length};
ghost use Rattle.format.specs.Format.{◌⊗◌};
ghost use Rattle.model.specs.Event.{NormalizedEvent, ProviderEvent};
ghost use Rattle.model.specs.Edits as edits;
ghost use Rattle.model.specs.State.{SyncState};
ghost use Rattle.model.specs.Formats.{fields_f, event_f, operation_f, role_f, edit_f};
ghost use Rattle.model.specs.Sync.{is_attendee, fold_operation, coalesce, coalesced_with, foldable};
ghost use Rattle.frame.specs.Meaning.{fields_at, meant_role, meant_operation, meant_edit};
ghost use Rattle.state.specs.Contract.{Keeps, HasState};
ghost use Rattle.state.specs.Values.{name_of, Named};
ghost use Rattle.waiting.specs.Queues.{queue};
ghost use Rattle.queues.specs.Parts.{StandsAt};
ghost use Rattle.queues.specs.Folding.{fold_update, fold_create, FoldedAs};

use crate::places::{fields_at, fields_end, fields_place, part, role_at, tag_at};
use crate::writing::{put_role, start};
use frame::{Edit, Operation, Role};
use names::Name;

// What becomes of an edit that follows another: it stays apart, its operation is folded into the other's, or the two cancel each other.
#[derive(Clone, Copy)]
pub enum Folded {
    Apart,
    Into(usize),
    Cancelled,
}

// An update behind one whose fields stand at `at`.
fn fold_into_update(
    work: &[u8],
    at: usize,
    frame: &[u8],
    from: usize,
    to: usize,
    buf: &mut [u8],
) -> Folded
    requires { (at ≤ length work.now) × (1469 ≤ length buf.old) × (fields_f.Ok (fields_at frame.now from)) × (fields_f.Ok (fields_at frame.now to)) }
    ensures { (base ours : NormalizedEvent) → StandsAt (fields_f ⊗ fields_f) (base, ours) work.now at → FoldedAs result buf.new (fold_update base ours (fields_at frame.now from) (fields_at frame.now to)) }
{
    let base = fields_at(work, at);
    let ours = fields_at(work, fields_end(work, at));
    let expected = fields_at(frame, from);
    if expected == ours {
        let new = fields_at(frame, to);
        let end = start().byte(buf, 1).part(buf, base).part(buf, new);
        let n = end.at;
        return Folded::Into(n);
    }
    Folded::Apart
}

// An update behind a create whose event stands at `at`.
fn fold_into_create(
    work: &[u8],
    at: usize,
    frame: &[u8],
    from: usize,
    to: usize,
    buf: &mut [u8],
) -> Folded
    requires { (at ≤ length work.now) × (1469 ≤ length buf.old) × (fields_f.Ok (fields_at frame.now from)) × (fields_f.Ok (fields_at frame.now to)) }
    ensures { (event : ProviderEvent) → StandsAt event_f event work.now at → FoldedAs result buf.new (fold_create event (fields_at frame.now from) (fields_at frame.now to)) }
{
    let place = fields_place(work, at);
    let held = fields_at(work, place);
    let expected = fields_at(frame, from);
    if expected == held {
        let front = part(work, at, place);
        let new = fields_at(frame, to);
        let rest = tag_at(work, fields_end(work, place));
        let end = start()
            .byte(buf, 0)
            .part(buf, front)
            .part(buf, new)
            .part(buf, rest);
        let n = end.at;
        return Folded::Into(n);
    }
    Folded::Apart
}

// An update behind the operation that stands at `at`.
fn fold_update(
    work: &[u8],
    at: usize,
    frame: &[u8],
    from: usize,
    to: usize,
    buf: &mut [u8],
) -> Folded
    requires { (at < length work.now) × (1469 ≤ length buf.old) × (fields_f.Ok (fields_at frame.now from)) × (fields_f.Ok (fields_at frame.now to)) }
    ensures { (deletes : Bool) (o : edits.Operation) → StandsAt operation_f o work.now at → FoldedAs result buf.new (fold_operation deletes o (edits.Operation.Update (fields_at frame.now from) (fields_at frame.now to))) }
{
    let case = work[at];
    if case == 0 {
        return fold_into_create(work, at + 1, frame, from, to, buf);
    }
    if case == 1 {
        return fold_into_update(work, at + 1, frame, from, to, buf);
    }
    Folded::Apart
}

// A delete behind the operation that stands at `at`.
fn fold_delete(work: &[u8], at: usize, deletes: bool, buf: &mut [u8]) -> Folded
    requires { (at < length work.now) × (1469 ≤ length buf.old) }
    ensures { (o : edits.Operation) → StandsAt operation_f o work.now at → FoldedAs result buf.new (fold_operation deletes o edits.Operation.Delete) }
{
    if !deletes {
        return Folded::Apart;
    }
    let case = work[at];
    if case == 0 {
        return Folded::Cancelled;
    }
    if case == 1 {
        let end = start().byte(buf, 2);
        let n = end.at;
        return Folded::Into(n);
    }
    Folded::Apart
}

fn is_owner(role: Role) -> bool
    ensures { (s : List ℕ) → result ≡ not (is_attendee (meant_role s role)) }
{
    match role {
        Role::Owner => {
            return true;
        }
        Role::Attendee(_address) => {
            return false;
        }
    }
}

fn fold_operation(
    work: &[u8],
    at: usize,
    frame: &[u8],
    next: Operation,
    deletes: bool,
    buf: &mut [u8],
) -> Folded
    requires { (at < length work.now) × (1469 ≤ length buf.old) × (operation_f.Ok (meant_operation frame.now next)) }
    ensures { (o : edits.Operation) → StandsAt operation_f o work.now at → FoldedAs result buf.new (fold_operation deletes o (meant_operation frame.now next)) }
{
    match next {
        Operation::Create(_event) => {
            return Folded::Apart;
        }
        Operation::Update(from, to) => {
            return fold_update(work, at, frame, from, to, buf);
        }
        Operation::Delete => {
            return fold_delete(work, at, deletes, buf);
        }
    }
}

// fn coalesce, of the entry at `at` and an edit
fn coalesce(work: &[u8], at: usize, frame: &[u8], edit: Edit, buf: &mut [u8]) -> Folded
    requires { (at + 5940 ≤ length work.now) × (1469 ≤ length buf.old) × (edit_f.Ok (meant_edit frame.now edit)) }
    ensures { (e : edits.Edit) → StandsAt operation_f e.operation work.now (at + 66) → StandsAt role_f e.role work.now (at + 1535) → FoldedAs result buf.new (coalesce e (meant_edit frame.now edit)) }
{
    let by = edit.role;
    let operation = edit.operation;
    let mut role = [0u8; 34];
    let n = put_role(&mut role, frame, by);
    if role_at(work, at + 1535) == &role[..n] {
        let deletes = is_owner(by);
        return fold_operation(work, at + 66, frame, operation, deletes, buf);
    }
    Folded::Apart
}

// What an edit becomes with the newest entry of a queue, which is not its head.
pub fn coalesced_with(work: &[u8], name: Name, frame: &[u8], edit: Edit, buf: &mut [u8]) -> Folded
    requires has_state { HasState work.now }
    requires named { (Named name.bytes) × (1469 ≤ length buf.old) × (edit_f.Ok (meant_edit frame.now edit)) }
    ensures { (s : SyncState) → Keeps s work.now → FoldedAs result buf.new (coalesced_with (foldable (queue (name_of name.bytes) s)) (meant_edit frame.now edit)) }
{
    let n = waiting::waiting_count(work, name);
    if n < 2 {
        return Folded::Apart;
    }
    match waiting::find_entry(work, name, n - 1) {
        Some(at) => coalesce(work, at, frame, edit, buf),
        None => Folded::Apart,
    }
}
