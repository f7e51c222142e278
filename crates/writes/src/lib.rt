// sync.rs, the writing half: planning from a read, the answers to writes, and entries that follow a resource to another name.
#![tactic(auto)]

ghost use Rattle.std.specs.Prelude.{◌≡◌, false, ◌+◌, ◌≤◌, ◌<◌, length, Option, Some, None};
ghost use Rattle.format.specs.Format.{option};
ghost use Rattle.model.specs.Event.{ProviderRevision, NormalizedEvent, ProviderEvent};
ghost use Rattle.model.specs.Parts.{Role};
ghost use Rattle.model.specs.Seam.{Request};
ghost use Rattle.model.specs.State as model;
ghost use Rattle.model.specs.Limits.{max_attendees};
ghost use Rattle.model.specs.Formats.{same, short_text, fields_f, event_f, conflicts_f, refusals_f};
ghost use Rattle.model.specs.Merge.{merge};
ghost use Rattle.model.specs.Maps.{same_text};
ghost use Rattle.model.specs.Machine.{request, queue_of};
ghost use Rattle.model.specs.Sync.{move_behind, remap, plan_update};
ghost use Rattle.state.specs.Contract.{HasState, Reads, Edits};
ghost use Rattle.state.specs.Values.{name_of, Named};
ghost use Rattle.machine.specs.Contract.{Does};
ghost use Rattle.merge.specs.Given.{Begins};
ghost use Rattle.writes.specs.Plans.{operation_part, ours_part, role_part, GivenAt, HasGiven, Filled, with_merge, send_merged, HeadCase, plan_head};
ghost use Rattle.records.specs.Events.{IsEvent};
ghost use Rattle.waiting.specs.Queues.{queue, nth};
ghost use Rattle.queues.specs.Heads.{created};
ghost use Rattle.writes.specs.Moves.{MovesOne, swept};

use effects::Refusal;
use frame::Cursor;
use machine::Progress;
use names::Name;
use pens::Pen;
use queues::Ending;
use state::Purpose;
use waiting::OperationCase;

// ---- requests

fn request_update(
    work: &mut [u8],
    out: &mut [u8],
    p: Progress,
    name: Name,
    revision: &[u8],
    event: &[u8],
) -> Progress
    requires has_state { HasState work.old }
    requires named { Named name.bytes }
    ensures { (v : Option ProviderRevision) (e : ProviderEvent) → revision.now ≡ (option short_text).enc v → event.now ≡ event_f.enc e → Does (request (model.Purpose.EditWrite (name_of name.bytes)) (Request.Update (name_of name.bytes) v e)) work.old out.old p result work.new out.new }
{
    let id = state::next_request(work);
    let q = machine::reserve(work, p, Purpose::EditWrite(name));
    let pen = effects::update(
        machine::pen_of(q),
        out,
        id,
        machine::text_of(&name.bytes),
        revision,
        event,
    );
    machine::sent(q, pen)
}

fn request_delete(
    work: &mut [u8],
    out: &mut [u8],
    p: Progress,
    name: Name,
    revision: &[u8],
) -> Progress
    requires has_state { HasState work.old }
    requires named { Named name.bytes }
    ensures { (v : Option ProviderRevision) → revision.now ≡ (option short_text).enc v → Does (request (model.Purpose.EditWrite (name_of name.bytes)) (Request.Delete (name_of name.bytes) v)) work.old out.old p result work.new out.new }
{
    let id = state::next_request(work);
    let q = machine::reserve(work, p, Purpose::EditWrite(name));
    let pen = effects::delete(
        machine::pen_of(q),
        out,
        id,
        machine::text_of(&name.bytes),
        revision,
    );
    machine::sent(q, pen)
}

// ---- a merge of an entry with an encoded event

// An entry of the work buffer, by where it stands.
#[derive(Clone, Copy)]
struct Entry {
    at: usize,
    ghost within: { at + 5940 ≤ 55643 },
}

impl Entry {
    // Its operation behind its case: where it is an update, base and then ours.
    fn operation_part(self, work: &[u8]) -> &[u8]
        ensures { result.now ≡ operation_part work.now self.at }
    {
        comparison::part(work, self.at + 67, self.at + 1535)
    }

    fn ours_part(self, work: &[u8]) -> &[u8]
        ensures { result.now ≡ ours_part work.now self.at }
    {
        let s = self.operation_part(work);
        let base = Cursor { at: 0, ok: true }.skip_fields(s);
        comparison::part(s, base.at, 1468)
    }

    // Kept: the part of other places than `operation_part`; places handed over would be no plainer.
    fn role_part(self, work: &[u8]) -> &[u8]
        ensures { result.now ≡ role_part work.now self.at }
    {
        comparison::part(work, self.at + 1535, self.at + 1569)
    }

    fn merged_attendees<'a>(self, work: &'a [u8], theirs: &'a [u8]) -> u8
        ensures { (b o : NormalizedEvent) (t : ProviderEvent) (by : Role) → GivenAt work.now self.at theirs.now b o t by → result ≡ length (merge b o t by).event.fields.attendees }
    {
        merge::merged_attendees(
            self.operation_part(work),
            self.ours_part(work),
            theirs,
            self.role_part(work),
        )
    }

    // The merged event; how many bytes it takes.
    fn put_event<'a>(self, out: &mut [u8], work: &'a [u8], theirs: &'a [u8]) -> usize
        requires { length out.old ≡ 882 }
        ensures { (b o : NormalizedEvent) (t : ProviderEvent) (by : Role) → GivenAt work.now self.at theirs.now b o t by → length (merge b o t by).event.fields.attendees ≤ max_attendees → Filled out.new result (event_f.enc (merge b o t by).event) }
    {
        let pen = merge::merged_event(
            Pen { at: 0, ok: true },
            out,
            self.operation_part(work),
            self.ours_part(work),
            theirs,
            self.role_part(work),
        );
        pen.at
    }

    // The merge's conflicts; how many bytes they take.
    // Kept: what writes them could be handed over to one function, which would have to be told what each promises.
    fn put_conflicts<'a>(self, out: &mut [u8], work: &'a [u8], theirs: &'a [u8]) -> usize
        requires { length out.old ≡ 3072 }
        ensures { (b o : NormalizedEvent) (t : ProviderEvent) (by : Role) → GivenAt work.now self.at theirs.now b o t by → Filled out.new result (conflicts_f.enc (merge b o t by).conflicts) }
    {
        let pen = merge::conflicts(
            Pen { at: 0, ok: true },
            out,
            self.operation_part(work),
            self.ours_part(work),
            theirs,
            self.role_part(work),
        );
        pen.at
    }

    // The units that it refused; how many bytes they take.
    // Kept: as `put_conflicts`.
    fn put_refused<'a>(self, out: &mut [u8], work: &'a [u8], theirs: &'a [u8]) -> usize
        requires { length out.old ≡ 1024 }
        ensures { (b o : NormalizedEvent) (t : ProviderEvent) (by : Role) → GivenAt work.now self.at theirs.now b o t by → Filled out.new result (refusals_f.enc (merge b o t by).refused) }
    {
        let pen = merge::refused(
            Pen { at: 0, ok: true },
            out,
            self.operation_part(work),
            self.ours_part(work),
            theirs,
            self.role_part(work),
        );
        pen.at
    }

    // Whether the event that it creates has the fields of an encoded event.
    fn same_fields(self, work: &[u8], theirs: &[u8]) -> bool
        ensures { (e t : ProviderEvent) → Begins event_f (operation_part work.now self.at) e → Begins event_f theirs.now t → result ≡ same fields_f t.fields e.fields }
    {
        merge::fields_of(theirs) == merge::fields_of(self.operation_part(work))
    }
}

// The merge's reports into the head of a queue.
fn plan_head(work: &mut [u8], name: Name, entry: Entry, theirs: &[u8])
    requires has_state { HasState work.old }
    requires named { Named name.bytes }
    ensures { (b o : NormalizedEvent) (t : ProviderEvent) (by : Role) → GivenAt work.old entry.at theirs.now b o t by → Edits (with_merge (name_of name.bytes) (merge b o t by)) work.old work.new }
{
    let mut conflicts = [0u8; 3072];
    let m = entry.put_conflicts(&mut conflicts, work, theirs);
    let mut refused = [0u8; 1024];
    let n = entry.put_refused(&mut refused, work, theirs);
    let a = comparison::part(&conflicts, 0, m);
    let b = comparison::part(&refused, 0, n);
    waiting::set_plan(work, name, a, b);
}

// An event's revision.
fn revision_of(event: &[u8]) -> &[u8]
    ensures { (t : ProviderEvent) → Begins event_f event.now t → result.now ≡ (option short_text).enc t.revision }
{
    let from = Cursor { at: 0, ok: true }.skip_ids(event);
    let to = from.skip_option_short_text(event);
    comparison::part(event, from.at, to.at)
}

// ---- SyncState::remap

// Moves the j-th entry of one queue to another unless it creates; where the next one stands.
fn move_one(work: &mut [u8], from: Name, j: usize, to: Name) -> usize
    requires has_state { HasState work.old }
    requires named { (Named from.bytes) × (Named to.bytes) × (j < 6) }
    ensures { MovesOne (name_of from.bytes) j (name_of to.bytes) work.old result work.new }
{
    match waiting::operation_case(work, from, j) {
        Some(OperationCase::Create) => j + 1,
        _ => {
            waiting::move_entry(work, from, j, to);
            j
        }
    }
}

// Moves the entries behind the head that do not create.
fn move_entries(work: &mut [u8], from: Name, to: Name)
    requires has_state { HasState work.old }
    requires named { (Named from.bytes) × (Named to.bytes) }
    ensures { Edits (swept (name_of from.bytes) (name_of to.bytes)) work.old work.new }
{
    let n = waiting::waiting_count(work, from);
    let mut j = 1;
    for _ in 1..n {
        j = move_one(work, from, j, to);
    }
}

fn move_behind(work: &mut [u8], out: &mut [u8], p: Progress, from: Name, to: Name) -> Progress
    requires has_state { HasState work.old }
    requires named { (Named from.bytes) × (Named to.bytes) × (same_text (name_of from.bytes) (name_of to.bytes) ≡ false) }
    ensures { Does (λ m. move_behind (name_of from.bytes) (name_of to.bytes) (queue_of (name_of from.bytes) m) m) work.old out.old p result work.new out.new }
{
    let waiting = waiting::waiting_count(work, to);
    move_entries(work, from, to);
    if waiting == 0 {
        return queues::start_edit(work, out, p, to);
    }
    p
}

fn same_name(a: Name, b: Name) -> bool
    requires { (Named a.bytes) × (Named b.bytes) }
    ensures { result ≡ same_text (name_of a.bytes) (name_of b.bytes) }
{
    machine::text_of(&a.bytes) == machine::text_of(&b.bytes)
}

pub fn remap(work: &mut [u8], out: &mut [u8], p: Progress, from: Name, to: Name) -> Progress
    requires has_state { HasState work.old }
    requires named { (Named from.bytes) × (Named to.bytes) }
    ensures { Does (remap (name_of from.bytes) (name_of to.bytes)) work.old out.old p result work.new out.new }
{
    if same_name(from, to) {
        return p;
    }
    let within = state::add_alias(work, from, to);
    let q = machine::tried(p, within);
    let r = machine::tell_remapped(out, q, from, to);
    move_behind(work, out, r, from, to)
}

// ---- planning from a fresh read

// What follows a merge: its event is written if it differs from theirs.
fn send_merged(
    work: &mut [u8],
    out: &mut [u8],
    p: Progress,
    name: Name,
    merged: &[u8],
    theirs: &[u8],
) -> Progress
    requires has_state { HasState work.old }
    requires named { Named name.bytes }
    ensures { (b o : NormalizedEvent) (t : ProviderEvent) (by : Role) → Begins event_f merged.now (merge b o t by).event → merged.now ≡ event_f.enc (merge b o t by).event → Begins event_f theirs.now t → Does (send_merged (name_of name.bytes) t (merge b o t by)) work.old out.old p result work.new out.new }
{
    if merge::changed(merged, theirs) {
        return request_update(work, out, p, name, revision_of(theirs), merged);
    }
    queues::finish(work, out, p, name, Ending::Applied, b"")
}

// SyncState::on_edit_read, an update: the head is merged with the event.
fn plan_update_at(
    work: &mut [u8],
    out: &mut [u8],
    p: Progress,
    name: Name,
    entry: Entry,
    theirs: &[u8],
) -> Progress
    requires has_state { HasState work.old }
    requires named { (Named name.bytes) × (HasGiven work.old entry.at theirs.now) }
    ensures { (b o : NormalizedEvent) (t : ProviderEvent) (by : Role) → GivenAt work.old entry.at theirs.now b o t by → Does (plan_update (name_of name.bytes) by b o t) work.old out.old p result work.new out.new }
{
    if 8 < entry.merged_attendees(work, theirs) {
        return machine::refuse(p, 6);
    }
    let mut merged = [0u8; 882];
    let m = entry.put_event(&mut merged, work, theirs);
    plan_head(work, name, entry, theirs);
    let event = comparison::part(&merged, 0, m);
    send_merged(work, out, p, name, event, theirs)
}

fn plan_update(work: &mut [u8], out: &mut [u8], p: Progress, name: Name, theirs: &[u8]) -> Progress
    requires has_state { HasState work.old }
    requires named { (Named name.bytes) × (IsEvent theirs.now) × (HeadCase (name_of name.bytes) work.old (Some OperationCase.Update)) }
    ensures { (t : ProviderEvent) → event_f.Ok t → theirs.now ≡ event_f.enc t → Does (plan_head (name_of name.bytes) (Some t)) work.old out.old p result work.new out.new }
{
    match waiting::find_entry(work, name, 0) {
        Some(at) => plan_update_at(work, out, p, name, Entry { at }, theirs),
        None => p,
    }
}

// Whether the event that the head creates has the fields of an encoded event.
fn same_as_head(work: &[u8], name: Name, theirs: &[u8]) -> bool
    requires has_state { HasState work.now }
    requires named { Named name.bytes }
    ensures { (e t : ProviderEvent) → Reads (λ s. created (nth 0 (queue (name_of name.bytes) s))) work.now (Some e) → Begins event_f theirs.now t → result ≡ same fields_f t.fields e.fields }
{
    match waiting::find_entry(work, name, 0) {
        Some(at) => Entry { at }.same_fields(work, theirs),
        None => false,
    }
}

fn plan_create(work: &mut [u8], out: &mut [u8], p: Progress, name: Name, theirs: &[u8]) -> Progress
    requires has_state { HasState work.old }
    requires named { (Named name.bytes) × (IsEvent theirs.now) × (HeadCase (name_of name.bytes) work.old (Some OperationCase.Create)) }
    ensures { (t : ProviderEvent) → event_f.Ok t → theirs.now ≡ event_f.enc t → Does (plan_head (name_of name.bytes) (Some t)) work.old out.old p result work.new out.new }
{
    if queues::looks_up(work, name) {
        let to = observe::resource_of(theirs);
        let q = remap(work, out, p, name, to);
        return queues::finish(work, out, q, name, Ending::Applied, b"");
    }
    if same_as_head(work, name, theirs) {
        return queues::finish(work, out, p, name, Ending::Applied, b"");
    }
    let ending = Ending::Rejected(Refusal::Exists);
    queues::finish(work, out, p, name, ending, b"")
}

// SyncState::on_edit_read, planning from an event that was read.
pub fn plan_found(
    work: &mut [u8],
    out: &mut [u8],
    p: Progress,
    name: Name,
    theirs: &[u8],
) -> Progress
    requires has_state { HasState work.old }
    requires named { (Named name.bytes) × (IsEvent theirs.now) }
    ensures { (t : ProviderEvent) → event_f.Ok t → theirs.now ≡ event_f.enc t → Does (plan_head (name_of name.bytes) (Some t)) work.old out.old p result work.new out.new }
{
    match waiting::operation_case(work, name, 0) {
        Some(OperationCase::Create) => plan_create(work, out, p, name, theirs),
        Some(OperationCase::Update) => plan_update(work, out, p, name, theirs),
        Some(OperationCase::Delete) => request_delete(work, out, p, name, revision_of(theirs)),
        None => p,
    }
}

// The same, where nothing was found.
pub fn plan_gone(work: &mut [u8], out: &mut [u8], p: Progress, name: Name) -> Progress
    requires has_state { HasState work.old }
    requires named { Named name.bytes }
    ensures { Does (plan_head (name_of name.bytes) None) work.old out.old p result work.new out.new }
{
    match waiting::operation_case(work, name, 0) {
        Some(OperationCase::Create) => {
            if waiting::is_collided(work, name, 0) {
                let ending = Ending::Rejected(Refusal::Exists);
                return queues::finish(work, out, p, name, ending, b"");
            }
            queues::request_create(work, out, p, name)
        }
        Some(OperationCase::Update) => {
            let ending = Ending::Rejected(Refusal::Gone);
            queues::finish(work, out, p, name, ending, b"")
        }
        Some(OperationCase::Delete) => queues::finish(work, out, p, name, Ending::Applied, b""),
        None => p,
    }
}
