// SyncState::on_list: the changes of a page, staged in the open pass.
ghost use Rattle.std.specs.Prelude.{◌≡◌, Some};
ghost use Rattle.format.specs.Format.{option};
ghost use Rattle.model.specs.Seam as seam;
ghost use Rattle.model.specs.State.{Staged};
ghost use Rattle.model.specs.Maps.{by_name, get, is_some_and};
ghost use Rattle.model.specs.Formats.{same, resource_id, short_text, event_f, change_f, next_f, page_f};
ghost use Rattle.model.specs.Machine.{for_each, stage};
ghost use Rattle.model.specs.Sync.{staged_of, list_change};
ghost use Rattle.frame.specs.Meaning.{text_in, event_at, option_event_at, page_at, meant_change};
ghost use Rattle.frame.specs.Read.{read_at};
ghost use Rattle.state.specs.Contract.{HasState, Reads};
ghost use Rattle.state.specs.Values.{name_of, Named};
ghost use Rattle.machine.specs.Contract.{Changes};
ghost use Rattle.passes.specs.Reading.{list_found};

use frame::{Change, Cursor, MAX_CHANGES, TextPart};
use machine::Progress;
use names::Name;
use values::Listed;

fn stage_removed(work: &mut [u8], p: Progress, name: Name) -> Progress
    requires has_state { HasState work.old }
    requires named { Named name.bytes }
    ensures { Changes (stage (name_of name.bytes) Staged.Removed) work.old p result work.new }
{
    let within = staged::stage_removed(work, name);
    machine::tried(p, within)
}

fn stage_event(work: &mut [u8], p: Progress, frame: &[u8], name: Name, at: usize) -> Progress
    requires has_state { HasState work.old }
    requires named { (Named name.bytes) × (event_f.Ok (event_at frame.now at)) }
    ensures { Changes (stage (name_of name.bytes) (Staged.Present (event_at frame.now at))) work.old p result work.new }
{
    let within = staged::stage_event(work, name, observe::event_part(frame, at));
    machine::tried(p, within)
}

// Stages what a change brought: its event, or that it is to be read.
fn stage_found(work: &mut [u8], p: Progress, frame: &[u8], name: Name, event: usize) -> Progress
    requires has_state { HasState work.old }
    requires named { (Named name.bytes) × ((option event_f).Ok (option_event_at frame.now event)) }
    ensures { Changes (stage (name_of name.bytes) (staged_of (option_event_at frame.now event))) work.old p result work.new }
{
    let place = Cursor {
        at: event,
        ok: true,
    };
    let read = values::read_option_event(place, frame);
    let listed = read.listed;
    match listed {
        Listed::Nothing => observe::stage_unread(work, p, name),
        Listed::Event(at) => stage_event(work, p, frame, name, at),
    }
}

// Whether the record of a name has this revision.
fn holds(work: &[u8], name: Name, revision: &[u8]) -> bool
    requires has_state { HasState work.now }
    requires named { (Named name.bytes) × (short_text.Ok revision.now) }
    ensures { Reads (λ s. is_some_and (λ e. same (option short_text) e.revision (Some revision.now)) (get by_name (name_of name.bytes) s.records)) work.now result }
{
    match records::find_record(work, name) {
        Some(at) => versions::has_revision(versions::version_at(work, at + 33), revision),
        None => false,
    }
}

fn stage_listed(
    work: &mut [u8],
    p: Progress,
    frame: &[u8],
    name: Name,
    revision: TextPart,
    event: usize,
) -> Progress
    requires has_state { HasState work.old }
    requires named { (Named name.bytes) × (short_text.Ok (text_in frame.now revision)) × ((option event_f).Ok (option_event_at frame.now event)) }
    ensures { Changes (list_found (name_of name.bytes) (text_in frame.now revision) (option_event_at frame.now event)) work.old p result work.new }
{
    if holds(work, name, revision.bytes(frame)) {
        staged::unstage(work, name);
        return p;
    }
    stage_found(work, p, frame, name, event)
}

fn list_upsert(
    work: &mut [u8],
    p: Progress,
    frame: &[u8],
    id: u64,
    resource: TextPart,
    revision: TextPart,
    event: usize,
) -> Progress
    requires has_state { HasState work.old }
    requires ok { (resource_id.Ok (text_in frame.now resource)) × (short_text.Ok (text_in frame.now revision)) × ((option event_f).Ok (option_event_at frame.now event)) }
    ensures { Changes (list_change id (seam.Change.Upsert (text_in frame.now resource) (text_in frame.now revision) (option_event_at frame.now event))) work.old p result work.new }
{
    let name = machine::name_from(resource.bytes(frame));
    let doubted = machine::doubtful(work, id, name);
    let learned = machine::learn(work, p, name);
    let seen = observe::see(work, learned, name);
    if doubted {
        return observe::stage_unread(work, seen, name);
    }
    stage_listed(work, seen, frame, name, revision, event)
}

fn list_remove(work: &mut [u8], p: Progress, frame: &[u8], id: u64, resource: TextPart) -> Progress
    requires has_state { HasState work.old }
    requires ok { resource_id.Ok (text_in frame.now resource) }
    ensures { Changes (list_change id (seam.Change.Remove (text_in frame.now resource))) work.old p result work.new }
{
    let name = machine::name_from(resource.bytes(frame));
    let doubted = machine::doubtful(work, id, name);
    let learned = machine::learn(work, p, name);
    if doubted {
        return observe::stage_unread(work, learned, name);
    }
    stage_removed(work, learned, name)
}

// A change, by its parts in the rest of the frame that it was read in.
fn list_change(work: &mut [u8], p: Progress, frame: &[u8], id: u64, change: Change) -> Progress
    requires has_state { HasState work.old }
    requires ok { change_f.Ok (meant_change frame.now change) }
    ensures { Changes (list_change id (meant_change frame.now change)) work.old p result work.new }
{
    match change {
        Change::Upsert(resource, revision, event) => {
            list_upsert(work, p, frame, id, resource, revision, event)
        }
        Change::Remove(resource) => list_remove(work, p, frame, id, resource),
    }
}

// How far the step came, and the place after the changes.
#[derive(Clone, Copy)]
pub struct Walked {
    pub progress: Progress,
    pub place: Cursor,
}

pub fn list_changes(work: &mut [u8], p: Progress, frame: &[u8], id: u64, page: usize) -> Walked
    requires has_state { HasState work.old }
    requires ok { page_f.Ok (page_at frame.now page) }
    ensures changes { Changes (for_each (list_change id) (page_at frame.now page).changes) work.old p result.progress work.new }
    ensures place_value { read_at next_f frame.now result.place ≡ Some (page_at frame.now page).next }
{
    let start = Cursor { at: page, ok: true };
    let count = start.count(frame, MAX_CHANGES);
    let mut left = count.value;
    let mut place = count.next;
    let mut progress = p;
    while 0 < left {
        let at = place.at;
        let read = place.change(frame);
        let change = read.change;
        place = read.next;
        progress = list_change(work, progress, &frame[at..], id, change);
        left -= 1;
    }
    Walked { progress, place }
}
