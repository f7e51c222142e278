// SyncState::observe
ghost use Rattle.std.specs.Prelude.{◌≡◌, Some, None};
ghost use Rattle.format.specs.Format.{option};
ghost use Rattle.model.specs.Event.{ProviderEvent};
ghost use Rattle.model.specs.Seam.{resource_of};
ghost use Rattle.model.specs.Sync.{observe_event, observe_none, observe};
ghost use Rattle.model.specs.Formats.{event_f};
ghost use Rattle.frame.specs.Meaning.{event_at, option_event_at};
ghost use Rattle.state.specs.Contract.{HasState};
ghost use Rattle.state.specs.Values.{name_of, Named};
ghost use Rattle.records.specs.Events.{IsEvent};
ghost use Rattle.machine.specs.Contract.{Changes};
ghost use Rattle.observe.specs.Observing.{see_or_watch, watch_unless_done};

use crate::open_pass::{see, watch};
use crate::putting::put_record;
use frame::Cursor;
use machine::Progress;
use names::Name;
use pass_tables::Names;
use values::Listed;

// ResourceId::of
pub fn resource_of(event: &[u8]) -> Name
    requires { IsEvent event.now }
    ensures { (((e : ProviderEvent) → event_f.Ok e → event.now ≡ event_f.enc e → name_of result.bytes ≡ resource_of e)) × Named result.bytes }
{
    machine::name_from(frame::resource_at(event, 1))
}

fn see_or_watch(work: &mut [u8], p: Progress, name: Name) -> Progress
    requires has_state { HasState work.old }
    requires named { Named name.bytes }
    ensures { Changes (see_or_watch (name_of name.bytes)) work.old p result work.new }
{
    if pass_header::is_done(work) {
        return see(work, p, name);
    }
    watch(work, p, name)
}

fn watch_unless_done(work: &mut [u8], p: Progress, name: Name) -> Progress
    requires has_state { HasState work.old }
    requires named { Named name.bytes }
    ensures { Changes (watch_unless_done (name_of name.bytes)) work.old p result work.new }
{
    if pass_header::is_done(work) {
        return p;
    }
    watch(work, p, name)
}

fn observe_event(work: &mut [u8], p: Progress, resource: Name, event: &[u8]) -> Progress
    requires has_state { HasState work.old }
    requires named { (Named resource.bytes) × (IsEvent event.now) }
    ensures { (e : ProviderEvent) → event_f.Ok e → event.now ≡ event_f.enc e → Changes (observe_event (name_of resource.bytes) e) work.old p result work.new }
{
    let id = resource_of(event);
    let q = machine::learn(work, p, id);
    staged::unstage(work, resource);
    staged::unstage(work, id);
    let r = see_or_watch(work, q, id);
    put_record(work, r, id, event)
}

fn observe_none(work: &mut [u8], p: Progress, resource: Name) -> Progress
    requires has_state { HasState work.old }
    requires named { Named resource.bytes }
    ensures { Changes (observe_none (name_of resource.bytes)) work.old p result work.new }
{
    staged::unstage(work, resource);
    Names::Seen.remove(work, resource);
    let q = watch_unless_done(work, p, resource);
    records::remove_record(work, resource);
    q
}

// observe, of an event
pub fn observe_some(work: &mut [u8], p: Progress, resource: Name, event: &[u8]) -> Progress
    requires has_state { HasState work.old }
    requires named { (Named resource.bytes) × (IsEvent event.now) }
    ensures { (e : ProviderEvent) → event_f.Ok e → event.now ≡ event_f.enc e → Changes (observe (name_of resource.bytes) (Some e)) work.old p result work.new }
{
    let q = machine::learn(work, p, resource);
    observe_event(work, q, resource, event)
}

// observe, of a resource that is gone
pub fn observe_gone(work: &mut [u8], p: Progress, resource: Name) -> Progress
    requires has_state { HasState work.old }
    requires named { Named resource.bytes }
    ensures { Changes (observe (name_of resource.bytes) None) work.old p result work.new }
{
    let q = machine::learn(work, p, resource);
    observe_none(work, q, resource)
}

// The bytes of the event that stands at a place of the frame.
pub fn event_part(frame: &[u8], at: usize) -> &[u8]
    requires { event_f.Ok (event_at frame.now at) }
    ensures { result.now ≡ event_f.enc (event_at frame.now at) }
{
    let read = Cursor { at, ok: true }.event(frame);
    let part = read.value;
    part.bytes(frame)
}

// observe, of the event at a place of the frame
pub fn observe_at(work: &mut [u8], p: Progress, resource: Name, frame: &[u8], at: usize) -> Progress
    requires has_state { HasState work.old }
    requires named { (Named resource.bytes) × (event_f.Ok (event_at frame.now at)) }
    ensures { Changes (observe (name_of resource.bytes) (Some (event_at frame.now at))) work.old p result work.new }
{
    observe_some(work, p, resource, event_part(frame, at))
}

// observe, of what a read found: the event, or none, at a place of the frame
pub fn observe_read(
    work: &mut [u8],
    p: Progress,
    resource: Name,
    frame: &[u8],
    at: usize,
) -> Progress
    requires has_state { HasState work.old }
    requires named { (Named resource.bytes) × ((option event_f).Ok (option_event_at frame.now at)) }
    ensures { Changes (observe (name_of resource.bytes) (option_event_at frame.now at)) work.old p result work.new }
{
    let read = values::read_option_event(Cursor { at, ok: true }, frame);
    let listed = read.listed;
    match listed {
        Listed::Nothing => {
            return observe_gone(work, p, resource);
        }
        Listed::Event(place) => {
            return observe_at(work, p, resource, frame, place);
        }
    }
}
