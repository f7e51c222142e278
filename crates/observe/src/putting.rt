// SyncState::put_record
ghost use Rattle.std.specs.Prelude.{◌≡◌, ◌+◌, ◌≤◌, length, take, drop};
ghost use Rattle.model.specs.Event.{ProviderEvent};
ghost use Rattle.model.specs.Sync.{put_record};
ghost use Rattle.model.specs.Formats.{event_f};
ghost use Rattle.state.specs.Layout.{field};
ghost use Rattle.state.specs.Contract.{HasState, Reads};
ghost use Rattle.state.specs.Values.{name_of, Named};
ghost use Rattle.records.specs.Events.{IsEvent};
ghost use Rattle.versions.specs.Versions.{HasEvent, VersionOf};
ghost use Rattle.machine.specs.Contract.{Changes};
ghost use Rattle.observe.specs.Observing.{gives_way};

use machine::Progress;
use names::Name;
use versions::Version;

// Whether an event of this version takes the place of what is held under a name.
fn replaces(work: &[u8], name: Name, version: Version) -> bool
    requires has_state { HasState work.now }
    requires named { (Named name.bytes) × (length version.revision ≡ 34) }
    ensures { (e : ProviderEvent) → event_f.Ok e → VersionOf e version.revision version.mapper → Reads (gives_way (name_of name.bytes) e) work.now result }
{
    match records::find_record(work, name) {
        Some(at) => {
            let held = versions::version_at(work, at + 33);
            versions::takes_place(version, held)
        }
        None => true,
    }
}

pub fn put_record(work: &mut [u8], p: Progress, name: Name, event: &[u8]) -> Progress
    requires has_state { HasState work.old }
    requires named { (Named name.bytes) × (IsEvent event.now) }
    ensures { (e : ProviderEvent) → event_f.Ok e → event.now ≡ event_f.enc e → Changes (put_record (name_of name.bytes) e) work.old p result work.new }
{
    let version = versions::version_at(event, 0);
    if replaces(work, name, version) {
        let within = records::put_record(work, name, event);
        return machine::tried(p, within);
    }
    p
}

// The same, of an event that stands, zero padded, in the work buffer itself.
pub fn put_record_at(work: &mut [u8], p: Progress, name: Name, at: usize) -> Progress
    requires has_state { HasState work.old }
    requires named { (Named name.bytes) × (at + 882 ≤ length work.old) × (HasEvent work.old at) }
    ensures { (e : ProviderEvent) → event_f.Ok e → take 882 (drop at work.old) ≡ field 882 event_f e → Changes (put_record (name_of name.bytes) e) work.old p result work.new }
{
    let version = versions::version_at(work, at);
    if replaces(work, name, version) {
        let within = records::put_record_at(work, name, at);
        return machine::tried(p, within);
    }
    p
}
