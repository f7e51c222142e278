// The version of an event, by value: what is compared when one event may take another's place.
#![tactic(auto)]

ghost use Rattle.std.specs.Prelude.{◌≡◌, ◌+◌, ◌-◌, ◌≤◌, ◌<◌, length, take, drop, get_or, Some};
ghost use Rattle.format.specs.Format.{option};
ghost use Rattle.numbers.specs.Big.{from_be};
ghost use Rattle.model.specs.Event.{ProviderEvent};
ghost use Rattle.model.specs.Formats.{same, short_text, event_f};
ghost use Rattle.model.specs.Sync.{replaces};
ghost use Rattle.state.specs.Layout.{padded};
ghost use Rattle.versions.specs.Versions.{Stands, HasEvent, VersionOf, RevisionAt};

// The revision in the frame's form, zero padded, and the mapper version.
#[derive(Clone, Copy)]
pub struct Version {
    pub revision: [u8; 34],
    pub mapper: u64,
}

// The place after the text at `at`.
fn after_text(buf: &[u8], at: usize) -> usize
    requires { at < length buf.now }
    ensures { result ≡ at + 1 + get_or buf.now at 0 }
{
    at + 1 + usize::from(buf[at])
}

// The place after the text at `at` that may be missing.
fn after_option(buf: &[u8], at: usize) -> usize
    requires { at + 1 < length buf.now }
    ensures { (get_or buf.now at 0 ≡ 0 → result ≡ at + 1) × ((get_or buf.now at 0 ≡ 0 → ⊥) → result ≡ at + 1 + 1 + get_or buf.now (at + 1) 0) }
{
    if buf[at] == 0 {
        at + 1
    } else {
        after_text(buf, at + 1)
    }
}

// A part of at most 34 bytes, zero padded.
#[tactic(auto, using(crate::proofs::Laws::padded_is))]
fn padded_part(buf: &[u8], from: usize, to: usize) -> [u8; 34]
    requires { (from ≤ to) × (to ≤ length buf.now) × (to ≤ from + 34) }
    ensures { result ≡ padded 34 (take (to - from) (drop from buf.now)) }
{
    let mut bytes = [0; 34];
    bytes[..to - from].copy_from_slice(&buf[from..to]);
    bytes
}

#[tactic(auto, using(numbers::proofs::Laws::from_is_4))]
fn read_four(buf: &[u8], at: usize) -> u64
    requires { at + 4 ≤ length buf.now }
    ensures { result ≡ from_be 0 (take 4 (drop at buf.now)) }
{
    let mut bytes = [0; 4];
    bytes.copy_from_slice(&buf[at..at + 4]);
    u64::from(u32::from_be_bytes(bytes))
}

// Where the revision of the event at `at` stands: behind the provider's byte, a text and two that may be missing.
fn revision_place(buf: &[u8], at: usize) -> usize
    requires { HasEvent buf.now at }
    ensures { (e : ProviderEvent) → Stands e buf.now at → RevisionAt e buf.now result }
{
    let ical_uid = after_text(buf, at + 1);
    let series_id = after_option(buf, ical_uid);
    after_option(buf, series_id)
}

// The version of the event at `at`.
pub fn version_at(buf: &[u8], at: usize) -> Version
    requires { HasEvent buf.now at }
    ensures version_of { (e : ProviderEvent) → Stands e buf.now at → VersionOf e result.revision result.mapper }
    ensures revision_len { length result.revision ≡ 34 }
{
    let from = revision_place(buf, at);
    let to = after_option(buf, from);
    let revision = padded_part(buf, from, to);
    let mapper = read_four(buf, to);
    Version { revision, mapper }
}

// Whether a record's event gives way to a new one.
pub fn takes_place(new: Version, held: Version) -> bool
    ensures { (e h : ProviderEvent) → event_f.Ok e → event_f.Ok h → VersionOf e new.revision new.mapper → VersionOf h held.revision held.mapper → result ≡ replaces e h }
{
    held.mapper <= new.mapper && (new.revision != held.revision || held.mapper < new.mapper)
}

// Whether an event has this revision.
#[tactic(auto, using(crate::proofs::Laws::text_short))]
pub fn has_revision(held: Version, revision: &[u8]) -> bool
    requires { short_text.Ok revision.now }
    ensures { (h : ProviderEvent) → event_f.Ok h → VersionOf h held.revision held.mapper → result ≡ same (option short_text) h.revision (Some revision.now) }
{
    let mut bytes = [0; 34];
    bytes[0] = 1;
    bytes[1] = revision.len() as u8;
    bytes[2..2 + revision.len()].copy_from_slice(revision);
    held.revision == bytes
}
