// Parts of an entry and of a frame: their bytes, where they stand.
ghost use Rattle.std.specs.Prelude.{◌≡◌, ◌&&◌, ◌+◌, ◌≤◌, length, get_or, eqb};
ghost use Rattle.model.specs.Event.{ProviderEvent};
ghost use Rattle.model.specs.Formats.{tag, conflicts_f, refusals_f, fields_f, event_f, role_f};
ghost use Rattle.queues.specs.Parts.{StandsAt, PartOf, EndOf, part_of};
ghost use Rattle.queues.specs.Folding.{event_front};

use frame::{Cursor, U32};

// The bytes from one place to another, if both are in the buffer.
pub fn part(src: &[u8], from: usize, to: usize) -> &[u8]
    ensures { result.now ≡ part_of src.now from to }
{
    if to < from {
        return &src[..0];
    }
    if src.len() < to {
        return &src[..0];
    }
    &src[from..to]
}

// Whether an operation's bytes at `at` create an event whose provider assigns ids.
pub fn is_keyed(src: &[u8], at: usize) -> bool
    requires { at + 2 ≤ length src.now }
    ensures { result ≡ (eqb (get_or src.now at 0) 0 && eqb (get_or src.now (at + 1) 0) 1) }
{
    if src[at] == 0 {
        return src[at + 1] == 1;
    }
    false
}

// The conflicts at `at`.
pub fn conflicts_at(src: &[u8], at: usize) -> &[u8]
    ensures { PartOf conflicts_f src.now at result.now }
{
    let end = effects::skip_conflicts(Cursor { at, ok: true }, src).at;
    part(src, at, end)
}

// The refused fields at `at`.
pub fn refused_at(src: &[u8], at: usize) -> &[u8]
    ensures { PartOf refusals_f src.now at result.now }
{
    let end = effects::skip_refusals(Cursor { at, ok: true }, src).at;
    part(src, at, end)
}

// The event at `at`.
pub fn event_at(src: &[u8], at: usize) -> &[u8]
    ensures { PartOf event_f src.now at result.now }
{
    let end = Cursor { at, ok: true }.skip_event(src).at;
    part(src, at, end)
}

// The fields of an event at `at`.
pub fn fields_at(src: &[u8], at: usize) -> &[u8]
    ensures { PartOf fields_f src.now at result.now }
{
    let end = Cursor { at, ok: true }.skip_fields(src).at;
    part(src, at, end)
}

// The role at `at`.
pub fn role_at(src: &[u8], at: usize) -> &[u8]
    ensures { PartOf role_f src.now at result.now }
{
    let end = Cursor { at, ok: true }.role(src).next.at;
    part(src, at, end)
}

// The tag at `at`.
pub fn tag_at(src: &[u8], at: usize) -> &[u8]
    ensures { PartOf tag src.now at result.now }
{
    let end = Cursor { at, ok: true }.skip_tag(src).at;
    part(src, at, end)
}

// Where the fields at `at` end.
pub fn fields_end(src: &[u8], at: usize) -> usize
    ensures { EndOf fields_f src.now at result }
{
    Cursor { at, ok: true }.skip_fields(src).at
}

// Where the fields of the event at `at` stand.
pub fn fields_place(src: &[u8], at: usize) -> usize
    requires { at ≤ length src.now }
    ensures { (e : ProviderEvent) → StandsAt event_f e src.now at → result ≡ at + length (event_front e) }
{
    let ids = Cursor { at, ok: true }.skip_ids(src);
    let version = ids.skip_option_short_text(src).number(src, U32);
    version.next.at
}
