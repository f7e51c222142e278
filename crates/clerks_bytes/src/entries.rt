// The attendee lists: whether a folded address stands in one, or twice.
ghost use Rattle.std.specs.Prelude.{◌≡◌, not};
ghost use Rattle.attendees.specs.Entries.{entry_count};
ghost use Rattle.clerks_model.specs.Frame as model;
ghost use Rattle.clerks_model.specs.Answer.{all_apart};
ghost use Rattle.clerks_bytes.specs.Frames.{Holds};
ghost use Rattle.clerks_bytes.specs.Entries.{list_of, stands_in, twice_in};

use crate::frames::{Clerks, from};
use units::ATTENDEES;

// The list of an event's fields.
pub fn list_of(fields: &[u8]) -> &[u8]
    ensures { result.now ≡ list_of fields.now }
{
    units::unit_part(fields, ATTENDEES)
}

// Whether an entry has the folded address.
pub fn stands(list: &[u8], address: &[u8]) -> bool
    ensures { result ≡ stands_in list.now address.now }
{
    let found = attendees::find_entry(list, address, 0);
    0 < found.len()
}

// Whether two entries have the same folded address.
fn doubled(list: &[u8]) -> bool
    ensures { result ≡ twice_in list.now (entry_count list.now) }
{
    let count = attendees::entry_count(list);
    let mut i: u8 = 0;
    while i < count {
        if 0 < attendees::occurrence(list, i) {
            return true;
        }
        i += 1;
    }
    false
}

// Whether one of a frame's three lists has an address twice.
pub fn any_doubled(frame: &[u8], c: Clerks) -> bool
    ensures { (v : model.Clerks) → Holds frame.now c v → result ≡ not (all_apart v) }
{
    let p = c.one;
    let q = c.two;
    if doubled(list_of(merge::fields_of(frame))) {
        return true;
    }
    if doubled(list_of(from(frame, p.wanted))) {
        return true;
    }
    doubled(list_of(from(frame, q.wanted)))
}
