// What an attendee's merge changes. Standard input has cases back to back (tools/attendee_cases.py writes them, at most 65,536 bytes): base,
// ours, theirs, a role, and an event behind its length in two bytes. The event is what the published Rust merges of these, or that with something
// changed that must be told. A case's line says
//   own N          N bytes differ from theirs, each of them the writer's own to change
//   other PLACE    the byte at this place, and perhaps later ones, are not
//   no event       none is another's, but the bytes are no event
// and behind it whether the port's merge gives other bytes, or is refused with 6. The last line counts these.
#![tactic(auto)]

mod differences;
mod tally;

use comparison::part;
use differences::differences;
use frame::{Cursor, MAX_ATTENDEES, MAX_EVENT, Role};
use pens::Pen;
use tally::{Beside, Claim, Totals};

// The bytes of an event's length.
const LENGTH: usize = 2;

fn claimed(theirs: &[u8], event: &[u8], me: &[u8]) -> Claim {
    let found = differences(theirs, event, me);
    if let Some(at) = found.other {
        return Claim::Other(at);
    }
    let end = frame::event_in(event);
    if end.ok && end.at == event.len() {
        Claim::Own(found.own)
    } else {
        Claim::NoEvent
    }
}

fn port<'a>(
    base: &'a [u8],
    ours: &'a [u8],
    theirs: &'a [u8],
    role: &'a [u8],
    event: &'a [u8],
) -> Beside {
    if MAX_ATTENDEES < merge::merged_attendees(base, ours, theirs, role) {
        return Beside::Refused;
    }
    let mut merged = [0u8; MAX_EVENT];
    let start = Pen { at: 0, ok: true };
    let pen = merge::merged_event(start, &mut merged, base, ours, theirs, role);
    if pen.ok && part(&merged, 0, pen.at) == event {
        Beside::Same
    } else {
        Beside::Differs
    }
}

// The place so many bytes later; a stopped one where there are fewer.
fn past(s: &[u8], place: Cursor, length: usize) -> Cursor {
    match place.at.checked_add(length) {
        Some(at) if at <= s.len() => Cursor { at, ok: place.ok },
        _ => Cursor { at: 0, ok: false },
    }
}

// An owner is taken for an attendee without an address, so that what only an owner may change is told.
fn claim_of(s: &[u8], theirs: &[u8], event: &[u8], role: Role) -> Claim {
    match role {
        Role::Owner => claimed(theirs, event, &s[..0]),
        Role::Attendee(address) => claimed(theirs, event, address.bytes(s)),
    }
}

// One case, and the place after it.
fn one(s: &[u8], place: Cursor, totals: &mut Totals) -> Cursor {
    let base = place.fields(s);
    let ours = base.next.fields(s);
    let theirs = ours.next.event(s);
    let from = theirs.next;
    let writer = from.role(s);
    let by = writer.role;
    let to = writer.next;
    let length = to.number(s, LENGTH);
    let start = length.next;
    let next = past(s, start, length.value as usize);
    if !next.ok {
        return next;
    }
    let event = part(s, start.at, next.at);
    let said = claim_of(s, theirs.value.bytes(s), event, by);
    let beside = port(
        base.value.bytes(s),
        ours.value.bytes(s),
        theirs.value.bytes(s),
        part(s, from.at, to.at),
        event,
    );
    totals.tell(said, beside);
    next
}

// Every case takes a byte at least, so there are no more of them than bytes.
fn all(s: &[u8]) -> Totals {
    let mut totals = Totals::default();
    let mut place = Cursor { at: 0, ok: true };
    for _ in 0..s.len() {
        if !place.ok || s.len() <= place.at {
            return totals;
        }
        place = one(s, place, &mut totals);
    }
    totals
}

fn main() {
    let mut space = io::large_buffer();
    let n = io::read_full(0, &mut space);
    all(&space[..n]).last_line();
}
