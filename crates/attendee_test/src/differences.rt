// Where an event differs from theirs, byte by byte, and whether those bytes are the writer's own to change.
use comparison::same_folded;
use frame::{Cursor, MAX_ATTENDEES, MAX_TEXT, U32};

// How many cases each of these has.
const ROLES: u8 = 4;

const REPLIES: u8 = 5;

const KINDS: u8 = 5;

const STATUSES: u8 = 3;

const TRANSPARENCIES: u8 = 2;

const VISIBILITIES: u8 = 4;

// What was found in the bytes so far: how many of the writer's own differ, and the first place, if any, where others do.
#[derive(Clone, Copy)]
pub struct Found {
    pub own: usize,
    pub other: Option<usize>,
}

fn with_other(found: Found, at: usize) -> Found {
    Found {
        other: found.other.or(Some(at)),
        ..found
    }
}

// The byte at a place. One that the event lacks is not the writer's to take away.
fn with_byte(found: Found, theirs: &[u8], event: &[u8], at: usize, own: bool) -> Found {
    match (theirs.get(at), event.get(at)) {
        (Some(a), Some(b)) if a == b => found,
        (Some(_), Some(_)) if own => Found {
            own: found.own.saturating_add(1),
            ..found
        },
        _ => with_other(found, at),
    }
}

// A walk through theirs: its place, and what was found up to there.
#[derive(Clone, Copy)]
struct Walk {
    place: Cursor,
    found: Found,
}

impl Walk {
    // On to a later place. The bytes up to there are the writer's own, or not.
    fn to(self, next: Cursor, theirs: &[u8], event: &[u8], own: bool) -> Walk {
        let found = (self.place.at..next.at).fold(self.found, |found, at| {
            with_byte(found, theirs, event, at, own)
        });
        Walk { place: next, found }
    }
}

// Past an entry. The reply in the writer's own is the writer's to change.
fn entry(walk: Walk, theirs: &[u8], event: &[u8], me: &[u8]) -> Walk {
    let address = walk.place.text(theirs, MAX_TEXT);
    let own = same_folded(address.value.bytes(theirs), me);
    let reply = address
        .next
        .skip_option_short_text(theirs)
        .skip_below(theirs, ROLES);
    let kind = reply.skip_below(theirs, REPLIES);
    let end = kind.skip_below(theirs, KINDS);
    walk.to(reply, theirs, event, false)
        .to(kind, theirs, event, own)
        .to(end, theirs, event, false)
}

fn entries(walk: Walk, theirs: &[u8], event: &[u8], me: &[u8]) -> Walk {
    let count = walk.place.count(theirs, MAX_ATTENDEES);
    let start = walk.to(count.next, theirs, event, false);
    (0..count.value).fold(start, |now, _| entry(now, theirs, event, me))
}

// The place of the attendees in an event.
fn attendees_place(event: &[u8]) -> Cursor {
    let version = Cursor { at: 0, ok: true }
        .skip_ids(event)
        .skip_option_short_text(event)
        .number(event, U32);
    version
        .next
        .skip_option_short_text(event)
        .skip_tag(event)
        .skip_option_tag(event)
        .skip_option_organizer(event)
}

// What differs between theirs and an event. The writer is an attendee with this address.
pub fn differences(theirs: &[u8], event: &[u8], me: &[u8]) -> Found {
    let start = Walk {
        place: Cursor { at: 0, ok: true },
        found: Found {
            own: 0,
            other: None,
        },
    };
    let before = start.to(attendees_place(theirs), theirs, event, false);
    let people = entries(before, theirs, event, me);
    let reminders = people
        .place
        .skip_option_short_text(theirs)
        .skip_option_tag(theirs)
        .skip_below(theirs, STATUSES)
        .skip_below(theirs, TRANSPARENCIES)
        .skip_below(theirs, VISIBILITIES);
    let passthrough = reminders.skip_tag(theirs);
    let end = passthrough.skip_tag(theirs);
    let all = people
        .to(reminders, theirs, event, false)
        .to(passthrough, theirs, event, true)
        .to(end, theirs, event, false);
    if theirs.len() < event.len() {
        with_other(all.found, theirs.len())
    } else {
        all.found
    }
}
