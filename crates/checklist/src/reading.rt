// What can be read of the state. Of bytes that are no well-formed state nothing is said to be so.
use crate::walk::State;
use access::Part;
use comparison::part;

const MAX_IN_FLIGHT: usize = 24;

fn is_part(state: &State, p: Part, bytes: &[u8]) -> bool {
    let from = part(state, p.at, state.len());
    part(from, 0, p.length) == bytes
}

// Whether there is one record, and its event has these bytes. A record's event has some, so digits that hold none are not its.
pub fn only_record_is(state: &State, digits: &[u8]) -> bool {
    let mut event = [0u8; lines::MAX_FRAME];
    let n = lines::frame_of(digits, &mut event);
    let first = access::record_at(state, 0);
    let second = access::record_at(state, 1);
    first.found && !second.found && is_part(state, first.event, part(&event, 0, n))
}

pub fn cursor_is(state: &State, cursor: &[u8]) -> bool {
    let r = access::cursor(state);
    r.found && is_part(state, r.text, cursor)
}

pub fn no_cursor(state: &State) -> bool {
    let r = access::cursor(state);
    r.code == 0 && !r.found
}

// How many edits wait for the resource.
pub fn waiting(state: &State, resource: &[u8]) -> Option<u64> {
    let r = access::waiting_count(state, resource);
    if r.code == 0 {
        Some(r.count as u64)
    } else {
        None
    }
}

// How many requests are in flight.
pub fn in_flight(state: &State) -> Option<u64> {
    for n in 0..MAX_IN_FLIGHT {
        let r = access::in_flight_at(state, n);
        if r.code != 0 {
            return None;
        }
        if !r.found {
            return Some(n as u64);
        }
    }
    Some(MAX_IN_FLIGHT as u64)
}
