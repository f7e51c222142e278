// What the reading functions answer.
use crate::decimal::number_of;
use access::Part;
use comparison::part;
use printing::{end, number, say, show};

// The refusal of the bytes, or 0, as every reading function answers it.
fn refusal(state: &[u8]) -> u8 {
    let r = access::cursor(state);
    r.code
}

// Prints the refusal where there is one, and answers whether there is.
fn refused(code: u8) -> bool {
    if code == 0 {
        return false;
    }
    number(b" refused", code as usize);
    true
}

// Prints the refusal, or that nothing is at the place, and answers whether it is one of these.
fn missing(code: u8, found: bool) -> bool {
    if refused(code) {
        return true;
    }
    if !found {
        show(b" none");
    }
    !found
}

fn show_part(state: &[u8], p: Part) {
    show(b" ");
    show(part(part(state, p.at, state.len()), 0, p.length));
}

fn waiting(state: &[u8], resource: &[u8]) {
    let r = access::waiting_count(state, resource);
    if !refused(r.code) {
        number(b"", r.count);
    }
}

fn in_flight(state: &[u8], place: usize) {
    let r = access::in_flight_at(state, place);
    if !missing(r.code, r.found) {
        number(b"", r.number as usize);
    }
}

fn record(state: &[u8], place: usize) {
    let r = access::record_at(state, place);
    if missing(r.code, r.found) {
        return;
    }
    show_part(state, r.name);
    let event = r.event;
    number(b" at", event.at);
    number(b" of", event.length);
}

fn cursor(state: &[u8]) {
    let r = access::cursor(state);
    if !refused(r.code) {
        say(b"", r.found);
        show_part(state, r.text);
    }
}

// Prints what is asked of the bytes, by the line's mark and what stands behind it.
pub fn answer(state: &[u8], frame: &mut [u8; lines::MAX_FRAME], mark: u8, line: &[u8]) {
    match mark {
        b'!' => number(b"", refusal(state) as usize),
        b'?' => say(b"", refusal(state) == 0),
        b'w' => {
            let n = lines::frame_of(line, frame);
            waiting(state, part(frame, 0, n));
        }
        b'i' => in_flight(state, number_of(line)),
        b'r' => record(state, number_of(line)),
        b'c' => cursor(state),
        _ => end(),
    }
}
