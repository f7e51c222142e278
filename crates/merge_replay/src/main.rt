// Merges on standard input, answered as the published Rust answers them: tools/merge_cases.py made the cases and the answers.
#![tactic(auto)]

use comparison::part;
use frame::{Cursor, MAX_ATTENDEES, MAX_EVENT};
use pens::Pen;
use printing::show;

// The bytes in hexadecimal.
fn show_digits(bytes: &[u8]) {
    for b in bytes {
        let mut digits = [0u8; 16];
        let n = io::hex(u64::from(*b), 2, &mut digits);
        show(&digits[..n]);
    }
}

// The conflicts and the refused list.
fn reports<'a>(base: &'a [u8], ours: &'a [u8], theirs: &'a [u8], role: &'a [u8]) {
    let mut conflicts = [0u8; 3072];
    let start = Pen { at: 0, ok: true };
    let pen = merge::conflicts(start, &mut conflicts, base, ours, theirs, role);
    show_digits(part(&conflicts, 0, pen.at));
    let mut refused = [0u8; 1024];
    let end = merge::refused(start, &mut refused, base, ours, theirs, role);
    show_digits(part(&refused, 0, end.at));
    show(b"\n");
}

fn answer<'a>(base: &'a [u8], ours: &'a [u8], theirs: &'a [u8], role: &'a [u8]) {
    if MAX_ATTENDEES < merge::merged_attendees(base, ours, theirs, role) {
        show(b"06\n");
        return;
    }
    let mut event = [0u8; MAX_EVENT];
    let start = Pen { at: 0, ok: true };
    let pen = merge::merged_event(start, &mut event, base, ours, theirs, role);
    let merged = part(&event, 0, pen.at);
    if merge::changed(merged, theirs) {
        show(b"01 ");
        show_digits(merged);
        show(b" ");
    } else {
        show(b"00 - ");
    }
    reports(base, ours, theirs, role);
}

// One case from its place on: base, ours, theirs, role. The place after it.
fn one(s: &[u8], place: Cursor) -> Cursor {
    let base = place.fields(s);
    let ours = base.next.fields(s);
    let theirs = ours.next.event(s);
    let from = theirs.next;
    let role = from.role(s);
    let end = role.next;
    if end.ok {
        answer(
            base.value.bytes(s),
            ours.value.bytes(s),
            theirs.value.bytes(s),
            part(s, from.at, end.at),
        );
    }
    end
}

// Every case takes a byte at least, so there are no more of them than bytes.
fn all(s: &[u8]) {
    let mut place = Cursor { at: 0, ok: true };
    for _ in 0..s.len() {
        if !place.ok || s.len() <= place.at {
            return;
        }
        place = one(s, place);
    }
}

fn main() {
    let mut space = io::large_buffer();
    let n = io::read_full(0, &mut space);
    all(&space[..n]);
}
