// What becomes of damaged frames: of a good one of each kind, how many proper prefixes, how many copies with a byte more and how many with a
// byte changed are still frames.
#![tactic(auto)]

mod damage;

use damage::copies_of;
use pens::Pen;

// Room for the longest of the frames, and a byte more.
const ROOM: usize = 128;

fn first() -> Pen {
    Pen { at: 0, ok: true }
}

fn plain(label: &[u8], frame: &[u8]) {
    let mut out = [0u8; ROOM];
    let pen = first().part(&mut out, frame);
    copies_of(label, &mut out, pen);
}

// An event with nothing left out, each enum at its last case: up to the recurrence, the organizer and an attendee, and the rest.
fn event(pen: Pen, out: &mut [u8]) -> Pen {
    let people = pen.part(
        out,
        b"\x03\x01a\x01\x01a\x01\x01a\x01\x01a\0\0\0\x03\x01\x01a\0\0\0\0\0\0\0\x01\x01\0\0\0\0\0\0\0\x02",
    );
    let rest = people.part(out, b"\x01\x01a\x01\x01a\x01\x01a\x01\x01a\x03\x04\x04");
    rest.part(
        out,
        b"\x01\x01a\x01\0\0\0\0\0\0\0\x03\x02\x01\x03\0\0\0\0\0\0\0\x04\0\0\0\0\0\0\0\x05",
    )
}

fn with_event(label: &[u8], before: &[u8], after: &[u8]) {
    let mut out = [0u8; ROOM];
    let start = first().part(&mut out, before);
    let rest = event(start, &mut out);
    let pen = rest.part(&mut out, after);
    copies_of(label, &mut out, pen);
}

fn inputs() {
    plain(b"sync", b"\0");
    with_event(
        b"edit",
        b"\x01\x01a\x01a\0",
        b"\x01\x01a\x01\0\0\0\0\0\0\0\x05",
    );
    plain(b"tick", b"\x03\0\0\0\0\0\0\0\x05");
    plain(b"resume", b"\x04");
}

fn replies() {
    plain(
        b"listed",
        b"\x02\0\0\0\0\0\0\0\0\0\x02\x01\x01a\x01\x01a\x01\x01c",
    );
    with_event(b"read", b"\x02\0\0\0\0\0\0\0\0\x01\x01", b"");
    plain(b"deleted", b"\x02\0\0\0\0\0\0\0\0\x03");
    plain(b"rejected", b"\x02\0\0\0\0\0\0\0\0\x04\x05\x02aa");
}

fn main() {
    inputs();
    replies();
}
