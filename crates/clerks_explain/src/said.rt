// What is said of a frame: the booking and the parties, then a refusal, or each order of the writes.
ghost use Rattle.std.specs.Prelude.{T};
ghost use Rattle.phrases.specs.Shown.{plain, Ready};

use crate::naming::say_units;
use clerks_bytes::{ADDRESS_TWICE, LINE, NO_FRAME, WORK};
use comparison::part;
use pens::Pen;

pub fn explain(line: &[u8]) {
    let mut frame = [0u8; lines::MAX_FRAME];
    let mut one = [0u8; LINE];
    let mut two = [0u8; LINE];
    let mut work = [0u8; WORK];
    let n = lines::frame_of(line, &mut frame);
    let bytes = part(&frame, 0, n);
    if n == 0 {
        no_frame(b"the line is not bytes in lowercase hexadecimal digits");
        return;
    }
    let told = clerks_bytes::two_clerks(bytes, &mut one, &mut two, &mut work);
    if told.code == NO_FRAME {
        no_clerks(bytes);
        return;
    }
    say_parties(bytes);
    if told.code != 0 {
        refused(told.code);
        return;
    }
    say_order(b"party 1 writes first", bytes, part(&one, 0, told.one));
    say_order(b"party 2 writes first", bytes, part(&two, 0, told.two));
}

// The first words of a line.
pub fn head(text: &mut [u8], what: &[u8], then: &[u8]) -> Pen
    requires plain_what { T (plain what.now) }
    requires plain_then { T (plain then.now) }
    ensures { Ready text.new result }
{
    let start = Pen { at: 0, ok: true };
    start.part(text, what).part(text, then)
}

pub fn no_frame(why: &[u8])
    requires { T (plain why.now) }
{
    let mut text = [0u8; 4096];
    let end = head(&mut text, b"refused with 3: ", why);
    phrases::print_line(&mut text, end);
}

// How far the bytes can be read, and what is wrong then.
fn no_clerks(frame: &[u8]) {
    let mut text = [0u8; 65536];
    let start = head(
        &mut text,
        b"refused with 3: ",
        b"not exactly one frame of two clerks: ",
    );
    let end = words::clerks(start, &mut text, frame);
    phrases::print_line(&mut text, end);
}

fn refused(code: u8) {
    let mut text = [0u8; 4096];
    let end = if code == ADDRESS_TWICE {
        head(
            &mut text,
            b"refused with 10: ",
            b"one attendee list has the same address twice, capitals or not",
        )
    } else {
        head(
            &mut text,
            b"refused with 6: ",
            b"a merged event has over 8 attendees",
        )
    };
    phrases::print_line(&mut text, end);
}

fn say_parties(frame: &[u8]) {
    let clerks = clerks_bytes::clerks_in(frame);
    say_event(b"booking", b": ", frame);
    say_party(b"party 1: ", clerks_bytes::from(frame, clerks.one.role));
    say_party(b"party 2: ", clerks_bytes::from(frame, clerks.two.role));
}

fn say_party(who: &[u8], bytes: &[u8])
    requires { T (plain who.now) }
{
    let mut text = [0u8; 65536];
    let start = head(&mut text, who, b"");
    let end = words::party(start, &mut text, bytes);
    phrases::print_line(&mut text, end);
}

fn say_event(what: &[u8], then: &[u8], bytes: &[u8])
    requires plain_what { T (plain what.now) }
    requires plain_then { T (plain then.now) }
{
    let mut text = [0u8; 65536];
    let start = head(&mut text, what, then);
    let end = words::event(start, &mut text, bytes);
    phrases::print_line(&mut text, end);
}

// An order of the writes: its line is the event after both, and a name for each unit.
fn say_order(order: &[u8], frame: &[u8], line: &[u8])
    requires { T (plain order.now) }
{
    say_event(order, b", the booking ends as ", line);
    let end = frame::event_in(line);
    let at = end.at;
    say_units(order, frame, part(line, at, line.len()));
}
