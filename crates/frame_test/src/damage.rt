// Damaged copies of a good frame.
ghost use Rattle.std.specs.Prelude.{◌≤◌};

use frame::Parsed;
use pens::Pen;
use printing::{end, number, say};

// Whether the first `end` bytes are a frame.
fn starts(out: &[u8], end: usize) -> bool {
    match out.get(..end) {
        Some(frame) => matches!(frame::parse(frame), Parsed::Frame(_)),
        None => false,
    }
}

// How many proper prefixes of the first `end` bytes are frames.
fn prefixes(out: &[u8], end: usize) -> usize {
    (0..end).filter(|i| starts(out, *i)).count()
}

// Whether the first `end` bytes are a frame with b at a place. It is left there.
fn accepted(out: &mut [u8], end: usize, at: usize, b: u8) -> bool {
    Pen { at, ok: true }.byte(out, b).ok && starts(out, end)
}

// At how many other bytes at a place the first `end` bytes are a frame.
fn values_at(out: &mut [u8], end: usize, at: usize) -> usize
    ensures { result ≤ 256 }
{
    let old = out.get(at).copied().unwrap_or(0);
    let found = (0..=u8::MAX)
        .filter(|b| *b != old && accepted(out, end, at, *b))
        .count();
    Pen { at, ok: true }.byte(out, old);
    found
}

// How many changes of one byte leave a frame.
fn changes(out: &mut [u8], end: usize) -> usize {
    (0..end).fold(0, |found: usize, at| {
        found.saturating_add(values_at(out, end, at))
    })
}

// How many bytes appended to the first `end` leave a frame.
fn longer(out: &mut [u8], end: usize) -> usize {
    let behind = end.saturating_add(1);
    (0..=u8::MAX)
        .filter(|b| accepted(out, behind, end, *b))
        .count()
}

pub fn copies_of(label: &[u8], out: &mut [u8], pen: Pen) {
    let end_at = pen.at;
    say(label, pen.ok && starts(out, end_at));
    number(b", bytes", end_at);
    number(b"; accepted: prefixes", prefixes(out, end_at));
    number(b", with a byte more", longer(out, end_at));
    number(b", with a byte changed", changes(out, end_at));
    end();
}
