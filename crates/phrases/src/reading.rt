// What stands at a place of a frame. A phrase has a name of one byte: a step's sign where what it asks for is there, and a letter for what is
// wrong, as the rules have it.
ghost use Rattle.std.specs.Prelude.{◌≤◌};

use frame::{
    Cursor, MAX_ATTENDEES, MAX_CHANGES, MAX_COUNT, MAX_ID, MAX_REASON, MAX_TEXT, U32, U64,
};

// The phrase that says it, if anything is to be said of it; the place, the number there, the limit of what may stand there, and the place after
// it, if it is what it should be.
#[derive(Clone, Copy)]
pub struct Found {
    pub phrase: Option<u8>,
    pub at: usize,
    pub value: u64,
    pub limit: usize,
    pub next: Option<usize>,
}

fn fault(phrase: u8, at: usize, value: usize, limit: usize) -> Found {
    Found {
        phrase: Some(phrase),
        at,
        value: value as u64,
        limit,
        next: None,
    }
}

fn right(phrase: Option<u8>, at: usize, value: u64, limit: usize, next: usize) -> Found {
    Found {
        phrase,
        at,
        value,
        limit,
        next: Some(next),
    }
}

// What a step's sign asks for. Signs that read nothing are right anywhere.
pub fn read(s: &[u8], at: usize, sign: u8) -> Found {
    match sign {
        b's' => text(s, at, sign, MAX_TEXT),
        b'i' => text(s, at, sign, MAX_ID),
        b'r' => text(s, at, sign, MAX_REASON),
        b'4' => number(s, at, sign, U32),
        b'8' => number(s, at, sign, U64),
        b'@' => time(s, at),
        b'=' | b'?' | b'n' => byte(s, at, MAX_COUNT),
        b'a' => byte(s, at, MAX_ATTENDEES),
        b'c' => byte(s, at, MAX_CHANGES),
        b'!' => left_over(s, at),
        b'&' => right(None, at, 0, 0, at),
        _ => right(Some(sign), at, 0, 0, at),
    }
}

fn text(s: &[u8], at: usize, sign: u8, limit: usize) -> Found {
    let place = Cursor { at, ok: true };
    let next = place.skip_text(s, limit);
    if next.ok {
        right(Some(sign), at, 0, limit, next.at)
    } else {
        no_text(s, at, limit)
    }
}

fn no_text(s: &[u8], at: usize, limit: usize) -> Found {
    let Some(n) = s.get(at) else {
        return cut(s, at);
    };
    let n = usize::from(*n);
    if limit < n {
        fault(b'L', at, n, limit)
    } else if s.len() - at <= n {
        cut(s, at)
    } else {
        fault(b'U', at, n, limit)
    }
}

// Where the frame ends before or inside a value.
fn cut(s: &[u8], at: usize) -> Found {
    let phrase = if s.len() <= at { b'B' } else { b'I' };
    fault(phrase, at, 0, 0)
}

// A number of w bytes.
fn number(s: &[u8], at: usize, sign: u8, w: usize) -> Found
    requires { (1 ≤ w) × (w ≤ 8) }
{
    let place = Cursor { at, ok: true };
    let read = place.number(s, w);
    let next = read.next;
    if next.ok {
        right(Some(sign), at, read.value, 0, next.at)
    } else {
        cut(s, at)
    }
}

fn time(s: &[u8], at: usize) -> Found {
    let place = Cursor { at, ok: true };
    let stamp = place.stamp(s);
    let next = stamp.next;
    let bits = number(s, at, b'@', U64);
    if next.ok {
        signed(bits)
    } else if bits.next.is_some() {
        fault(b'T', at, 0, 0)
    } else if s.len() <= at {
        fault(b'b', at, 0, 0)
    } else {
        fault(b't', at, 0, 0)
    }
}

// The number whose two's complement bits these are.
fn signed(bits: Found) -> Found {
    if bits.value <= i64::MAX as u64 {
        bits
    } else {
        Found {
            phrase: Some(b'-'),
            value: bits.value.wrapping_neg(),
            ..bits
        }
    }
}

// A byte at the front of a value: nothing is said of it unless it is wrong.
fn byte(s: &[u8], at: usize, limit: u8) -> Found {
    match s.get(at) {
        None => cut(s, at),
        Some(n) if limit < *n => fault(b'M', at, usize::from(*n), usize::from(limit)),
        Some(n) => right(None, at, u64::from(*n), usize::from(limit), at + 1),
    }
}

// Nothing may stand behind the last value.
fn left_over(s: &[u8], at: usize) -> Found {
    match s.len().saturating_sub(at) {
        0 => right(None, at, 0, 0, at),
        1 => fault(b'O', at, 1, 0),
        n => fault(b'N', at, n, 0),
    }
}
