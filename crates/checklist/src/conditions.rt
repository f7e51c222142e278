// The conditions: what a line says of the effects since the mark and of the state.
use crate::counting::{count, tells, writes};
use crate::kinds::Kind;
use crate::walk::State;
use crate::{print, reading, split};
use comparison::part;

// Whether the number is n, in decimal digits.
pub fn is(n: u64, number: &[u8]) -> bool {
    let mut digits = [0u8; 20];
    let k = io::decimal(n, &mut digits);
    &digits[..k] == number
}

// Bytes that are no effect are never sent, so that their count would say nothing.
fn sent(effects: &[u8], number: &[u8], digits: &[u8]) -> bool {
    let mut bytes = [0u8; lines::MAX_FRAME];
    let n = lines::frame_of(digits, &mut bytes);
    let wanted = part(&bytes, 0, n);
    if n == 0 || effects::effect_end(wanted, 0) != n {
        print::line(b"  no effect: ", digits);
        return false;
    }
    is(count(effects, |effect| effect == wanted), number)
}

pub fn met(state: &State, effects: &[u8], kind: Option<Kind>, rest: &[u8]) -> bool {
    let (number, what) = split::cut(rest);
    match kind {
        Some(Kind::Told) => is(count(effects, |effect| tells(effect, what)), number),
        Some(Kind::Sent) => sent(effects, number, what),
        Some(Kind::Written) => is(count(effects, writes), number),
        Some(Kind::Waits) => reading::waiting(state, what).is_some_and(|n| is(n, number)),
        Some(Kind::InFlight) => reading::in_flight(state).is_some_and(|n| is(n, number)),
        Some(Kind::Record) => reading::only_record_is(state, rest),
        Some(Kind::Cursor) => reading::cursor_is(state, rest),
        Some(Kind::NoCursor) => reading::no_cursor(state),
        _ => {
            print::show(b"  no such kind of line\n");
            false
        }
    }
}
