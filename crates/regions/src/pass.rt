// The pass.
ghost use Rattle.std.specs.Prelude.{◌≡◌, true, length};
ghost use Rattle.state.specs.Contract.{state_length};
ghost use Rattle.regions.specs.Inside.{OpenIn, PassIn};

use crate::single::{done_in, from_in, full_in, observed_in, seen_in, staged_in};

const OPEN: usize = 9185;

// from the open byte to the waiting entries
const PASS_SIZE: usize = 10817;

// The regions of an open pass, behind its open byte.
fn open_in(state: &[u8]) -> bool
    requires { length state.now ≡ state_length }
    ensures { (result ≡ true → OpenIn state.now) × (OpenIn state.now → result ≡ true) }
{
    full_in(state)
        && from_in(state)
        && staged_in(state)
        && seen_in(state)
        && observed_in(state)
        && done_in(state)
}

pub fn pass_in(state: &[u8]) -> bool
    requires { length state.now ≡ state_length }
    ensures { (result ≡ true → PassIn state.now) × (PassIn state.now → result ≡ true) }
{
    match state[OPEN] {
        0 => spans::all_zero(&state[OPEN..OPEN + PASS_SIZE]),
        1 => open_in(state),
        _ => false,
    }
}
