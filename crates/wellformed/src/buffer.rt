// The whole buffer.
ghost use Rattle.std.specs.Prelude.{◌≡◌, true, length};
ghost use Rattle.model.specs.State.{SyncState};
ghost use Rattle.state.specs.Contract.{state_length, Keeps, HasState};
ghost use Rattle.regions.specs.Inside.{EditsIn};
ghost use Rattle.wellformed.specs.Across.{Across};
ghost use Rattle.wellformed.specs.IsState.{IsState};

use crate::rules::agree;
use crate::table::{ENTRIES, entries_in};

// The bytes of a state.
pub const STATE: usize = 58543;

const WAITING: usize = 20002;

const IN_FLIGHT: usize = 55643;

const FLIGHTS: usize = 1033;

fn waiting_in(state: &[u8]) -> bool
    requires { length state.now ≡ state_length }
    ensures { (result ≡ true → EditsIn state.now) × (EditsIn state.now → result ≡ true) }
{
    entries_in(&state[WAITING..WAITING + ENTRIES])
}

// Whether the state keeps the rules across its tables.
fn across(state: &[u8]) -> bool
    requires { HasState state.now }
    ensures { (s : SyncState) → Keeps s state.now → (result ≡ true → Across s) × (Across s → result ≡ true) }
{
    let flights = &state[IN_FLIGHT..IN_FLIGHT + FLIGHTS];
    let entries = &state[WAITING..WAITING + ENTRIES];
    agree(flights, entries, state::next_request(state))
}

// Whether the buffer holds a well-formed state.
pub fn is_state(state: &[u8]) -> bool
    ensures { (result ≡ true → IsState state.now) × (IsState state.now → result ≡ true) }
{
    state.len() == STATE && regions::others_in(state) && waiting_in(state) && across(state)
}
