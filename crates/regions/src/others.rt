// All but the waiting entries.
ghost use Rattle.std.specs.Prelude.{◌≡◌, true, length};
ghost use Rattle.state.specs.Contract.{state_length};
ghost use Rattle.regions.specs.Inside.{OthersIn};

use crate::pass::pass_in;
use crate::single::{
    aliases_in, cursor_in, flights_in, learned_all_in, learned_in, next_request_in, now_in,
    records_in,
};

pub fn others_in(state: &[u8]) -> bool
    requires { length state.now ≡ state_length }
    ensures { (result ≡ true → OthersIn state.now) × (OthersIn state.now → result ≡ true) }
{
    records_in(state)
        && cursor_in(state)
        && pass_in(state)
        && flights_in(state)
        && next_request_in(state)
        && learned_in(state)
        && learned_all_in(state)
        && now_in(state)
        && aliases_in(state)
}
