// The requests in flight: what each is for, dropping those of a pass, and the names of the Refreshes.
#![tactic(auto)]

ghost use Rattle.std.specs.Prelude.{◌≡◌, not, ◌+◌, ◌≤◌, length, take, drop, get_or, option_map, IfSome};
ghost use Rattle.model.specs.Maps.{by_number, any, filter, get, map, values};
ghost use Rattle.model.specs.Sync.{is_pass_read, is_of_pass, asks_about};
ghost use Rattle.state.specs.Layout.{name_slot};
ghost use Rattle.state.specs.Setters.{with_in_flight};
ghost use Rattle.state.specs.Contract.{HasState, Reads, Edits};
ghost use Rattle.state.specs.Values.{name_of, Named, NamedIn, purpose_in};
ghost use Rattle.flights.specs.Asked.{purpose_from, lost};

use names::{Name, NameList};
use state::{IN_FLIGHT, Purpose};

// The purpose whose bytes stand at `at`.
fn purpose_at(work: &[u8], at: usize) -> Purpose
    requires { at + 34 ≤ length work.now }
    ensures { result ≡ purpose_from (get_or work.now at 0) (take 33 (drop (at + 1) work.now)) }
{
    let name = names::name_at(work, at + 1);
    match work[at] {
        0 => Purpose::List,
        1 => Purpose::PassRead(name),
        2 => Purpose::EditRead(name),
        3 => Purpose::EditWrite(name),
        _ => Purpose::Refresh(name),
    }
}

// What the request of a number is for, if it is in flight.
pub fn purpose(work: &[u8], n: u64) -> Option<Purpose>
    requires { HasState work.now }
    ensures reads { Reads (λ s. get by_number n s.in_flight) work.now (option_map purpose_in result) }
    ensures named { IfSome result NamedIn }
{
    match IN_FLIGHT.find(work, &state::key_of(n)) {
        Ok(at) => Some(purpose_at(work, IN_FLIGHT.at + at + 9)),
        Err(_) => None,
    }
}

// Drops the reads of a pass.
pub fn drop_pass_reads(work: &mut [u8])
    requires { HasState work.old }
    ensures { Edits (λ s. with_in_flight (filter (λ e. not (is_pass_read e.1)) s.in_flight) s) work.old work.new }
{
    IN_FLIGHT.sift(work, 9, &[1], false);
}

// Drops the listings and reads of a pass: the two first kinds.
pub fn drop_of_pass(work: &mut [u8])
    requires { HasState work.old }
    ensures { Edits (λ s. with_in_flight (filter (λ e. not (is_of_pass e.1)) s.in_flight) s) work.old work.new }
{
    IN_FLIGHT.sift(work, 9, &[1], true);
}

// Whether a request about a name is in flight. Four times by kind and name, since a listing's bytes are those of an empty name.
pub fn asks_about(work: &[u8], name: Name) -> bool
    requires has_state { HasState work.now }
    requires named { Named name.bytes }
    ensures { Reads (λ s. any (asks_about (name_of name.bytes)) (values s.in_flight)) work.now result }
{
    state::asks(work, Purpose::PassRead(name))
        || state::asks(work, Purpose::EditRead(name))
        || state::asks(work, Purpose::EditWrite(name))
        || state::asks(work, Purpose::Refresh(name))
}

// The names of the Refreshes in flight, in the order of their numbers.
pub fn refreshes(work: &[u8]) -> NameList<24>
    requires { HasState work.now }
    ensures { Reads (λ s. map name_slot (lost s)) work.now result }
{
    let count = state::in_flight_count(work);
    let mut names = NameList::new();
    for i in 0..count {
        let at = IN_FLIGHT.at + 1 + i * IN_FLIGHT.stride + 9;
        if let Purpose::Refresh(name) = purpose_at(work, at) {
            names.push(name);
        }
    }
    names
}
