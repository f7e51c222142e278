// The rules across tables.
ghost use Rattle.std.specs.Prelude.{◌≡◌, ◌<◌, length, count_by};
ghost use Rattle.std.specs.List.{list_all};
ghost use Rattle.tables.specs.Table.{Holds, slots_of};
ghost use Rattle.wellformed.specs.Tests.{is_below, is_edit, is_queued, is_for, is_asked, agree};

use crate::table::ENTRY;

const FLIGHT: usize = 43;

// Where a request's number stands in a slot, and its purpose: the kind, and a name.
const NUMBER: usize = 1;

const KIND: usize = 9;

const RESOURCE: usize = 10;

#[tactic(auto, unfolding(crate::specs::Tests::is_below))]
fn is_below(flight: &[u8], n: u64) -> bool
    requires { length flight.now ≡ 43 }
    ensures { result ≡ is_below n flight.now }
{
    numbers::get_be(flight, NUMBER) < n
}

// Whether every number in flight is below n.
fn numbers_below(flights: &[u8], n: u64) -> bool
    requires { Holds 43 flights.now }
    ensures { result ≡ list_all (is_below n) (slots_of 43 flights.now) }
{
    strides::slots(flights, FLIGHT).all(|flight| is_below(flight, n))
}

// Whether the request in flight reads or writes for an edit.
#[tactic(auto, unfolding(crate::specs::Tests::is_edit))]
fn is_edit(flight: &[u8]) -> bool
    requires { length flight.now ≡ 43 }
    ensures { result ≡ is_edit flight.now }
{
    matches!(flight[KIND], 2 | 3)
}

// Whether entries of its resource wait, if it is for an edit.
#[tactic(auto, unfolding(crate::specs::Tests::is_queued))]
fn is_queued(flight: &[u8], entries: &[u8]) -> bool
    requires long { length flight.now ≡ 43 }
    requires holds { Holds 5940 entries.now }
    ensures { result ≡ is_queued (slots_of 5940 entries.now) flight.now }
{
    !is_edit(flight) || tables::find(entries, ENTRY, &flight[RESOURCE..]).is_ok()
}

fn all_queued(flights: &[u8], entries: &[u8]) -> bool
    requires holds { Holds 43 flights.now }
    requires holds_2 { Holds 5940 entries.now }
    ensures { result ≡ list_all (is_queued (slots_of 5940 entries.now)) (slots_of 43 flights.now) }
{
    strides::slots(flights, FLIGHT).all(|flight| is_queued(flight, entries))
}

// Whether the request in flight is for an edit of the resource whose key starts `key`.
#[tactic(auto, unfolding(crate::specs::Tests::is_for))]
fn is_for(flight: &[u8], key: &[u8]) -> bool
    requires long { length flight.now ≡ 43 }
    requires key_nonzero { 0 < length key.now }
    ensures { result ≡ is_for key.now flight.now }
{
    is_edit(flight) && tables::key_order(&flight[RESOURCE..], key).is_eq()
}

// How many are.
fn requests(flights: &[u8], key: &[u8]) -> usize
    requires holds { Holds 43 flights.now }
    requires key_nonzero { 0 < length key.now }
    ensures { result ≡ count_by (is_for key.now) (slots_of 43 flights.now) }
{
    strides::slots(flights, FLIGHT)
        .filter(|flight| is_for(flight, key))
        .count()
}

// Whether one request in flight is for an edit of the entry's resource.
#[tactic(auto, unfolding(crate::specs::Tests::is_asked))]
fn is_asked(flights: &[u8], entry: &[u8]) -> bool
    requires holds { Holds 43 flights.now }
    requires long { length entry.now ≡ 5940 }
    ensures { result ≡ is_asked (slots_of 43 flights.now) entry.now }
{
    requests(flights, entry) == 1
}

fn all_asked(flights: &[u8], entries: &[u8]) -> bool
    requires holds { Holds 43 flights.now }
    requires holds_2 { Holds 5940 entries.now }
    ensures { result ≡ list_all (is_asked (slots_of 43 flights.now)) (slots_of 5940 entries.now) }
{
    strides::slots(entries, ENTRY).all(|entry| is_asked(flights, entry))
}

#[tactic(auto, unfolding(crate::specs::Tests::agree))]
pub fn agree(flights: &[u8], entries: &[u8], n: u64) -> bool
    requires holds { Holds 43 flights.now }
    requires holds_2 { Holds 5940 entries.now }
    ensures { result ≡ agree n (slots_of 43 flights.now) (slots_of 5940 entries.now) }
{
    numbers_below(flights, n) && all_asked(flights, entries) && all_queued(flights, entries)
}
