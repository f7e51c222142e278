// Each region by itself, where it stands in the state.
ghost use Rattle.std.specs.Prelude.{◌≡◌, true, length};
ghost use Rattle.state.specs.Contract.{state_length};
ghost use Rattle.regions.specs.Inside.{RecordsIn, CursorIn, FullIn, FromIn, StagedIn, SeenIn, ObservedIn, DoneIn, FlightsIn, NextIn, LearnedIn, LearnedAllIn, NowIn, AliasesIn};

use crate::field::{ends, field_of};
use crate::slot::{is_alias, is_flight, is_learned, is_name, is_record, is_staged};
use crate::table::table_in;
use crate::walks::{skip_flag, skip_time};
use lent::Region;

// The bytes of a name, and of a request number's key.
const NAME: usize = 33;

const NUMBER: usize = 9;

const RECORDS: Region = Region {
    at: 0,
    length: 9151,
    stride: 915,
    limit: 10,
};

pub fn records_in(state: &[u8]) -> bool
    requires { length state.now ≡ state_length }
    ensures { (result ≡ true → RecordsIn state.now) × (RecordsIn state.now → result ≡ true) }
{
    table_in(state, RECORDS, NAME, is_record)
}

const CURSOR: usize = 9151;

pub fn cursor_in(state: &[u8]) -> bool
    requires { length state.now ≡ state_length }
    ensures { (result ≡ true → CursorIn state.now) × (CursorIn state.now → result ≡ true) }
{
    ends(field_of(state, CURSOR, 34).skip_option_short_text())
}

const FULL: usize = 9186;

pub fn full_in(state: &[u8]) -> bool
    requires { length state.now ≡ state_length }
    ensures { (result ≡ true → FullIn state.now) × (FullIn state.now → result ≡ true) }
{
    ends(skip_flag(field_of(state, FULL, 1)))
}

const FROM: usize = 9187;

pub fn from_in(state: &[u8]) -> bool
    requires { length state.now ≡ state_length }
    ensures { (result ≡ true → FromIn state.now) × (FromIn state.now → result ≡ true) }
{
    ends(field_of(state, FROM, 34).skip_list_from())
}

const STAGED: Region = Region {
    at: 9221,
    length: 9161,
    stride: 916,
    limit: 10,
};

pub fn staged_in(state: &[u8]) -> bool
    requires { length state.now ≡ state_length }
    ensures { (result ≡ true → StagedIn state.now) × (StagedIn state.now → result ≡ true) }
{
    table_in(state, STAGED, NAME, is_staged)
}

const SEEN: Region = Region {
    at: 18382,
    length: 1057,
    stride: 33,
    limit: 32,
};

pub fn seen_in(state: &[u8]) -> bool
    requires { length state.now ≡ state_length }
    ensures { (result ≡ true → SeenIn state.now) × (SeenIn state.now → result ≡ true) }
{
    table_in(state, SEEN, NAME, is_name)
}

const OBSERVED: Region = Region {
    at: 19439,
    length: 529,
    stride: 33,
    limit: 16,
};

pub fn observed_in(state: &[u8]) -> bool
    requires { length state.now ≡ state_length }
    ensures { (result ≡ true → ObservedIn state.now) × (ObservedIn state.now → result ≡ true) }
{
    table_in(state, OBSERVED, NAME, is_name)
}

const DONE: usize = 19968;

pub fn done_in(state: &[u8]) -> bool
    requires { length state.now ≡ state_length }
    ensures { (result ≡ true → DoneIn state.now) × (DoneIn state.now → result ≡ true) }
{
    ends(field_of(state, DONE, 34).skip_option_short_text())
}

const FLIGHTS: Region = Region {
    at: 55643,
    length: 1033,
    stride: 43,
    limit: 24,
};

pub fn flights_in(state: &[u8]) -> bool
    requires { length state.now ≡ state_length }
    ensures { (result ≡ true → FlightsIn state.now) × (FlightsIn state.now → result ≡ true) }
{
    table_in(state, FLIGHTS, NUMBER, is_flight)
}

const NEXT_REQUEST: usize = 56676;

pub fn next_request_in(state: &[u8]) -> bool
    requires { length state.now ≡ state_length }
    ensures { (result ≡ true → NextIn state.now) × (NextIn state.now → result ≡ true) }
{
    ends(field_of(state, NEXT_REQUEST, 8).skip_number(8))
}

const LEARNED: Region = Region {
    at: 56684,
    length: 1313,
    stride: 41,
    limit: 32,
};

pub fn learned_in(state: &[u8]) -> bool
    requires { length state.now ≡ state_length }
    ensures { (result ≡ true → LearnedIn state.now) × (LearnedIn state.now → result ≡ true) }
{
    table_in(state, LEARNED, NAME, is_learned)
}

const LEARNED_ALL: usize = 57997;

pub fn learned_all_in(state: &[u8]) -> bool
    requires { length state.now ≡ state_length }
    ensures { (result ≡ true → LearnedAllIn state.now) × (LearnedAllIn state.now → result ≡ true) }
{
    ends(field_of(state, LEARNED_ALL, 8).skip_number(8))
}

const NOW: usize = 58005;

pub fn now_in(state: &[u8]) -> bool
    requires { length state.now ≡ state_length }
    ensures { (result ≡ true → NowIn state.now) × (NowIn state.now → result ≡ true) }
{
    ends(skip_time(field_of(state, NOW, 9)))
}

const ALIASES: Region = Region {
    at: 58014,
    length: 529,
    stride: 66,
    limit: 8,
};

pub fn aliases_in(state: &[u8]) -> bool
    requires { length state.now ≡ state_length }
    ensures { (result ≡ true → AliasesIn state.now) × (AliasesIn state.now → result ≡ true) }
{
    table_in(state, ALIASES, NAME, is_alias)
}
