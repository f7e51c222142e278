// Whether a struct is a sender's that uses lead to.
ghost use Rattle.std.specs.Prelude.{◌≡◌, true, ◌<◌};
ghost use Rattle.std.specs.List.{list_all};
ghost use Rattle.sender_turns.specs.Sender.{mills};
ghost use Rattle.sender_bytes.specs.Check.{is_zero, lane_ok, lanes_ok, place_ok, places_ok, calls_ok, is_idle, settled_ok, at_last};
ghost use Rattle.sender_bytes.specs.Read.{IsSender};

use sender_turns::{CALLS, Call, LANE, Lane, MILLS, Sender};

fn are_zero(numbers: &[u64]) -> bool
    ensures { result ≡ list_all is_zero numbers.now }
{
    numbers.iter().all(|n| *n == 0)
}

// Not too many wait, and places past the count are zero.
#[tactic(auto, unfolding(crate::specs::Check::lane_ok))]
fn is_lane(lane: &Lane) -> bool
    ensures { result ≡ lane_ok lane.now }
{
    lane.count <= LANE && are_zero(&lane.numbers[lane.count..])
}

fn are_lanes(lanes: &[Lane]) -> bool
    ensures { result ≡ list_all lane_ok lanes.now }
{
    lanes.iter().all(is_lane)
}

// A place below `out` holds a mill's call, any other zeros.
#[tactic(auto, unfolding(crate::specs::Check::place_ok))]
fn is_place(call: &Call, used: bool) -> bool
    ensures { result ≡ place_ok used call.now }
{
    if used {
        usize::from(call.mill) < MILLS
    } else {
        call.mill == 0 && call.number == 0
    }
}

fn are_places(calls: &[Call], out: usize) -> bool
    ensures { result ≡ places_ok out 0 calls.now }
{
    calls
        .iter()
        .enumerate()
        .all(|(i, call)| is_place(call, i < out))
}

fn are_calls(calls: &[Call; CALLS], out: usize) -> bool
    ensures { result ≡ calls_ok out calls.now }
{
    out <= CALLS && are_places(calls, out)
}

// Nothing waits in any lane.
fn is_idle(lanes: &[Lane; MILLS]) -> bool
    ensures { result ≡ list_all is_idle lanes.now }
{
    lanes.iter().all(|lane| lane.count == 0)
}

// With all calls out the last of them is the last granted; else nothing waits.
fn is_settled(sender: &Sender) -> bool
    ensures { at_last sender.now < mills → result ≡ settled_ok sender.now }
{
    if sender.out < CALLS {
        is_idle(&sender.lanes)
    } else {
        sender.turn == sender_turns::after(usize::from(sender.calls[CALLS - 1].mill))
    }
}

pub fn is_sender(sender: &Sender) -> bool
    ensures { (result ≡ true → IsSender sender.now) × (IsSender sender.now → result ≡ true) }
{
    sender.turn < MILLS
        && are_lanes(&sender.lanes)
        && are_calls(&sender.calls, sender.out)
        && is_settled(sender)
}
