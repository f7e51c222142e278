// A sender into its bytes.
ghost use Rattle.std.specs.Prelude.{◌≡◌, ◌+◌, ◌*◌, ◌≤◌, length};
ghost use Rattle.format.specs.Format.{All, concat_map};
ghost use Rattle.sender_turns.specs.Sender.{mills, lane_size};
ghost use Rattle.sender_bytes.specs.Bytes.{call_bytes, lane_bytes, sender_length};
ghost use Rattle.sender_bytes.specs.Read.{IsSender, lane_out, call_out, sender_out, with_at};

use crate::places::{CALL, LANE, NUMBER, OUT, TURN};
use sender_turns::{CALLS, Call, Lane, MILLS, Sender};

#[tactic(auto, using(crate::proofs::PlaceLaws::write_start, crate::proofs::PlaceLaws::write_end, crate::proofs::PlaceLaws::put_lane_is))]
fn put_lane(bytes: &mut [u8], at: usize, lane: &Lane)
    requires { (at + lane_bytes ≤ length bytes.old) × (lane.now.count ≤ lane_size) }
    ensures { bytes.new ≡ with_at at (lane_out lane.now) bytes.old }
{
    bytes[at] = lane.count as u8;
    for (i, number) in lane.numbers.iter().enumerate() {
        numbers::put_be(bytes, at + 1 + i * NUMBER, *number);
    }
}

#[tactic(auto, using(crate::proofs::PlaceLaws::write_start, crate::proofs::PlaceLaws::write_turn, crate::proofs::PlaceLaws::write_end, crate::proofs::PlaceLaws::lane_long, crate::proofs::PlaceLaws::all_at))]
fn put_lanes(bytes: &mut [u8], lanes: &[Lane; MILLS])
    requires { (length bytes.old ≡ sender_length) × All (λ l. (l.count ≤ lane_size) × (length l.numbers ≡ lane_size)) lanes.now }
    ensures { bytes.new ≡ with_at 0 (concat_map lane_out lanes.now) bytes.old }
{
    for (i, lane) in lanes.iter().enumerate() {
        put_lane(bytes, i * LANE, lane);
    }
}

#[tactic(auto, using(crate::proofs::PlaceLaws::put_call_is))]
fn put_call(bytes: &mut [u8], at: usize, call: &Call)
    requires { at + call_bytes ≤ length bytes.old }
    ensures { bytes.new ≡ with_at at (call_out call.now) bytes.old }
{
    bytes[at] = call.mill;
    numbers::put_be(bytes, at + 1, call.number);
}

#[tactic(auto, using(crate::proofs::PlaceLaws::write_start, crate::proofs::PlaceLaws::write_turn, crate::proofs::PlaceLaws::write_end, crate::proofs::PlaceLaws::call_long))]
fn put_calls(bytes: &mut [u8], calls: &[Call; CALLS])
    requires { length bytes.old ≡ sender_length }
    ensures { bytes.new ≡ with_at (mills * lane_bytes + 1) (concat_map call_out calls.now) bytes.old }
{
    for (i, call) in calls.iter().enumerate() {
        put_call(bytes, OUT + 1 + i * CALL, call);
    }
}

// Writes all of the buffer.
#[tactic(auto, using(crate::proofs::PlaceLaws::lanes_fit, crate::proofs::PlaceLaws::put_sender_is))]
pub fn put_sender(bytes: &mut [u8], sender: &Sender)
    requires { (length bytes.old ≡ sender_length) × IsSender sender.now }
    ensures { bytes.new ≡ sender_out sender.now }
{
    put_lanes(bytes, &sender.lanes);
    bytes[OUT] = sender.out as u8;
    put_calls(bytes, &sender.calls);
    bytes[TURN] = sender.turn as u8;
}
