// A sender out of its bytes, whatever they are.
ghost use Rattle.std.specs.Prelude.{◌≡◌, ◌+◌, ◌*◌, ◌≤◌, length, drop};
ghost use Rattle.sender_turns.specs.Sender.{mills, calls};
ghost use Rattle.sender_bytes.specs.Bytes.{call_bytes, lane_bytes, sender_length};
ghost use Rattle.sender_bytes.specs.Read.{parts, lane_in, call_in, sender_in};

use crate::places::{CALL, LANE, NUMBER, OUT, TURN};
use sender_turns::{CALLS, Call, Lane, MILLS, Sender};
use std::array;

fn lane_in(bytes: &[u8], at: usize) -> Lane
    requires { at + lane_bytes ≤ length bytes.now }
    ensures { result ≡ lane_in (drop at bytes.now) }
{
    Lane {
        numbers: array::from_fn(|i| numbers::get_be(bytes, at + 1 + i * NUMBER)),
        count: usize::from(bytes[at]),
    }
}

fn lanes_in(bytes: &[u8]) -> [Lane; MILLS]
    requires { length bytes.now ≡ sender_length }
    ensures { result ≡ parts lane_bytes lane_in mills bytes.now }
{
    array::from_fn(|i| lane_in(bytes, i * LANE))
}

#[tactic(auto, using(crate::proofs::PlaceLaws::call_is))]
fn call_in(bytes: &[u8], at: usize) -> Call
    requires { at + call_bytes ≤ length bytes.now }
    ensures { result ≡ call_in (drop at bytes.now) }
{
    Call {
        mill: bytes[at],
        number: numbers::get_be(bytes, at + 1),
    }
}

fn calls_in(bytes: &[u8]) -> [Call; CALLS]
    requires { length bytes.now ≡ sender_length }
    ensures { result ≡ parts call_bytes call_in calls (drop (mills * lane_bytes + 1) bytes.now) }
{
    array::from_fn(|i| call_in(bytes, OUT + 1 + i * CALL))
}

#[tactic(auto, using(crate::proofs::PlaceLaws::sender_is))]
pub fn sender_in(bytes: &[u8]) -> Sender
    requires { length bytes.now ≡ sender_length }
    ensures { result ≡ sender_in bytes.now }
{
    Sender {
        lanes: lanes_in(bytes),
        calls: calls_in(bytes),
        out: usize::from(bytes[OUT]),
        turn: usize::from(bytes[TURN]),
    }
}
