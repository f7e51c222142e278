// Where what stands in a sender's buffer.

// The bytes of a request number, of a call and of a lane.
pub const NUMBER: usize = 8;

pub const CALL: usize = 1 + NUMBER;

pub const LANE: usize = 1 + sender_turns::LANE * NUMBER;

// The lanes stand first, then the calls out, then the turn.
pub const OUT: usize = sender_turns::MILLS * LANE;

pub const TURN: usize = OUT + 1 + sender_turns::CALLS * CALL;

// The length of a sender's buffer.
pub const LENGTH: usize = TURN + 1;
