// Whether the regions of a lent state buffer, all but the waiting entries', are the bytes of values that fit: for any bytes.
#![tactic(auto)]

mod field;
mod others;
mod pass;
mod single;
mod slot;
mod table;
mod walks;

pub use field::{ends, field_of};
pub use others::others_in;
pub use pass::pass_in;
pub use single::{
    aliases_in, cursor_in, done_in, flights_in, from_in, full_in, learned_all_in, learned_in,
    next_request_in, now_in, observed_in, records_in, seen_in, staged_in,
};
pub use table::table_in;
pub use walks::{skip_flag, skip_purpose, skip_staged, skip_time};
