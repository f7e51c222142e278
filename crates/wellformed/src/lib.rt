// Whether a lent buffer holds a well-formed state: refusal 2.
#![tactic(auto)]

mod buffer;
mod rules;
mod slot;
mod table;

pub use buffer::{STATE, is_state};
pub use table::entries_in;
