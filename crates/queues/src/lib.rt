// The writing side of a step: the queues of waiting edits.
#![tactic(auto)]

mod coalescing;
mod enqueuing;
mod expiry;
mod head;
mod places;
mod reading;
mod telling;
mod writing;

pub use coalescing::Folded;
pub use enqueuing::enqueue;
pub use expiry::{bits_of, expired, is_due};
pub use head::{finish, request_create, start_edit};
pub use reading::{looks_up, read_for_edit};
pub use telling::{Ending, notify};
