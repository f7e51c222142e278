// The attendees of the merge: entries paired by folded address and occurrence, judged, and written. A list is its count and its
// entries; an entry that is absent is no bytes.
#![tactic(auto)]

mod entry_parts;
mod finding;
mod judging;
mod lists;
mod reporting;

pub use entry_parts::{address, entry_count, entry_part};
pub use finding::{display_address, find_entry, occurrence};
pub use judging::Judged;
pub use lists::entries;
