// The waiting edits: one table, a slot for each entry, by resource and then in the queue's order.
#![tactic(auto)]

mod changes;
mod counting;
mod finding;
mod folding;
mod moving;
mod readers;
mod slots;

pub use changes::{append, clear_plan, remove_entry, set_collided, set_plan};
pub use finding::{entries, find_entry, resources, waiting_count};
pub use folding::fold;
pub use moving::move_entry;
pub use readers::{
    OperationCase, entry_id, expiry, ids_count, is_attendee, is_collided, is_due, operation_case,
};
