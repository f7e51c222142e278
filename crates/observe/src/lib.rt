// What is learned of a resource: doubt, observations, and what is forgotten again.
#![tactic(auto)]

mod forget;
mod observations;
mod open_pass;
mod putting;
mod reads;
mod refresh;

pub use forget::{forget_aliases, forget_settled};
pub use observations::{
    event_part, observe_at, observe_gone, observe_read, observe_some, resource_of,
};
pub use open_pass::{see, stage_unread, watch};
pub use putting::{put_record, put_record_at};
pub use reads::{doubt, read_unread};
pub use refresh::on_refresh;
