// The reading side of sync.rs: a pass over the provider's listing, from its first page to its commit.
#![tactic(auto)]

mod changes;
mod commits;
mod pages;
mod pass_reads;
mod requests;
mod starting;

pub use commits::try_commit;
pub use pages::on_list;
pub use pass_reads::on_pass_read;
pub use requests::request_list;
pub use starting::start_pass;
