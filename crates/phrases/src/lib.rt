// What is said of a step through a frame: what stands at a place, and the phrase that says it. The words go into a lent slice, so that a
// program writes a line at once. Nothing is written that could do harm to a terminal, whatever a frame holds (specs/Shown.antt).
#![tactic(auto)]

mod reading;
mod rules;
mod saying;
mod visible;
mod writing;

pub use reading::{Found, read};
pub use rules::{after, alternative, rule, step};
pub use saying::say;
pub use writing::{decimal, print, print_line, quoted, shown};
