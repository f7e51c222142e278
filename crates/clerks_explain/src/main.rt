// Two clerks, one booking, in words: the one line of standard input is the frame, as `clerks` takes it. It says the booking and what each party wants, and for
// each order of their writes how the booking ends and who can force each part of it.
#![tactic(auto)]

mod naming;
mod said;

use input::Lines;

fn main(rt: HostRuntime) {
    let mut input = Lines::new(rt.stdin());
    let mut line = [0; lines::LINE];
    match input.only(&mut line) {
        Some(have) => said::explain(&line[..have]),
        None => said::no_frame(b"standard input is not just one line"),
    }
}
