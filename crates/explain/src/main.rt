// What a log of frames says, and what the engine answers to it: standard input as `bay` reads it, one frame a line in
// lowercase hexadecimal, from a fresh state; each frame, each answer and each effect in words.
#![tactic(auto)]

mod faults;
mod input;
mod said;

fn main(rt: HostRuntime) {
    let mut state = [0u8; engine::STATE];
    let mut line = input::first();
    access::fresh(&mut state);
    // Nothing says that the input ends, so the turns are counted, up to a number that no run uses up.
    for _ in 0..u64::MAX {
        if !input::read_some(rt.stdin(), &mut state, &mut line) {
            return;
        }
    }
}
