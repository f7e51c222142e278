// What `bay` prints, and after each answer a line of what can be read of the state.
#![tactic(auto)]

fn main(rt: HostRuntime) {
    serve::serve(rt.stdin(), true);
}
