// The program of docs/FRAMES.md, "The program's lines": frames on standard input, a line each in hexadecimal; answers on standard output.
#![tactic(auto)]

fn main(rt: HostRuntime) {
    serve::serve(rt.stdin(), false);
}
