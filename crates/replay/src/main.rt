// Stored runs of frames, answered and compared with the published Rust's answers. The list on standard input (tools/replay_cases.py
// writes it, at most a mebibyte) has three kinds of lines:
//   #NAME    starts a run from a fresh state
//   >LINE    a line for the program `bay`: a frame's digits, or what else may stand there
//   others   the lines of the published engine's answer to it
// For each run the program prints how many frames it has, and how many of them were answered otherwise.
#![tactic(auto)]

mod tally;

ghost use Rattle.std.specs.Prelude.{◌≡◌, ◌≤◌, length};

use tally::Tally;

const RUN: u8 = b'#';

const FRAME: u8 = b'>';

// Handles a line of the list.
fn one(
    state: &mut [u8; engine::STATE],
    work: &mut [u8; engine::STATE],
    out: &mut [u8; frame::MAX_EFFECTS],
    frame: &mut [u8; lines::MAX_FRAME],
    text: &mut [u8; program::TEXT],
    line: &[u8],
    t: Tally,
) -> Tally {
    if line.len() == 0 {
        return t.answered(text, line);
    }
    let mark = line[0];
    if mark == RUN {
        access::fresh(state);
        return t.started(&line[1..]);
    }
    if mark != FRAME {
        return t.answered(text, line);
    }
    let r = program::answer_line(state, work, out, frame, &line[1..], text);
    t.asked(r.text)
}

fn replay(list: &[u8])
    requires { length list.now ≤ 1048576 }
{
    let mut state = [0u8; engine::STATE];
    let mut work = [0u8; engine::STATE];
    let mut out = [0u8; frame::MAX_EFFECTS];
    let mut frame = [0u8; lines::MAX_FRAME];
    let mut text = [0u8; program::TEXT];
    let mut t = Tally::new();
    for line in list.split_inclusive(|b| *b == lines::LINE_FEED) {
        let line = line.strip_suffix(b"\n").unwrap_or(line);
        t = one(
            &mut state, &mut work, &mut out, &mut frame, &mut text, line, t,
        );
    }
    t.ended();
}

// Room for the list.
fn room() -> [u8; 1048576]
    ensures { 1048576 ≡ length result }
{
    [0; 1048576]
}

fn main() {
    let mut space = room();
    let n = io::read_full(0, &mut space);
    replay(&space[..n]);
}
