// Document 01's "Checked by hand", the lines that are not marked, RFC 3629's examples, and frames that are just no frames, through the engine.
// The list on standard input (tools/checked_cases.py writes it, at most 64 KiB) has these kinds of lines:
//   #WORDS    makes the state a fresh one, and prints the words
//   'WORDS    prints the words
//   -DIGITS   a step with the frame of these digits; prints its answer only if it is refused
//   >DIGITS   a step; prints its answer: 0, or the refusal and whether the state's bytes were kept
//   !DIGITS   a step; prints its effects in digits, nothing where it has none; or its answer if it is refused
//   @DIGITS   prints the name of the record at the place that these two digits give, counted from 0
//   others    end a line of what is printed
// Digits that are no frame's are stepped with as a frame of no bytes.
#![tactic(auto)]

ghost use Rattle.std.specs.Prelude.{◌≤◌, length};

use comparison::{part, same};
use printing::{end, number, say, show};

const FRESH: u8 = b'#';

const WORDS: u8 = b'\'';

const QUIET: u8 = b'-';

const SHOWN: u8 = b'>';

const TOLD: u8 = b'!';

const RECORD: u8 = b'@';

#[derive(Clone, Copy)]
struct Answer {
    // 0, or the refusal's number
    code: u8,
    // how many bytes the effects take
    effects: usize,
    // whether the state's bytes are what they were
    kept: bool,
}

fn call(
    state: &mut [u8; engine::STATE],
    out: &mut [u8; frame::MAX_EFFECTS],
    frame: &[u8],
) -> Answer {
    let mut before = [0u8; engine::STATE];
    let mut work = [0u8; engine::STATE];
    spans::copy_into(&mut before, state);
    let answer = engine::step(state, &mut work, out, frame);
    Answer {
        code: answer.code,
        effects: answer.length,
        kept: same(&before, state),
    }
}

// Prints the first `n` bytes of the output in digits. The effects of a row's step are far shorter than a frame may be.
fn show_effects(out: &[u8; frame::MAX_EFFECTS], n: usize) {
    let mut text = [0u8; lines::MAX_DIGITS];
    let effects = part(out, 0, n);
    if effects.len() == 0 {
        show(b" nothing");
        return;
    }
    if effects.len() <= lines::MAX_FRAME {
        let end = lines::put_digits(&mut text, 0, effects);
        show(b" ");
        show(part(&text, 0, end));
    }
}

fn step(state: &mut [u8; engine::STATE], digits: &[u8], kind: u8) {
    let mut frame = [0u8; lines::MAX_FRAME];
    let mut out = [0u8; frame::MAX_EFFECTS];
    let n = lines::frame_of(digits, &mut frame);
    let answer = call(state, &mut out, part(&frame, 0, n));
    if answer.code != 0 {
        number(b"", answer.code as usize);
        say(b", state kept", answer.kept);
        return;
    }
    match kind {
        SHOWN => show(b" 0"),
        TOLD => show_effects(&out, answer.effects),
        _ => {}
    }
}

fn wide(b: u8) -> usize {
    b as usize
}

fn show_record(state: &[u8; engine::STATE], digits: &[u8]) {
    let mut place = [0u8; lines::MAX_FRAME];
    lines::frame_of(digits, &mut place);
    let r = access::record_at(state, wide(place[0]));
    if !r.found {
        show(b" none");
        return;
    }
    let name = r.name;
    show(b" ");
    show(part(state, name.at, name.at + name.length));
}

// Handles a line of the list.
fn one(state: &mut [u8; engine::STATE], line: &[u8]) {
    if line.len() == 0 {
        end();
        return;
    }
    let rest = &line[1..];
    match line[0] {
        FRESH => {
            access::fresh(state);
            show(rest);
        }
        WORDS => show(rest),
        QUIET => step(state, rest, QUIET),
        SHOWN => step(state, rest, SHOWN),
        TOLD => step(state, rest, TOLD),
        RECORD => show_record(state, rest),
        _ => end(),
    }
}

fn run(list: &[u8])
    requires { length list.now ≤ 65536 }
{
    let mut state = [0u8; engine::STATE];
    for line in list.split_inclusive(|b| *b == lines::LINE_FEED) {
        one(&mut state, line.strip_suffix(b"\n").unwrap_or(line));
    }
}

fn main() {
    let mut space = io::large_buffer();
    let n = io::read_full(0, &mut space);
    run(&space[..n]);
}
