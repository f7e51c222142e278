// The entry: one call of the engine on lent buffers.
#![tactic(auto)]

ghost use Rattle.std.specs.Prelude.{◌≡◌, ◌++◌, ◌-◌, ◌≤◌, length, take};
ghost use Rattle.spans.specs.Bytes.{zeros};
ghost use Rattle.model.specs.Limits.{document01};
ghost use Rattle.model.specs.Formats.{input_f};
ghost use Rattle.model.specs.Sync.{apply};
ghost use Rattle.model.specs.Entry.{lengths_right, entry};
ghost use Rattle.frame.specs.Meaning.{meant_input};
ghost use Rattle.state.specs.Contract.{HasState};
ghost use Rattle.machine.specs.Contract.{Does};
ghost use Rattle.engine.specs.Answers.{lent, returned, fresh, Ends, Steps};

use frame::{Input, Parsed};
use machine::Progress;

#[derive(Clone, Copy)]
pub struct Answer {
    // 0, or the refusal's number
    pub code: u8,
    // how many bytes of the output the effects take
    pub length: usize,
}

// The one length of a state's buffer, and of the work buffer.
pub const STATE: usize = 58543;

fn lengths_right(state: &[u8], work: &[u8], out: &[u8]) -> bool
    ensures { result ≡ lengths_right document01 (lent state.now work.now out.now) }
{
    if state.len() != STATE {
        return false;
    }
    if work.len() != STATE {
        return false;
    }
    frame::MAX_EFFECTS <= out.len()
}

// A call refused after the lengths: work and output are zero.
fn refused(work: &mut [u8], out: &mut [u8], code: u8) -> Answer
    ensures { (result.code ≡ code) × (result.length ≡ 0) × (work.new ≡ zeros (length work.old)) × (out.new ≡ zeros (length out.old)) }
{
    spans::zero(work);
    spans::zero(out);
    Answer { code, length: 0 }
}

fn zero_from(s: &mut [u8], at: usize)
    requires { at ≤ length s.old }
    ensures { s.new ≡ take at s.old ++ zeros (length s.old - at) }
{
    spans::zero(&mut s[at..]);
}

// An accepted call: the work buffer becomes the state, and the effects end at `at`.
fn accepted(state: &mut [u8], work: &mut [u8], out: &mut [u8], at: usize) -> Answer
    requires { (length state.old ≡ length work.old) × (at ≤ length out.old) }
    ensures { (result.code ≡ 0) × (result.length ≡ at) × (state.new ≡ work.old) × (work.new ≡ zeros (length work.old)) × (out.new ≡ take at out.old ++ zeros (length out.old - at)) }
{
    spans::copy_into(state, work);
    spans::zero(work);
    zero_from(out, at);
    Answer {
        code: 0,
        length: at,
    }
}

fn ended(state: &mut [u8], work: &mut [u8], out: &mut [u8], p: Progress) -> Answer
    requires { (length state.old ≡ length work.old) × (p.code ≡ 0 → p.at ≤ length out.old) }
    ensures { Ends p state.old work.old out.old result state.new work.new out.new }
{
    let code = p.code;
    let at = p.at;
    if code != 0 {
        return refused(work, out, code);
    }
    accepted(state, work, out, at)
}

// Applies the input on the work buffer. The effects have the output up to `end`.
fn apply_within(work: &mut [u8], out: &mut [u8], end: usize, frame: &[u8], input: Input) -> Progress
    requires has_state { HasState work.old }
    requires ok { input_f.Ok (meant_input frame.now input) }
    requires end_in_bounds { end ≤ length out.old }
    ensures { Does (apply (meant_input frame.now input)) work.old (take end out.old) fresh result work.new (take end out.new) }
{
    let p = Progress { code: 0, at: 0 };
    dispatch::apply(work, &mut out[..end], p, frame, input)
}

// A call past the checks.
fn run(state: &mut [u8], work: &mut [u8], out: &mut [u8], frame: &[u8], input: Input) -> Answer
    requires has_state { HasState state.old }
    requires ok { input_f.Ok (meant_input frame.now input) }
    requires work_len { length work.old ≡ 58543 }
    requires in_bounds { 32768 ≤ length out.old }
    ensures { Steps (meant_input frame.now input) state.old work.old out.old result state.new work.new out.new }
{
    spans::copy_into(work, state);
    let p = apply_within(work, out, frame::MAX_EFFECTS, frame, input);
    ended(state, work, out, p)
}

// fn step: one call. The checks run 1, 2, 3.
pub fn step(state: &mut [u8], work: &mut [u8], out: &mut [u8], frame: &[u8]) -> Answer
    ensures { returned result state.new work.new out.new ≡ entry document01 (lent state.old work.old out.old) frame.now }
{
    if !lengths_right(state, work, out) {
        return Answer { code: 1, length: 0 };
    }
    if !wellformed::is_state(state) {
        return refused(work, out, 2);
    }
    let parsed = frame::parse(frame);
    match parsed {
        Parsed::NoFrame => {
            return refused(work, out, 3);
        }
        Parsed::Frame(input) => {
            return run(state, work, out, frame, input);
        }
    }
}
