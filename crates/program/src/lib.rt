// The program of docs/FRAMES.md, "The program's lines", on lent buffers: the answer to one line.
#![tactic(auto)]

ghost use Rattle.std.specs.Prelude.{◌≡◌, ◌+◌, ◌*◌, ◌-◌, ◌/◌, ◌%◌, ◌≤◌, ◌<◌, length, take, drop};
ghost use Rattle.lines.specs.Lines.{Puts};
ghost use Rattle.program.specs.Program.{line, answer_bytes};
ghost use Rattle.program.specs.Answers.{Effects, Lists, Answers, Buffers, Answered};

// The longest answer: its own line, and of each byte of an effect two digits and at most one line feed.
pub const TEXT: usize = 98311;

// An answer's own line: three bytes in digits, and the line feed.
const HEAD: usize = 7;

// ---- the effects' lines

#[derive(Clone, Copy)]
struct Listed {
    next: usize,
    count: usize,
}

// Writes the effect that stands from `from` to `end` as a line.
fn put_effect(text: &mut [u8], at: usize, effects: &[u8], from: usize, end: usize) -> usize
    requires from_le_end { (from ≤ end) × (end ≤ length effects.now) }
    requires from_in_bounds { at + ((end - from) + (end - from)) < length text.old }
    ensures { Puts (line (take (end - from) (drop from effects.now))) text.old text.new at result }
{
    lines::put_line(text, at, &effects[from..end])
}

fn put_effects(text: &mut [u8], at: usize, effects: &[u8]) -> Listed
    requires effects { Effects effects.now }
    requires effects_in_bounds { at + 3 * length effects.now ≤ length text.old }
    ensures { (E : Effects effects.now) → Lists E.es text.old text.new at result }
{
    let mut next = at;
    let mut from = 0;
    let mut count: usize = 0;
    while from < effects.len() {
        let end = effects::effect_end(effects, from);
        next = put_effect(text, next, effects, from, end);
        from = end;
        count += 1;
    }
    Listed { next, count }
}

// ---- the answer

// A number's lowest two bytes.
fn high(n: usize) -> u8
    ensures { result ≡ n / 256 % 256 }
{
    (n / 256 % 256) as u8
}

fn low(n: usize) -> u8
    ensures { result ≡ n % 256 }
{
    (n % 256) as u8
}

fn put_head(text: &mut [u8], code: u8, count: usize) -> usize
    requires { 7 ≤ length text.old }
    ensures { Puts (line (answer_bytes code count)) text.old text.new 0 result }
{
    let head: [u8; 3] = [code, high(count), low(count)];
    lines::put_line(text, 0, &head)
}

fn put_answer(text: &mut [u8], code: u8, effects: &[u8]) -> usize
    requires effects { Effects effects.now }
    requires effects_in_bounds { 7 + 3 * length effects.now ≤ length text.old }
    ensures { (E : Effects effects.now) → Answers code E.es text.new result }
{
    let listed = put_effects(text, HEAD, effects);
    put_head(text, code, listed.count);
    listed.next
}

// How many bytes of the text the answer takes, and how many of the output its effects.
#[derive(Clone, Copy)]
pub struct Reply {
    pub text: usize,
    pub effects: usize,
}

// Answers a line: the state goes on, and the answer stands at the start of `text`.
pub fn answer_line(
    state: &mut [u8],
    work: &mut [u8],
    out: &mut [u8],
    frame: &mut [u8],
    line: &[u8],
    text: &mut [u8],
) -> Reply
    requires { Buffers state.old work.old out.old frame.old text.old }
    ensures { Answered line.now state.old state.new out.new text.new result }
{
    let n = lines::frame_of(line, frame);
    let a = engine::step(state, work, out, &frame[..n]);
    let code = a.code;
    let effects = a.length;
    let written = put_answer(text, code, &out[..effects]);
    Reply {
        text: written,
        effects,
    }
}
