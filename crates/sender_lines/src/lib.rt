// A use of the sender as a line of hexadecimal digits, and its answer: one byte (0 or the refusal), two bytes that count grants; then a line for the grant.
#![tactic(auto)]

ghost use Rattle.std.specs.Prelude.{◌≡◌, ◌∷◌, ◌+◌, ◌≤◌, length, take, option_map};
ghost use Rattle.format.specs.Format.{whole_of};
ghost use Rattle.lines.specs.Lines.{max_frame, Puts};
ghost use Rattle.model.specs.Formats.{u64};
ghost use Rattle.sender_bytes.specs.Bytes.{call_bytes, grant_told};
ghost use Rattle.sender_lines.specs.Answers.{use_f, line, grant_text};
ghost use Rattle.sender_lines.specs.Promises.{meant, number_of, code_of, grant_of, Takes, text_bytes, Replies};
ghost use Rattle.sender_lines.specs.declared.Refusal.TheVariants as refusal;

use sender_bytes::CALL;
use sender_turns::Call;

// The bytes of an answer's own line.
const HEAD: usize = 3;

// The longest answer: its own line and a call's, two digits a byte and a line feed each.
pub const TEXT: usize = HEAD + HEAD + 1 + CALL + CALL + 1;

// The cases of a use, by their place.
const ENTER: u8 = 0;

const REPLY: u8 = 1;

const RESUME: u8 = 2;

// A use's case is its first byte; the mill and the number stand behind it.
const MILL: usize = 1;

const NUMBER: usize = 2;

// The bytes of a use: the case and a call, or the case and a mill.
const OF_A_CALL: usize = 1 + CALL;

const OF_A_MILL: usize = 2;

// Why a line is not done.
#[derive(Clone, Copy, PartialEq, Eq)]
enum Refusal {
    // it is no use
    NoUse,
    // the use is refused
    Use(sender_bytes::Refusal),
}

impl From<sender_bytes::Refusal> for Refusal {
    ghost from_gives = { λ e r. r ≡ refusal.Use e };

    fn from(why: sender_bytes::Refusal) -> Refusal {
        Refusal::Use(why)
    }
}

impl From<Refusal> for u8 {
    ghost from_gives = { λ e n. n ≡ number_of e };

    fn from(e: Refusal) -> u8 {
        match e {
            Refusal::NoUse => 3,
            Refusal::Use(e) => u8::from(e),
        }
    }
}

// What a frame asks for.
#[derive(Clone, Copy)]
enum Use {
    Enter(u8, u64),
    Reply(u8, u64),
    Resume(u8),
}

// A use of a call, by its case.
#[tactic(auto, using(crate::proofs::Laws::enters, crate::proofs::Laws::replies, crate::proofs::Laws::other_call))]
fn of_a_call(frame: &[u8]) -> Option<Use>
    requires { length frame.now ≡ 1 + call_bytes }
    ensures { option_map meant result ≡ whole_of use_f frame.now }
{
    let mill = frame[MILL];
    let number = numbers::get_be(frame, NUMBER);
    match frame[0] {
        ENTER => Some(Use::Enter(mill, number)),
        REPLY => Some(Use::Reply(mill, number)),
        _ => None,
    }
}

#[tactic(auto, using(crate::proofs::Laws::resumes, crate::proofs::Laws::neither, crate::proofs::Laws::other_mill))]
fn use_in(frame: &[u8]) -> Option<Use>
    ensures { option_map meant result ≡ whole_of use_f frame.now }
{
    match frame.len() {
        OF_A_CALL => of_a_call(frame),
        OF_A_MILL if frame[0] == RESUME => Some(Use::Resume(frame[MILL])),
        _ => None,
    }
}

#[tactic(auto, using(crate::proofs::Laws::takes_none))]
fn take_use(sender: &mut [u8], frame: &[u8]) -> Result<Option<Call>, Refusal>
    ensures { Takes frame.now sender.old sender.new result }
{
    let Some(asked) = use_in(frame) else {
        return Err(Refusal::NoUse);
    };
    let granted = match asked {
        Use::Enter(mill, number) => sender_bytes::enter(sender, mill, number)?,
        Use::Reply(mill, number) => sender_bytes::reply(sender, mill, number)?,
        Use::Resume(mill) => sender_bytes::resume(sender, mill)?,
    };
    Ok(granted)
}

fn put_call(text: &mut [u8], at: usize, call: Call) -> usize
    requires { at + (call_bytes + call_bytes + 1) ≤ length text.old }
    ensures { Puts (line (call.mill ∷ u64.enc call.number)) text.old text.new at result }
{
    let mut bytes = [0u8; CALL];
    bytes[0] = call.mill;
    numbers::put_be(&mut bytes, 1, call.number);
    lines::put_line(text, at, &bytes)
}

fn put_answer(text: &mut [u8], told: Result<Option<Call>, Refusal>) -> usize
    requires { text_bytes ≤ length text.old }
    ensures { (result ≤ length text.new) × (take result text.new ≡ grant_text (code_of told) (grant_told (grant_of told))) }
{
    match told {
        Ok(Some(call)) => {
            let at = lines::put_line(text, 0, &[0, 0, 1]);
            put_call(text, at, call)
        }
        Ok(None) => lines::put_line(text, 0, &[0, 0, 0]),
        Err(e) => lines::put_line(text, 0, &[u8::from(e), 0, 0]),
    }
}

// Answers a line: the sender goes on, and the answer stands at the start of `text`.
pub fn answer_line(sender: &mut [u8], frame: &mut [u8], line: &[u8], text: &mut [u8]) -> usize
    requires { (max_frame ≤ length frame.old) × (text_bytes ≤ length text.old) }
    ensures { Replies line.now sender.old sender.new text.new result }
{
    let n = lines::frame_of(line, frame);
    let told = take_use(sender, &frame[..n]);
    put_answer(text, told)
}
