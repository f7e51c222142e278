// The engine, the sender and the two clerks for programs in other languages, as include/bay.h declares them. Each function has the contract of the one
// that it calls, and asks nothing of what it is lent. A second answer is written through a reference.
#![tactic(auto)]

ghost use Rattle.std.specs.Prelude.{◌≡◌, false, ◌+◌, ◌≤◌, length, None};
ghost use Rattle.lent.specs.Lent.{part};
ghost use Rattle.frame.specs.Read.{kept};
ghost use Rattle.model.specs.Maps.{keys};
ghost use Rattle.model.specs.Limits.{document01, max_effects};
ghost use Rattle.model.specs.Sizes.{buffer_length};
ghost use Rattle.model.specs.Entry.{entry};
ghost use Rattle.model.specs.Demands.{waiting_count};
ghost use Rattle.access.specs.Answers.{Answers, Freshened, nth, numbered, record_bytes};
ghost use Rattle.engine.specs.Answers.{lent, returned};
ghost use Rattle.sender_turns.specs.Sender.{Use};
ghost use Rattle.sender_turns.specs.Laid.{no_call};
ghost use Rattle.sender_bytes.specs.Bytes.{sender_length, freshened};
ghost use Rattle.sender_bytes.specs.Read.{granted_by, Uses};
ghost use Rattle.clerks_bytes.specs.Writes.{line_bytes, work_bytes};
ghost use Rattle.clerks_bytes.specs.Returned.{asked};

use sender_bytes::Refusal;
use sender_turns::Call;

// The length of a state's buffer and of the work buffer.
#[unsafe(no_mangle)]
pub extern "C" fn bay_state_length() -> usize
    ensures { result ≡ buffer_length document01 }
{
    engine::STATE
}

// The least length of the output buffer.
#[unsafe(no_mangle)]
pub extern "C" fn bay_output_length() -> usize
    ensures { result ≡ max_effects }
{
    frame::MAX_EFFECTS
}

#[unsafe(no_mangle)]
pub extern "C" fn bay_fresh(state: &mut [u8]) -> u8
    ensures { Freshened state.old state.new result }
{
    access::fresh(state)
}

#[unsafe(no_mangle)]
pub extern "C" fn bay_step(
    state: &mut [u8],
    work: &mut [u8],
    out: &mut [u8],
    frame: &[u8],
    length: &mut usize,
) -> u8
    ensures { returned (record { code = result; length = length.new }) state.new work.new out.new ≡ entry document01 (lent state.old work.old out.old) frame.now }
{
    let a = engine::step(state, work, out, frame);
    *length = a.length;
    a.code
}

#[unsafe(no_mangle)]
pub extern "C" fn bay_waiting_count(state: &[u8], resource: &[u8], count: &mut usize) -> u8
    ensures { Answers (waiting_count resource.now) 0 state.now result count.new }
{
    let a = access::waiting_count(state, resource);
    *count = a.count;
    a.code
}

#[unsafe(no_mangle)]
pub extern "C" fn bay_in_flight_at(state: &[u8], i: usize, found: &mut bool, number: &mut u64) -> u8
    ensures { Answers (λ s. numbered (nth i (keys s.in_flight))) (false, 0) state.now result (found.new, number.new) }
{
    let a = access::in_flight_at(state, i);
    *found = a.found;
    *number = a.number;
    a.code
}

// The cursor's text is `extent` bytes of the state, from `at`.
#[unsafe(no_mangle)]
pub extern "C" fn bay_cursor(
    state: &[u8],
    found: &mut bool,
    at: &mut usize,
    extent: &mut usize,
) -> u8
    ensures { Answers (λ s. s.cursor) None state.now result (kept found.new (part at.new extent.new state.now)) × (at.new + extent.new ≤ length state.now) }
{
    let a = access::cursor(state);
    let text = a.text;
    *found = a.found;
    *at = text.at;
    *extent = text.length;
    a.code
}

// The record's name is `size` bytes of the state, from `name`; its event, in the frame's form, `extent` bytes, from `event`.
#[unsafe(no_mangle)]
pub extern "C" fn bay_record_at(
    state: &[u8],
    i: usize,
    found: &mut bool,
    name: &mut usize,
    size: &mut usize,
    event: &mut usize,
    extent: &mut usize,
) -> u8
    ensures { Answers (λ s. record_bytes (nth i s.records)) None state.now result (kept found.new (part name.new size.new state.now, part event.new extent.new state.now)) × (name.new + size.new ≤ length state.now) × (event.new + extent.new ≤ length state.now) }
{
    let a = access::record_at(state, i);
    let named = a.name;
    let held = a.event;
    *found = a.found;
    *name = named.at;
    *size = named.length;
    *event = held.at;
    *extent = held.length;
    a.code
}

// ---- the sender

// The length of a sender's buffer.
#[unsafe(no_mangle)]
pub extern "C" fn bay_sender_length() -> usize
    ensures { result ≡ sender_length }
{
    sender_bytes::LENGTH
}

#[unsafe(no_mangle)]
pub extern "C" fn bay_sender_fresh(sender: &mut [u8]) -> u8
    ensures { (result, sender.new) ≡ freshened sender.old }
{
    match sender_bytes::fresh(sender) {
        Ok(()) => 0,
        Err(e) => u8::from(e),
    }
}

// Writes the call that was granted, if one was, and answers 0 or the refusal's number.
#[tactic(auto, unfolding(sender_bytes::specs::Read::granted_by))]
fn tell(
    answer: Result<Option<Call>, Refusal>,
    granted: &mut bool,
    to: &mut u8,
    request: &mut u64,
) -> u8
    ensures { record { code = result; granted = granted.new; call = record { mill = to.new; number = request.new } } ≡ granted_by answer }
{
    (*granted, *to, *request) = match answer {
        Ok(Some(call)) => (true, call.mill, call.number),
        _ => (false, 0, 0),
    };
    match answer {
        Ok(_) => 0,
        Err(e) => u8::from(e),
    }
}

#[unsafe(no_mangle)]
pub extern "C" fn bay_sender_enter(
    sender: &mut [u8],
    mill: u8,
    number: u64,
    granted: &mut bool,
    to: &mut u8,
    request: &mut u64,
) -> u8
    ensures { Uses (Use.Enter mill number) sender.old sender.new (record { code = result; granted = granted.new; call = record { mill = to.new; number = request.new } }) }
{
    let a = sender_bytes::enter(sender, mill, number);
    tell(a, granted, to, request)
}

#[unsafe(no_mangle)]
pub extern "C" fn bay_sender_reply(
    sender: &mut [u8],
    mill: u8,
    number: u64,
    granted: &mut bool,
    to: &mut u8,
    request: &mut u64,
) -> u8
    ensures { Uses (Use.Reply mill number) sender.old sender.new (record { code = result; granted = granted.new; call = record { mill = to.new; number = request.new } }) }
{
    let a = sender_bytes::reply(sender, mill, number);
    tell(a, granted, to, request)
}

// A Resume grants nothing, so there is no call to tell.
#[unsafe(no_mangle)]
pub extern "C" fn bay_sender_resume(sender: &mut [u8], mill: u8) -> u8
    ensures { Uses (Use.Resume mill) sender.old sender.new (record { code = result; granted = false; call = no_call }) }
{
    match sender_bytes::resume(sender, mill) {
        Ok(_) => 0,
        Err(e) => u8::from(e),
    }
}

// ---- two clerks

// The length of each line's buffer.
#[unsafe(no_mangle)]
pub extern "C" fn bay_clerks_line_length() -> usize
    ensures { result ≡ line_bytes }
{
    clerks_bytes::LINE
}

// The length of the work buffer.
#[unsafe(no_mangle)]
pub extern "C" fn bay_clerks_work_length() -> usize
    ensures { result ≡ work_bytes }
{
    clerks_bytes::WORK
}

// The lines are the first `size` bytes of `one` and the first `extent` bytes of `two`.
#[unsafe(no_mangle)]
pub extern "C" fn bay_two_clerks(
    frame: &[u8],
    one: &mut [u8],
    two: &mut [u8],
    work: &mut [u8],
    size: &mut usize,
    extent: &mut usize,
) -> u8
    ensures { record { code = result; one_length = size.new; two_length = extent.new; one = one.new; two = two.new; work = work.new } ≡ asked frame.now one.old two.old work.old }
{
    let a = clerks_bytes::two_clerks(frame, one, two, work);
    *size = a.one;
    *extent = a.two;
    a.code
}
