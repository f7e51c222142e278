// What a state says of itself, for any lent bytes: no function here asks anything of them.
#![tactic(auto)]

ghost use Rattle.std.specs.Prelude.{◌≡◌, false, ◌+◌, ◌≤◌, ◌<◌, length, take, drop, get_or, count_by, None};
ghost use Rattle.tables.specs.Table.{Holds, slots_of};
ghost use Rattle.lent.specs.Lent.{part};
ghost use Rattle.frame.specs.Read.{start, skips, kept};
ghost use Rattle.model.specs.Maps.{keys};
ghost use Rattle.model.specs.Formats.{event_f};
ghost use Rattle.model.specs.Demands.{waiting_count};
ghost use Rattle.state.specs.Contract.{HasState, Reads};
ghost use Rattle.access.specs.Answers.{Checked, Answers, Freshened, nth, numbered, record_bytes, queue_count, is_of};

use wellformed::STATE;

pub const REFUSED_LENGTH: u8 = 1;

pub const REFUSED_STATE: u8 = 2;

// Makes the buffer a fresh state's.
pub fn fresh(state: &mut [u8]) -> u8
    ensures { Freshened state.old state.new result }
{
    if state.len() != STATE {
        return REFUSED_LENGTH;
    }
    spans::zero(state);
    0
}

// The refusal of the bytes, or 0.
fn refusal(state: &[u8]) -> u8
    ensures { Checked state.now result }
{
    if state.len() != STATE {
        return REFUSED_LENGTH;
    }
    if wellformed::is_state(state) {
        return 0;
    }
    REFUSED_STATE
}

// ---- the waiting entries

const WAITING: usize = 20002;

const ENTRIES: usize = 35641;

const ENTRY: usize = 5940;

#[derive(Clone, Copy)]
pub struct CountAnswer {
    pub code: u8,
    pub count: usize,
}

// Whether the slot is one of the resource's.
fn is_of(slot: &[u8], resource: &[u8]) -> bool
    requires { 0 < length slot.now }
    ensures { result ≡ is_of resource.now slot.now }
{
    let end = tables::text_len(slot) + 1;
    &slot[1..end] == resource
}

// How many entries are the resource's.
fn count_of(entries: &[u8], resource: &[u8]) -> usize
    requires { Holds 5940 entries.now }
    ensures { result ≡ count_by (is_of resource.now) (slots_of 5940 entries.now) }
{
    strides::slots(entries, ENTRY)
        .filter(|slot| is_of(slot, resource))
        .count()
}

fn waiting(state: &[u8], resource: &[u8]) -> usize
    requires { HasState state.now }
    ensures { Reads (waiting_count resource.now) state.now result }
{
    count_of(&state[WAITING..WAITING + ENTRIES], resource)
}

// How many entries wait in the resource's queue. Bytes that are no resource's name have no queue.
pub fn waiting_count(state: &[u8], resource: &[u8]) -> CountAnswer
    ensures { Answers (waiting_count resource.now) 0 state.now result.code result.count }
{
    let code = refusal(state);
    if code != 0 {
        return CountAnswer { code, count: 0 };
    }
    let count = waiting(state, resource);
    CountAnswer { code, count }
}

// ---- the requests in flight

const FIRST_NUMBER: usize = 55645;

const FLIGHT: usize = 43;

#[derive(Clone, Copy)]
pub struct NumberAnswer {
    pub code: u8,
    pub found: bool,
    pub number: u64,
}

fn flight(state: &[u8], i: usize) -> Option<u64>
    requires { HasState state.now }
    ensures { Reads (λ s. nth i (keys s.in_flight)) state.now result }
{
    let n = state::in_flight_count(state);
    if n <= i {
        return None;
    }
    let past = i * FLIGHT;
    let at = FIRST_NUMBER + past;
    let number = numbers::get_be(state, at);
    Some(number)
}

// The number in flight at a place in their order.
pub fn in_flight_at(state: &[u8], i: usize) -> NumberAnswer
    ensures { Answers (λ s. numbered (nth i (keys s.in_flight))) (false, 0) state.now result.code (result.found, result.number) }
{
    let code = refusal(state);
    if code != 0 {
        return NumberAnswer {
            code,
            found: false,
            number: 0,
        };
    }
    match flight(state, i) {
        None => NumberAnswer {
            code,
            found: false,
            number: 0,
        },
        Some(number) => NumberAnswer {
            code,
            found: true,
            number,
        },
    }
}

// ---- the cursor

const CURSOR: usize = 9151;

const CURSOR_LENGTH: usize = 9152;

const CURSOR_TEXT: usize = 9153;

// A part of the buffer: it ends within it.
#[derive(Clone, Copy)]
pub struct Part {
    pub at: usize,
    pub length: usize,
}

#[derive(Clone, Copy)]
pub struct TextAnswer {
    pub code: u8,
    pub found: bool,
    pub text: Part,
}

fn byte_at(state: &[u8], at: usize) -> usize
    requires { at < length state.now }
    ensures { (result ≡ get_or state.now at 0) × (result < 256) }
{
    state[at] as usize
}

fn cursor_text(state: &[u8]) -> TextAnswer
    requires { HasState state.now }
    ensures { (result.code ≡ 0) × Reads (λ s. s.cursor) state.now (kept result.found (part result.text.at result.text.length state.now)) × (result.text.at + result.text.length ≤ length state.now) }
{
    let some = byte_at(state, CURSOR);
    if some == 0 {
        return TextAnswer {
            code: 0,
            found: false,
            text: Part { at: 0, length: 0 },
        };
    }
    let length = byte_at(state, CURSOR_LENGTH);
    TextAnswer {
        code: 0,
        found: true,
        text: Part {
            at: CURSOR_TEXT,
            length,
        },
    }
}

// The cursor's text, by its place in the buffer.
pub fn cursor(state: &[u8]) -> TextAnswer
    ensures { Answers (λ s. s.cursor) None state.now result.code (kept result.found (part result.text.at result.text.length state.now)) × (result.text.at + result.text.length ≤ length state.now) }
{
    let code = refusal(state);
    if code != 0 {
        return TextAnswer {
            code,
            found: false,
            text: Part { at: 0, length: 0 },
        };
    }
    cursor_text(state)
}

// ---- the records

const RECORD: usize = 915;

const FIRST_KEY: usize = 1;

const FIRST_NAME: usize = 2;

const FIRST_EVENT: usize = 34;

const EVENT: usize = 882;

#[derive(Clone, Copy)]
pub struct RecordAnswer {
    pub code: u8,
    pub found: bool,
    pub name: Part,
    pub event: Part,
}

fn event_end(state: &[u8], at: usize) -> usize
    requires { at + 882 ≤ length state.now }
    ensures { result ≡ (skips event_f (part at 882 state.now) start).at }
{
    let end = at + EVENT;
    let c = frame::event_in(&state[at..end]);
    c.at
}

fn record_bytes(state: &[u8], i: usize) -> RecordAnswer
    requires { HasState state.now }
    ensures { (result.code ≡ 0) × Reads (λ s. record_bytes (nth i s.records)) state.now (kept result.found (part result.name.at result.name.length state.now, part result.event.at result.event.length state.now)) × (result.name.at + result.name.length ≤ length state.now) × (result.event.at + result.event.length ≤ length state.now) }
{
    let n = records::record_count(state);
    if n <= i {
        return RecordAnswer {
            code: 0,
            found: false,
            name: Part { at: 0, length: 0 },
            event: Part { at: 0, length: 0 },
        };
    }
    let past = i * RECORD;
    let key = FIRST_KEY + past;
    let name = FIRST_NAME + past;
    let event = FIRST_EVENT + past;
    let size = byte_at(state, key);
    let extent = event_end(state, event);
    RecordAnswer {
        code: 0,
        found: true,
        name: Part {
            at: name,
            length: size,
        },
        event: Part {
            at: event,
            length: extent,
        },
    }
}

// The record at a place in their order: its resource, and its event in the frame's form, by their places in the buffer.
pub fn record_at(state: &[u8], i: usize) -> RecordAnswer
    ensures { Answers (λ s. record_bytes (nth i s.records)) None state.now result.code (kept result.found (part result.name.at result.name.length state.now, part result.event.at result.event.length state.now)) × (result.name.at + result.name.length ≤ length state.now) × (result.event.at + result.event.length ≤ length state.now) }
{
    let code = refusal(state);
    if code != 0 {
        return RecordAnswer {
            code,
            found: false,
            name: Part { at: 0, length: 0 },
            event: Part { at: 0, length: 0 },
        };
    }
    record_bytes(state, i)
}

// ---- the queues

#[derive(Clone, Copy)]
pub struct QueueAnswer {
    pub code: u8,
    pub found: bool,
    pub name: Part,
    pub count: usize,
}

fn no_queue(code: u8) -> QueueAnswer
    ensures { (result.code ≡ code) × (result.found ≡ false) × (result.name.at ≡ 0) × (result.name.length ≡ 0) }
{
    QueueAnswer {
        code,
        found: false,
        name: Part { at: 0, length: 0 },
        count: 0,
    }
}

fn queue_bytes(state: &[u8], i: usize) -> QueueAnswer
    requires { HasState state.now }
    ensures { (result.code ≡ 0) × Reads (λ s. queue_count (nth i s.edits)) state.now (kept result.found (part result.name.at result.name.length state.now, result.count)) × (result.name.at + result.name.length ≤ length state.now) }
{
    let names = waiting::resources(state);
    if names.len() <= i {
        return no_queue(0);
    }
    let name = names.name(i);
    let Some(at) = waiting::find_entry(state, name, 0) else {
        return no_queue(0);
    };
    let length = byte_at(state, at);
    let count = waiting::waiting_count(state, name);
    QueueAnswer {
        code: 0,
        found: true,
        name: Part { at: at + 1, length },
        count,
    }
}

// The queue at a place in the order of their resources: its resource, by its place in the buffer, and how many entries wait in it.
pub fn queue_at(state: &[u8], i: usize) -> QueueAnswer
    ensures { Answers (λ s. queue_count (nth i s.edits)) None state.now result.code (kept result.found (part result.name.at result.name.length state.now, result.count)) × (result.name.at + result.name.length ≤ length state.now) }
{
    let code = refusal(state);
    if code != 0 {
        return no_queue(code);
    }
    queue_bytes(state, i)
}
