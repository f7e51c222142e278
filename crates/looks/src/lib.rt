// What can be read of a state, as one line of digits: the cursor, the records, the numbers in flight, and how many edits wait for each resource.
#![tactic(auto)]

ghost use Rattle.std.specs.Prelude.{◌≡◌, [], ◌∷◌, ◌++◌, ◌+◌, ◌≤◌, length};
ghost use Rattle.format.specs.Format.{option, list, number};
ghost use Rattle.lines.specs.Lines.{Puts};
ghost use Rattle.lent.specs.Lent.{part};
ghost use Rattle.model.specs.Limits.{document01};
ghost use Rattle.model.specs.Maps.{map, keys};
ghost use Rattle.model.specs.Formats.{short_text, u64};
ghost use Rattle.looks.specs.Look.{record_f, queue_f, counted, held_state, look_line};
ghost use Rattle.looks.specs.Writes.{Room, Shows, texted};

use access::Part;

// The bytes of the longest line.
pub const LOOK: usize = 19167;

// The digits of a list's count.
const COUNT: usize = 2;

fn part_of(state: &[u8], p: Part) -> &[u8]
    ensures { result.now ≡ part p.at p.length state.now }
{
    let at = p.at;
    let length = p.length;
    if state.len() < at {
        return &state[..0];
    }
    if state.len() - at < length {
        return &state[at..];
    }
    let end = at + length;
    &state[at..end]
}

fn put_byte(text: &mut [u8], at: usize, b: u8) -> usize
    requires { at + 2 ≤ length text.old }
    ensures { Shows (b ∷ []) text.old text.new at result }
{
    let byte: [u8; 1] = [b];
    lines::put_digits(text, at, &byte)
}

// A text: its length and its bytes.
fn put_text(text: &mut [u8], at: usize, bytes: &[u8]) -> usize
    requires { (length bytes.now ≤ 255) × Room (texted bytes.now) text.old at }
    ensures { Shows (texted bytes.now) text.old text.new at result }
{
    let first = put_byte(text, at, bytes.len() as u8);
    lines::put_digits(text, first, bytes)
}

// ---- the cursor

fn put_cursor(state: &[u8], text: &mut [u8], at: usize) -> usize
    requires { Room ((option short_text).enc (held_state state.now).cursor) text.old at }
    ensures { Shows ((option short_text).enc (held_state state.now).cursor) text.old text.new at result }
{
    let r = access::cursor(state);
    if !r.found {
        return put_byte(text, at, 0);
    }
    let some = put_byte(text, at, 1);
    put_text(text, some, part_of(state, r.text))
}

// ---- the records

fn put_record(state: &[u8], text: &mut [u8], at: usize, name: Part, event: Part) -> usize
    requires { (length (part name.at name.length state.now) ≤ 255) × Room (texted (part name.at name.length state.now) ++ part event.at event.length state.now) text.old at }
    ensures { Shows (texted (part name.at name.length state.now) ++ part event.at event.length state.now) text.old text.new at result }
{
    let named = put_text(text, at, part_of(state, name));
    lines::put_digits(text, named, part_of(state, event))
}

fn put_records(state: &[u8], text: &mut [u8], at: usize) -> usize
    requires { Room ((list document01.records record_f).enc (held_state state.now).records) text.old at }
    ensures { Shows ((list document01.records record_f).enc (held_state state.now).records) text.old text.new at result }
{
    let mut next = at + COUNT;
    let mut count: u8 = 0;
    loop {
        let r = access::record_at(state, count as usize);
        if !r.found {
            put_byte(text, at, count);
            return next;
        }
        next = put_record(state, text, next, r.name, r.event);
        count += 1;
    }
}

// ---- the numbers in flight

fn put_number(text: &mut [u8], at: usize, n: u64) -> usize
    requires { Room (u64.enc n) text.old at }
    ensures { Shows (u64.enc n) text.old text.new at result }
{
    lines::put_digits(text, at, &numbers::to_be(n))
}

fn put_flights(state: &[u8], text: &mut [u8], at: usize) -> usize
    requires { Room ((list document01.in_flight u64).enc (keys (held_state state.now).in_flight)) text.old at }
    ensures { Shows ((list document01.in_flight u64).enc (keys (held_state state.now).in_flight)) text.old text.new at result }
{
    let mut next = at + COUNT;
    let mut count: u8 = 0;
    loop {
        let r = access::in_flight_at(state, count as usize);
        if !r.found {
            put_byte(text, at, count);
            return next;
        }
        next = put_number(text, next, r.number);
        count += 1;
    }
}

// ---- the queues

// A name, and how many edits wait for it.
fn put_queue(state: &[u8], text: &mut [u8], at: usize, name: Part, count: usize) -> usize
    requires { (length (part name.at name.length state.now) ≤ 255) × Room (texted (part name.at name.length state.now) ++ (number 1).enc count) text.old at }
    ensures { Shows (texted (part name.at name.length state.now) ++ (number 1).enc count) text.old text.new at result }
{
    let named = put_text(text, at, part_of(state, name));
    put_byte(text, named, (count % 256) as u8)
}

fn put_queues(state: &[u8], text: &mut [u8], at: usize) -> usize
    requires { Room ((list document01.waiting queue_f).enc (map counted (held_state state.now).edits)) text.old at }
    ensures { Shows ((list document01.waiting queue_f).enc (map counted (held_state state.now).edits)) text.old text.new at result }
{
    let mut next = at + COUNT;
    let mut count: u8 = 0;
    loop {
        let r = access::queue_at(state, count as usize);
        if !r.found {
            put_byte(text, at, count);
            return next;
        }
        next = put_queue(state, text, next, r.name, r.count);
        count += 1;
    }
}

// ---- the line

// Writes the line at `at`, and answers the place after it.
pub fn put_look(state: &[u8], text: &mut [u8], at: usize) -> usize
    requires { at + length (look_line state.now) ≤ length text.old }
    ensures { Puts (look_line state.now) text.old text.new at result }
{
    let cursor = put_cursor(state, text, at);
    let records = put_records(state, text, cursor);
    let flights = put_flights(state, text, records);
    let end = put_queues(state, text, flights);
    text[end] = lines::LINE_FEED;
    end + 1
}
