// Reading an entry: each reader says what no entry gives where the queue has not so many.
ghost use Rattle.std.specs.Prelude.{◌≡◌, ◌+◌, ◌≤◌, ◌<◌, length, take, drop, get_or};
ghost use Rattle.model.specs.Maps.{is_some_and};
ghost use Rattle.model.specs.Sync.{due};
ghost use Rattle.state.specs.Layout.{padded};
ghost use Rattle.state.specs.Contract.{HasState, Reads};
ghost use Rattle.state.specs.Values.{name_of, Named};
ghost use Rattle.waiting.specs.Queues.{nth, queue};
ghost use Rattle.waiting.specs.Reading.{entry_byte, operation_case_of, by_attendee, expiry_of, ids_number, ReadsId};

use crate::finding::find_entry;
use crate::folding::texts_end;
use crate::slots::{ABSORBED, ABSORBED_IDS, COLLIDED, EXPIRY, ID, OPERATION, ROLE};
use names::Name;

// What an operation does to the event.
#[derive(Clone, Copy, PartialEq, Eq, Debug)]
pub enum OperationCase {
    Create,
    Update,
    Delete,
}

// The byte at `o` of an entry's slot.
fn entry_byte(work: &[u8], name: Name, j: usize, o: usize) -> Option<u8>
    requires has_state { HasState work.now }
    requires named { (Named name.bytes) × (o < 5940) }
    ensures { Reads (λ s. entry_byte (name_of name.bytes) o (nth j (queue (name_of name.bytes) s))) work.now result }
{
    let Some(at) = find_entry(work, name, j) else {
        return None;
    };
    Some(work[at + o])
}

// The case of its operation.
pub fn operation_case(work: &[u8], name: Name, j: usize) -> Option<OperationCase>
    requires has_state { HasState work.now }
    requires named { Named name.bytes }
    ensures { Reads (λ s. operation_case_of (nth j (queue (name_of name.bytes) s))) work.now result }
{
    match entry_byte(work, name, j, OPERATION.at)? {
        0 => Some(OperationCase::Create),
        1 => Some(OperationCase::Update),
        _ => Some(OperationCase::Delete),
    }
}

// Whether it is an attendee's.
pub fn is_attendee(work: &[u8], name: Name, j: usize) -> bool
    requires has_state { HasState work.now }
    requires named { Named name.bytes }
    ensures { Reads (λ s. is_some_and (λ p. by_attendee p.edit.role) (nth j (queue (name_of name.bytes) s))) work.now result }
{
    entry_byte(work, name, j, ROLE.at).is_some_and(|role| role == 1)
}

// Whether it has collided.
pub fn is_collided(work: &[u8], name: Name, j: usize) -> bool
    requires has_state { HasState work.now }
    requires named { Named name.bytes }
    ensures { Reads (λ s. is_some_and (λ p. p.collided) (nth j (queue (name_of name.bytes) s))) work.now result }
{
    entry_byte(work, name, j, COLLIDED.at).is_some_and(|collided| collided == 1)
}

// The time of its expiry.
pub fn expiry(work: &[u8], name: Name, j: usize) -> Option<i64>
    requires has_state { HasState work.now }
    requires named { Named name.bytes }
    ensures { Reads (λ s. expiry_of (nth j (queue (name_of name.bytes) s))) work.now result }
{
    let at = find_entry(work, name, j)? + EXPIRY.at;
    if work[at] == 0 {
        return None;
    }
    Some(numbers::get_be(work, at + 1).cast_signed())
}

// Whether it is due at a time.
pub fn is_due(work: &[u8], name: Name, j: usize, at: i64) -> bool
    requires has_state { HasState work.now }
    requires named { Named name.bytes }
    ensures { Reads (λ s. is_some_and (λ p. due at p.edit) (nth j (queue (name_of name.bytes) s))) work.now result }
{
    expiry(work, name, j).is_some_and(|expires| expires <= at)
}

// How many ids it has: its own and those that it has absorbed.
pub fn ids_count(work: &[u8], name: Name, j: usize) -> usize
    requires has_state { HasState work.now }
    requires named { Named name.bytes }
    ensures { Reads (λ s. ids_number (nth j (queue (name_of name.bytes) s))) work.now result }
{
    match entry_byte(work, name, j, ABSORBED.at) {
        Some(absorbed) => 1 + usize::from(absorbed),
        None => 0,
    }
}

// The text at `at` by value.
fn text_name(src: &[u8], at: usize) -> Name
    requires { (at < length src.now) × (get_or src.now at 0 ≤ 32) × (at + (1 + get_or src.now at 0) ≤ length src.now) }
    ensures { result.bytes ≡ padded 33 (take (1 + get_or src.now at 0) (drop at src.now)) }
{
    let end = at + (1 + usize::from(src[at]));
    let mut bytes = [0; 33];
    spans::copy_into(&mut bytes, &src[at..end]);
    Name { bytes }
}

// The k-th of its ids, counted from 0: first its own.
pub fn entry_id(work: &[u8], name: Name, j: usize, k: usize) -> Name
    requires has_state { HasState work.now }
    requires named { Named name.bytes }
    ensures { ReadsId (name_of name.bytes) j k work.now result.bytes }
{
    let Some(p) = find_entry(work, name, j) else {
        return Name { bytes: [0; 33] };
    };
    if k == 0 {
        return text_name(work, p + ID.at);
    }
    if usize::from(work[p + ABSORBED.at]) < k {
        return Name { bytes: [0; 33] };
    }
    let at = texts_end(work, p + ABSORBED_IDS, k - 1);
    text_name(work, at)
}
