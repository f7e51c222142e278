// Where the entries of a queue stand, and whose queues there are.
ghost use Rattle.std.specs.Prelude.{length};
ghost use Rattle.model.specs.Maps.{keys, map};
ghost use Rattle.state.specs.Layout.{name_slot};
ghost use Rattle.state.specs.Contract.{HasState, Reads};
ghost use Rattle.state.specs.Values.{name_of, Named};
ghost use Rattle.waiting.specs.Queues.{below, queue, all_entries, slot_number};
ghost use Rattle.waiting.specs.Entries.{FindsEntry};

use crate::counting::tally_in;
use crate::slots::{EDITS, slot_at};
use names::{Name, NameList};
use std::cmp::Ordering;

// The entries of all queues.
pub fn entries(work: &[u8]) -> usize
    requires { HasState work.now }
    ensures { Reads all_entries work.now result }
{
    usize::from(work[EDITS.at])
}

// The entries of the resources before one: the number of its queue's first slot.
pub fn entries_before(work: &[u8], name: Name) -> usize
    requires has_state { HasState work.now }
    requires named { Named name.bytes }
    ensures { Reads (λ s. below (name_of name.bytes) s.edits) work.now result }
{
    tally_in(work, &name.bytes, Ordering::Less)
}

// The entries of one queue.
pub fn waiting_count(work: &[u8], name: Name) -> usize
    requires has_state { HasState work.now }
    requires named { Named name.bytes }
    ensures { Reads (λ s. length (queue (name_of name.bytes) s)) work.now result }
{
    tally_in(work, &name.bytes, Ordering::Equal)
}

// The number of the j-th entry's slot, if the queue has so many.
pub fn slot_number(work: &[u8], name: Name, j: usize) -> Option<usize>
    requires has_state { HasState work.now }
    requires named { Named name.bytes }
    ensures { Reads (slot_number (name_of name.bytes) j) work.now result }
{
    if waiting_count(work, name) <= j {
        return None;
    }
    Some(entries_before(work, name) + j)
}

// Where the j-th entry of a queue stands in the work buffer, counted from 0.
pub fn find_entry(work: &[u8], name: Name, j: usize) -> Option<usize>
    requires has_state { HasState work.now }
    requires named { Named name.bytes }
    ensures { FindsEntry (name_of name.bytes) j work.now result }
{
    let i = slot_number(work, name, j)?;
    Some(slot_at(i))
}

// The resources that have a queue, in order.
pub fn resources(work: &[u8]) -> NameList<6>
    requires { HasState work.now }
    ensures { Reads (λ s. map name_slot (keys s.edits)) work.now result }
{
    let total = entries(work);
    let mut names = NameList::new();
    let mut i = 0;
    // Kept: a turn goes over a whole queue, so no range has its places.
    while i < total {
        let name = names::name_at(work, slot_at(i));
        names.push(name);
        i += waiting_count(work, name);
    }
    names
}
