// The bytes that name a party for each unit.
ghost use Rattle.std.specs.Prelude.{◌≡◌, replicate};
ghost use Rattle.pens.specs.Writing.{Wrote};
ghost use Rattle.attendees.specs.Entries.{entry_count};
ghost use Rattle.clerks_bytes.specs.Names.{pick, field_name, rest_name, reply_name, own_there_in, entry_names, new_name, new_names, unit_names};

use crate::entries::stands;
use frame::MAX_ATTENDEES;
use pens::Pen;

// The fields before the attendees' entries, those behind them, and the most units of a frame: two for each entry of three lists.
const BEFORE: usize = 4;

const BEHIND: usize = 6;

const MAX_ENTRIES: usize = 3 * (MAX_ATTENDEES as usize);

pub const MAX_UNITS: usize = BEFORE + 2 * MAX_ENTRIES + BEHIND;

// Who writes first and second: their numbers in the frame, and whether they are owners.
#[derive(Clone, Copy)]
pub struct Order {
    pub first: u8,
    pub second: u8,
    pub first_owner: bool,
    pub second_owner: bool,
}

impl Order {
    // The party that can: the first to write if both, 0 if neither.
    fn named(self, first: bool, second: bool) -> u8
        ensures { result ≡ pick self first second }
    {
        if first {
            return self.first;
        }
        if second {
            return self.second;
        }
        0
    }

    // Of a field but the reminders: only an owner can.
    fn field(self) -> u8
        ensures { result ≡ field_name self }
    {
        self.named(self.first_owner, self.second_owner)
    }

    // Of the rest of an entry. The first's own reply keeps the entry as it was, so a second owner cannot.
    fn rest(self, own: bool) -> u8
        ensures { result ≡ rest_name self own }
    {
        if own {
            return self.named(self.first_owner, false);
        }
        self.field()
    }

    // Of an entry's reply: an owner or the attendee whose own entry it is can.
    fn reply(self, own: bool, other: bool) -> u8
        ensures { result ≡ reply_name self own other }
    {
        if own {
            return self.first;
        }
        if other {
            return self.named(self.first_owner, true);
        }
        self.field()
    }
}

// Whether a role is an attendee's whose own entry has this address and stands in the list.
fn own_there(role: &[u8], list: &[u8], address: &[u8]) -> bool
    ensures { result ≡ own_there_in role.now list.now address.now }
{
    if merge::is_owner(role) {
        return false;
    }
    if comparison::same_folded(merge::writer(role), address) {
        return stands(list, address);
    }
    false
}

// Names for an entry's two units. The list is the event's, p and q are the roles in the order of the writes.
fn entry_names<'a>(
    pen: Pen,
    out: &mut [u8],
    order: Order,
    p: &'a [u8],
    q: &'a [u8],
    list: &'a [u8],
    address: &'a [u8],
) -> Pen
    ensures { Wrote out.old out.new pen result (entry_names order p.now q.now list.now address.now) }
{
    let first = own_there(p, list, address);
    let second = own_there(q, list, address);
    let rest = order.rest(first);
    let reply = order.reply(first, second);
    pen.byte(out, rest).byte(out, reply)
}

// Names for an entry that neither of two lists has.
fn new_entry<'a>(
    pen: Pen,
    out: &mut [u8],
    order: Order,
    p: &'a [u8],
    q: &'a [u8],
    list: &'a [u8],
    before: &'a [u8],
    also: &'a [u8],
    address: &'a [u8],
) -> Pen
    ensures { Wrote out.old out.new pen result (new_name order p.now q.now list.now before.now also.now address.now) }
{
    if stands(before, address) {
        return pen;
    }
    if stands(also, address) {
        return pen;
    }
    entry_names(pen, out, order, p, q, list, address)
}

// Names for the entries that neither of two lists has.
fn new_entries<'a>(
    pen: Pen,
    out: &mut [u8],
    order: Order,
    p: &'a [u8],
    q: &'a [u8],
    list: &'a [u8],
    before: &'a [u8],
    also: &'a [u8],
    entries: &'a [u8],
) -> Pen
    ensures { Wrote out.old out.new pen result (new_names order p.now q.now list.now before.now also.now entries.now (entry_count entries.now)) }
{
    let mut next = pen;
    let count = attendees::entry_count(entries);
    let mut i: u8 = 0;
    while i < count {
        let address = attendees::address(attendees::entry_part(entries, i));
        next = new_entry(next, out, order, p, q, list, before, also, address);
        i += 1;
    }
    next
}

// A name so many times.
fn repeated(pen: Pen, out: &mut [u8], name: u8, times: usize) -> Pen
    ensures { Wrote out.old out.new pen result (replicate times name) }
{
    let mut next = pen;
    let mut i = 0;
    while i < times {
        next = next.byte(out, name);
        i += 1;
    }
    next
}

// Names for every unit: the event's list, then the new entries of the parties' lists in frame order.
pub fn unit_names<'a>(
    pen: Pen,
    out: &mut [u8],
    order: Order,
    p: &'a [u8],
    q: &'a [u8],
    list: &'a [u8],
    one: &'a [u8],
    two: &'a [u8],
) -> Pen
    ensures { Wrote out.old out.new pen result (unit_names order p.now q.now list.now one.now two.now) }
{
    let none = &list[..0];
    let field = order.field();
    let head = repeated(pen, out, field, BEFORE);
    let base = new_entries(head, out, order, p, q, list, none, none, list);
    let first = new_entries(base, out, order, p, q, list, list, none, one);
    let second = new_entries(first, out, order, p, q, list, list, one, two);
    let behind = repeated(second, out, field, BEHIND - 1);
    behind.byte(out, order.first)
}
