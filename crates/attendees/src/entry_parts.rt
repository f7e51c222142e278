// The entries of a list. An entry is what comes before the reply, the reply, and the kind.
ghost use Rattle.std.specs.Prelude.{◌≡◌};
ghost use Rattle.attendees.specs.Entries.{entry_count, entry_at, entry_bytes, address_of, head_of, reply_of, kind_of, same_rest};

use frame::{Cursor, MAX_ATTENDEES, MAX_TEXT};

pub fn entry_count(list: &[u8]) -> u8
    ensures { result ≡ entry_count list.now }
{
    let c = Cursor { at: 0, ok: true }.count(list, MAX_ATTENDEES);
    c.value
}

fn entry_at(list: &[u8], i: u8) -> Cursor
    ensures { result ≡ entry_at list.now i }
{
    let count = Cursor { at: 0, ok: true }.count(list, MAX_ATTENDEES);
    let mut c = count.next;
    let mut j: u8 = 0;
    while j < i {
        c = c.skip_attendee(list);
        j += 1;
    }
    c
}

// The i-th entry, or no bytes past the last.
pub fn entry_part(list: &[u8], i: u8) -> &[u8]
    ensures { result.now ≡ entry_bytes list.now i }
{
    if entry_count(list) <= i {
        return &list[..0];
    }
    let c = entry_at(list, i);
    let e = c.skip_attendee(list);
    let from = c.at;
    let to = e.at;
    comparison::part(list, from, to)
}

pub fn address(entry: &[u8]) -> &[u8]
    ensures { result.now ≡ address_of entry.now }
{
    frame::text_part(entry, MAX_TEXT)
}

pub fn head(entry: &[u8]) -> &[u8]
    ensures { result.now ≡ head_of entry.now }
{
    if entry.len() < 2 {
        return &entry[..0];
    }
    let n = entry.len() - 2;
    &entry[..n]
}

pub fn reply(entry: &[u8]) -> u8
    ensures { result ≡ reply_of entry.now }
{
    if entry.len() < 2 {
        return 0;
    }
    entry[entry.len() - 2]
}

pub fn kind(entry: &[u8]) -> u8
    ensures { result ≡ kind_of entry.now }
{
    if entry.len() < 2 {
        return 0;
    }
    entry[entry.len() - 1]
}

pub fn same_rest(a: &[u8], b: &[u8]) -> bool
    ensures { result ≡ same_rest a.now b.now }
{
    if comparison::same(head(a), head(b)) {
        return kind(a) == kind(b);
    }
    false
}
