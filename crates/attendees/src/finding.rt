// Finding an entry by its address.
ghost use Rattle.std.specs.Prelude.{◌≡◌, ◌&&◌, ◌+◌, ◌-◌, ◌<◌, eqb};
ghost use Rattle.attendees.specs.Entries.{one_if, occurrence_of, find_bytes, Shown};

use crate::entry_parts::{address, entry_count, entry_part};

// How many entries before the i-th have its folded address.
pub fn occurrence(list: &[u8], i: u8) -> u8
    ensures { result ≡ occurrence_of list.now i }
{
    let a = address(entry_part(list, i));
    let mut n: u8 = 0;
    let mut j: u8 = 0;
    while j < i {
        let e = address(entry_part(list, j));
        n = more_if(comparison::same_folded(e, a), n);
        j += 1;
    }
    n
}

fn more_if(b: bool, n: u8) -> u8
    requires { n < 255 }
    ensures { result ≡ n + one_if b }
{
    if b {
        return n + 1;
    }
    n
}

fn less_if(b: bool, n: u8) -> u8
    ensures { result ≡ n - one_if b }
{
    if b {
        if 0 < n {
            return n - 1;
        }
    }
    n
}

fn last_one(b: bool, n: u8) -> bool
    ensures { result ≡ (b && eqb n 0) }
{
    if b {
        return n == 0;
    }
    false
}

// The entry with a folded address and an occurrence.
pub fn find_entry<'a>(list: &'a [u8], wanted: &[u8], n: u8) -> &'a [u8]
    ensures { result.now ≡ find_bytes list.now wanted.now n }
{
    let count = entry_count(list);
    let mut left = n;
    let mut i: u8 = 0;
    while i < count {
        let e = entry_part(list, i);
        let hit = comparison::same_folded(address(e), wanted);
        if last_one(hit, left) {
            return e;
        }
        left = less_if(hit, left);
        i += 1;
    }
    &list[..0]
}

// The address to report for an entry: theirs' spelling where it has one, else ours', else base's.
pub fn display_address<'a>(base: &'a [u8], ours: &'a [u8], theirs: &'a [u8]) -> &'a [u8]
    ensures { Shown base.now ours.now theirs.now result.now }
{
    if 0 < theirs.len() {
        return address(theirs);
    }
    if 0 < ours.len() {
        return address(ours);
    }
    address(base)
}
