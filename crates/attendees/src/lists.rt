// The lists of all sides, merged.
ghost use Rattle.std.specs.Prelude.{◌≡◌};
ghost use Rattle.comparison.specs.Which.{number_of};
ghost use Rattle.pens.specs.Writing.{Listed};
ghost use Rattle.attendees.specs.Entries.{entry_count, own_of, key_items, our_key_items, their_items, our_items, entries_items};

use crate::entry_parts::{address, entry_count, entry_part};
use crate::finding::{find_entry, occurrence};
use crate::judging::judge;
use crate::reporting::entry;
use comparison::Which;
use pens::Sheet;

// Whether an entry is the writer's own, who is no owner.
fn is_own(owner: bool, me: &[u8], wanted: &[u8]) -> bool
    ensures { result ≡ own_of owner me.now wanted.now }
{
    if owner {
        return false;
    }
    comparison::same_folded(me, wanted)
}

fn entry_of<'a>(
    sheet: Sheet,
    out: &mut [u8],
    which: Which,
    owner: bool,
    me: &[u8],
    base: &'a [u8],
    ours: &'a [u8],
    theirs: &'a [u8],
    wanted: &[u8],
    n: u8,
) -> Sheet
    ensures { Listed out.old out.new sheet.pen sheet.count result.pen result.count (key_items (number_of which) owner me.now base.now ours.now theirs.now wanted.now n) }
{
    let b = find_entry(base, wanted, n);
    let o = find_entry(ours, wanted, n);
    let t = find_entry(theirs, wanted, n);
    let own = is_own(owner, me, wanted);
    let j = judge(own, owner, b, o, t);
    entry(sheet, out, which, j, b, o, t)
}

fn their_entries<'a>(
    sheet: Sheet,
    out: &mut [u8],
    which: Which,
    owner: bool,
    me: &[u8],
    base: &'a [u8],
    ours: &'a [u8],
    theirs: &'a [u8],
) -> Sheet
    ensures { Listed out.old out.new sheet.pen sheet.count result.pen result.count (their_items (number_of which) owner me.now base.now ours.now theirs.now (entry_count theirs.now)) }
{
    let mut h = sheet;
    let count = entry_count(theirs);
    let mut i: u8 = 0;
    while i < count {
        let wanted = address(entry_part(theirs, i));
        let n = occurrence(theirs, i);
        h = entry_of(h, out, which, owner, me, base, ours, theirs, wanted, n);
        i += 1;
    }
    h
}

fn our_entry<'a>(
    sheet: Sheet,
    out: &mut [u8],
    which: Which,
    owner: bool,
    me: &[u8],
    base: &'a [u8],
    ours: &'a [u8],
    theirs: &'a [u8],
    wanted: &[u8],
    n: u8,
) -> Sheet
    ensures { Listed out.old out.new sheet.pen sheet.count result.pen result.count (our_key_items (number_of which) owner me.now base.now ours.now theirs.now wanted.now n) }
{
    let t = find_entry(theirs, wanted, n);
    if 0 < t.len() {
        return sheet;
    }
    entry_of(sheet, out, which, owner, me, base, ours, theirs, wanted, n)
}

fn our_entries<'a>(
    sheet: Sheet,
    out: &mut [u8],
    which: Which,
    owner: bool,
    me: &[u8],
    base: &'a [u8],
    ours: &'a [u8],
    theirs: &'a [u8],
) -> Sheet
    ensures { Listed out.old out.new sheet.pen sheet.count result.pen result.count (our_items (number_of which) owner me.now base.now ours.now theirs.now (entry_count ours.now)) }
{
    let mut h = sheet;
    let count = entry_count(ours);
    let mut i: u8 = 0;
    while i < count {
        let wanted = address(entry_part(ours, i));
        let n = occurrence(ours, i);
        h = our_entry(h, out, which, owner, me, base, ours, theirs, wanted, n);
        i += 1;
    }
    h
}

// The attendees' lists, merged: theirs' order, then ours not in theirs.
pub fn entries<'a>(
    sheet: Sheet,
    out: &mut [u8],
    which: u8,
    owner: bool,
    me: &[u8],
    base: &'a [u8],
    ours: &'a [u8],
    theirs: &'a [u8],
) -> Sheet
    ensures { Listed out.old out.new sheet.pen sheet.count result.pen result.count (entries_items which owner me.now base.now ours.now theirs.now) }
{
    let asked = Which::of(which);
    let h = their_entries(sheet, out, asked, owner, me, base, ours, theirs);
    our_entries(h, out, asked, owner, me, base, ours, theirs)
}
