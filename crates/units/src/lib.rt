// The units of an event's fields but its attendees: what each gives to the merged fields, to the conflicts and to the refused.
#![tactic(auto)]

ghost use Rattle.std.specs.Prelude.{◌≡◌, [], ◌∷◌, ◌-◌};
ghost use Rattle.comparison.specs.Bytes.{meant_verdict};
ghost use Rattle.comparison.specs.Which.{number_of};
ghost use Rattle.pens.specs.Writing.{Wrote, Listed};
ghost use Rattle.units.specs.Units.{value_item, conflict_items, refused_items, unit_items, owned_unit, skip_unit, unit_at, unit_bytes, units_items};

use comparison::{Verdict, Which};
use frame::Cursor;
use pens::{Pen, Sheet};

// The units of an event's fields, by their place: the attendees are the fifth.
pub const ATTENDEES: u8 = 4;

fn skip_unit(c: Cursor, s: &[u8], k: u8) -> Cursor
    ensures { result ≡ skip_unit k s.now c }
{
    if k == 0 {
        return c.skip_option_short_text(s);
    }
    if k == 1 {
        return c.skip_tag(s);
    }
    if k == 2 {
        return c.skip_option_tag(s);
    }
    if k == 3 {
        return c.skip_option_organizer(s);
    }
    if k == 4 {
        return c.skip_attendees(s);
    }
    if k == 5 {
        return c.skip_option_short_text(s);
    }
    if k == 6 {
        return c.skip_option_tag(s);
    }
    if k == 7 {
        return c.skip_below(s, 3);
    }
    if k == 8 {
        return c.skip_below(s, 2);
    }
    if k == 9 {
        return c.skip_below(s, 4);
    }
    c.skip_tag(s)
}

// The place of the k-th unit.
fn unit_at(s: &[u8], k: u8) -> Cursor
    ensures { result ≡ unit_at s.now k }
{
    let mut c = Cursor { at: 0, ok: true };
    let mut j: u8 = 0;
    while j < k {
        c = skip_unit(c, s, j);
        j += 1;
    }
    c
}

// The bytes of the k-th unit of the fields at the front.
pub fn unit_part(s: &[u8], k: u8) -> &[u8]
    ensures { result.now ≡ unit_bytes s.now k }
{
    let c = unit_at(s, k);
    let e = skip_unit(c, s, k);
    let from = c.at;
    let to = e.at;
    comparison::part(s, from, to)
}

// Writes what one unit, no attendee, has of the merged fields, of the conflicts or of the refused, by which is asked for.
#[tactic(auto, unfolding(crate::specs::Units::unit_items))]
fn unit(
    sheet: Sheet,
    out: &mut [u8],
    which: Which,
    k: u8,
    b: &[u8],
    o: &[u8],
    t: &[u8],
    owned: bool,
) -> Sheet
    ensures { Listed out.old out.new sheet.pen sheet.count result.pen result.count (unit_items (number_of which) k b.now o.now t.now owned) }
{
    let v = comparison::verdict_of(b, o, t, owned);
    match which {
        Which::Merged => unit_value(sheet, out, v, o, t),
        Which::Conflicts => unit_conflict(sheet, out, v, k, b, o, t),
        Which::Refused => unit_refused(sheet, out, v, k),
    }
}

fn unit_value(sheet: Sheet, out: &mut [u8], v: Verdict, o: &[u8], t: &[u8]) -> Sheet
    ensures { Listed out.old out.new sheet.pen sheet.count result.pen result.count (value_item (meant_verdict v) o.now t.now ∷ []) }
{
    let pen = sheet.pen;
    let count = sheet.count;
    if v == Verdict::Ours {
        let p = pen.part(out, o);
        let n = pens::more(count);
        return Sheet { pen: p, count: n };
    }
    let p = pen.part(out, t);
    let n = pens::more(count);
    Sheet { pen: p, count: n }
}

// One side's value of the k-th unit.
fn valued(pen: Pen, out: &mut [u8], k: u8, part: &[u8]) -> Pen
    ensures { Wrote out.old out.new pen result (k ∷ part.now) }
{
    let p = pen.byte(out, k);
    p.part(out, part)
}

fn unit_conflict(
    sheet: Sheet,
    out: &mut [u8],
    v: Verdict,
    k: u8,
    b: &[u8],
    o: &[u8],
    t: &[u8],
) -> Sheet
    ensures { Listed out.old out.new sheet.pen sheet.count result.pen result.count (conflict_items (meant_verdict v) k b.now o.now t.now) }
{
    let pen = sheet.pen;
    let count = sheet.count;
    if v != Verdict::Conflict {
        return sheet;
    }
    let p = pen.byte(out, k).byte(out, 0);
    let x = valued(p, out, k, b);
    let y = valued(x, out, k, o);
    let z = valued(y, out, k, t);
    let n = pens::more(count);
    Sheet { pen: z, count: n }
}

fn unit_refused(sheet: Sheet, out: &mut [u8], v: Verdict, k: u8) -> Sheet
    ensures { Listed out.old out.new sheet.pen sheet.count result.pen result.count (refused_items (meant_verdict v) k) }
{
    let pen = sheet.pen;
    let count = sheet.count;
    if v != Verdict::Refused {
        return sheet;
    }
    let p = pen.byte(out, k).byte(out, 0);
    let n = pens::more(count);
    Sheet { pen: p, count: n }
}

// The units from one to before another, in one walk over the three events.
pub fn units(
    sheet: Sheet,
    out: &mut [u8],
    which: u8,
    from: u8,
    to: u8,
    base: &[u8],
    ours: &[u8],
    theirs: &[u8],
    owner: bool,
) -> Sheet
    ensures { Listed out.old out.new sheet.pen sheet.count result.pen result.count (units_items which owner base.now ours.now theirs.now from (to - from)) }
{
    let asked = Which::of(which);
    let mut b = unit_at(base, from);
    let mut o = unit_at(ours, from);
    let mut t = unit_at(theirs, from);
    let mut h = sheet;
    let mut k = from;
    while k < to {
        let next = k + 1;
        let owned = owned_unit(owner, k);
        let b_end = skip_unit(b, base, k);
        let o_end = skip_unit(o, ours, k);
        let t_end = skip_unit(t, theirs, k);
        h = unit(
            h,
            out,
            asked,
            k,
            comparison::part(base, b.at, b_end.at),
            comparison::part(ours, o.at, o_end.at),
            comparison::part(theirs, t.at, t_end.at),
            owned,
        );
        b = b_end;
        o = o_end;
        t = t_end;
        k = next;
    }
    h
}

// Reminders are always owned.
fn owned_unit(owner: bool, k: u8) -> bool
    ensures { result ≡ owned_unit owner k }
{
    if k == 10 {
        return true;
    }
    owner
}
