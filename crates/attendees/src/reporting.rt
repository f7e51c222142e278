// An entry on the sheet: its value, its conflict, what is refused of it.
ghost use Rattle.std.specs.Prelude.{[], ◌∷◌};
ghost use Rattle.comparison.specs.Which.{number_of};
ghost use Rattle.pens.specs.Writing.{Wrote, Listed};
ghost use Rattle.attendees.specs.Entries.{entry_value_items, side_bytes, entry_conflict, entry_refused, entry_items};

use crate::entry_parts::{head, kind};
use crate::finding::display_address;
use crate::judging::Judged;
use comparison::Which;
use pens::{Pen, Sheet};

// Writes an entry with a reply.
fn entry_value(sheet: Sheet, out: &mut [u8], entry: &[u8], reply: u8) -> Sheet
    ensures { Listed out.old out.new sheet.pen sheet.count result.pen result.count (entry_value_items entry.now reply) }
{
    let pen = sheet.pen;
    let count = sheet.count;
    if entry.len() == 0 {
        return sheet;
    }
    let p = pen
        .part(out, head(entry))
        .byte(out, reply)
        .byte(out, kind(entry));
    let n = pens::more(count);
    Sheet { pen: p, count: n }
}

// One side's entry as a field's value.
fn side(pen: Pen, out: &mut [u8], entry: &[u8]) -> Pen
    ensures { Wrote out.old out.new pen result (side_bytes entry.now) }
{
    let p = pen.byte(out, 4);
    if entry.len() == 0 {
        return p.byte(out, 0);
    }
    p.byte(out, 1).part(out, entry)
}

fn entry_conflict<'a>(sheet: Sheet, out: &mut [u8], b: &'a [u8], o: &'a [u8], t: &'a [u8]) -> Sheet
    ensures { Listed out.old out.new sheet.pen sheet.count result.pen result.count (entry_conflict b.now o.now t.now ∷ []) }
{
    let pen = sheet.pen;
    let count = sheet.count;
    let p = pen
        .byte(out, 4)
        .byte(out, 1)
        .text(out, display_address(b, o, t));
    let x = side(p, out, b);
    let y = side(x, out, o);
    let q = side(y, out, t);
    let n = pens::more(count);
    Sheet { pen: q, count: n }
}

fn entry_refused<'a>(sheet: Sheet, out: &mut [u8], b: &'a [u8], o: &'a [u8], t: &'a [u8]) -> Sheet
    ensures { Listed out.old out.new sheet.pen sheet.count result.pen result.count (entry_refused b.now o.now t.now ∷ []) }
{
    let pen = sheet.pen;
    let count = sheet.count;
    let p = pen
        .byte(out, 4)
        .byte(out, 1)
        .text(out, display_address(b, o, t));
    let n = pens::more(count);
    Sheet { pen: p, count: n }
}

#[tactic(auto, unfolding(crate::specs::Entries::entry_items))]
pub fn entry<'a>(
    sheet: Sheet,
    out: &mut [u8],
    which: Which,
    j: Judged,
    b: &'a [u8],
    o: &'a [u8],
    t: &'a [u8],
) -> Sheet
    ensures { Listed out.old out.new sheet.pen sheet.count result.pen result.count (entry_items (number_of which) j b.now o.now t.now) }
{
    match which {
        Which::Merged if j.ours => entry_value(sheet, out, o, j.reply),
        Which::Merged => entry_value(sheet, out, t, j.reply),
        Which::Conflicts if j.conflict => entry_conflict(sheet, out, b, o, t),
        Which::Refused if j.refused => entry_refused(sheet, out, b, o, t),
        _ => sheet,
    }
}
