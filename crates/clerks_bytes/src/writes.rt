// The two writes, and the line of their order.
ghost use Rattle.std.specs.Prelude.{◌≡◌};
ghost use Rattle.clerks_bytes.specs.Names.{order_of};
ghost use Rattle.clerks_bytes.specs.Writes.{WritesFirst, Exceeds, AnyExceeds, WritesLine};

use crate::entries::list_of;
use crate::frames::{Clerks, Party, from};
use crate::names::{Order, unit_names};
use frame::MAX_ATTENDEES;
use pens::Pen;

// The event after the first write, in the work buffer.
fn first_write(work: &mut [u8], frame: &[u8], p: Party)
    ensures { WritesFirst frame.now p work.old work.new }
{
    let pen = Pen { at: 0, ok: true };
    let base = merge::fields_of(frame);
    let wanted = from(frame, p.wanted);
    let role = from(frame, p.role);
    merge::merged_event(pen, work, base, wanted, frame, role);
}

// Whether the second write has too many attendees. The first never has: its base is what stands at the provider.
fn exceeds(work: &mut [u8], frame: &[u8], p: Party, q: Party) -> bool
    ensures { Exceeds frame.now p q work.old work.new result }
{
    first_write(work, frame, p);
    let base = merge::fields_of(frame);
    let wanted = from(frame, q.wanted);
    let role = from(frame, q.role);
    MAX_ATTENDEES < merge::merged_attendees(base, wanted, work, role)
}

// Whether it has, in either order.
pub fn too_many(work: &mut [u8], frame: &[u8], c: Clerks) -> bool
    ensures { AnyExceeds frame.now c work.old work.new result }
{
    let p = c.one;
    let q = c.two;
    if exceeds(work, frame, p, q) {
        return true;
    }
    exceeds(work, frame, q, p)
}

fn order(frame: &[u8], p: Party, q: Party) -> Order
    ensures { result ≡ order_of frame.now p q }
{
    let first_owner = merge::is_owner(from(frame, p.role));
    let second_owner = merge::is_owner(from(frame, q.role));
    Order {
        first: p.number,
        second: q.number,
        first_owner,
        second_owner,
    }
}

// Writes the line of an order: the event after both writes, and the names for its units.
pub fn line(out: &mut [u8], work: &mut [u8], frame: &[u8], c: Clerks, p: Party, q: Party) -> usize
    ensures { WritesLine frame.now c p q out.old out.new work.old work.new result }
{
    first_write(work, frame, p);
    let pen = Pen { at: 0, ok: true };
    let base = merge::fields_of(frame);
    let a = c.one;
    let b = c.two;
    let one = list_of(from(frame, a.wanted));
    let two = list_of(from(frame, b.wanted));
    let first = from(frame, p.role);
    let second = from(frame, q.role);
    let event = merge::merged_event(pen, out, base, from(frame, q.wanted), work, second);
    let who = order(frame, p, q);
    let end = unit_names(event, out, who, first, second, list_of(base), one, two);
    end.at
}
