// Two clerks, one booking, over lent bytes: who can force what of a booking that two parties write to, in either order of their writes.
#![tactic(auto)]

mod entries;
mod frames;
mod names;
mod writes;

ghost use Rattle.std.specs.Prelude.{◌≡◌, length};
ghost use Rattle.clerks_bytes.specs.Writes.{line_bytes, work_bytes};
ghost use Rattle.clerks_bytes.specs.Returned.{lengths_right, asked, Fills};

pub use entries::{list_of, stands};
use frame::MAX_EVENT;
pub use frames::{Clerks, Party, clerks_in, from};
use names::MAX_UNITS;

// The one length of each line's buffer: the longest event, and a byte a unit.
pub const LINE: usize = MAX_EVENT + MAX_UNITS;

// The one length of the work buffer: the longest event.
pub const WORK: usize = MAX_EVENT;

// The refusals: a lent buffer's length is wrong, the bytes are not exactly that frame, a folded address stands twice in one list, a merge has too many
// attendees.
pub const WRONG_LENGTH: u8 = 1;

pub const NO_FRAME: u8 = 3;

pub const ADDRESS_TWICE: u8 = 10;

pub const TOO_MANY: u8 = 6;

#[derive(Clone, Copy)]
pub struct Told {
    // 0, or the refusal's number
    pub code: u8,
    // how many bytes of each buffer its line takes
    pub one: usize,
    pub two: usize,
}

fn refused(code: u8) -> Told
    ensures { result ≡ record { code = code; one = 0; two = 0 } }
{
    Told {
        code,
        one: 0,
        two: 0,
    }
}

fn lengths_right(one: &[u8], two: &[u8], work: &[u8]) -> bool
    ensures { result ≡ lengths_right one.now two.now work.now }
{
    if one.len() != LINE {
        return false;
    }
    if two.len() != LINE {
        return false;
    }
    work.len() == WORK
}

// Judges a frame, and writes its lines to the fronts of two buffers.
fn judge(frame: &[u8], one: &mut [u8], two: &mut [u8], work: &mut [u8]) -> Told
    requires { (length one.old ≡ line_bytes) × (length two.old ≡ line_bytes) × (length work.old ≡ work_bytes) }
    ensures { Fills frame.now one.old two.old one.new two.new result × (length work.new ≡ work_bytes) }
{
    let c = frames::clerks_in(frame);
    if !c.ok {
        return refused(NO_FRAME);
    }
    if entries::any_doubled(frame, c) {
        return refused(ADDRESS_TWICE);
    }
    if writes::too_many(work, frame, c) {
        return refused(TOO_MANY);
    }
    let p = c.one;
    let q = c.two;
    let a = writes::line(one, work, frame, c, p, q);
    let b = writes::line(two, work, frame, c, q, p);
    Told {
        code: 0,
        one: a,
        two: b,
    }
}

// What two clerks can force of one booking: `one` takes the line of the order in which the frame's first party writes first, `two` the other's.
pub fn two_clerks(frame: &[u8], one: &mut [u8], two: &mut [u8], work: &mut [u8]) -> Told
    ensures { record { code = result.code; one_length = result.one; two_length = result.two; one = one.new; two = two.new; work = work.new } ≡ asked frame.now one.old two.old work.old }
{
    if !lengths_right(one, two, work) {
        return refused(WRONG_LENGTH);
    }
    spans::zero(one);
    spans::zero(two);
    let told = judge(frame, one, two, work);
    spans::zero(work);
    told
}
