// The frame by the places of its parts: the event, at the front, and each party's role and wanted event.
ghost use Rattle.std.specs.Prelude.{◌≡◌, drop};
ghost use Rattle.model.specs.Formats.{role_f, fields_f};
ghost use Rattle.frame.specs.Read.{skips};
ghost use Rattle.clerks_bytes.specs.Frames.{ends_at, Reads};

use frame::Cursor;

// The parties' numbers: their places in the frame.
const ONE: u8 = 1;

const TWO: u8 = 2;

#[derive(Clone, Copy)]
pub struct Party {
    pub number: u8,
    // the places of the role and of the wanted event
    pub role: usize,
    pub wanted: usize,
}

#[derive(Clone, Copy)]
pub struct Clerks {
    // the bytes are exactly that frame
    pub ok: bool,
    pub one: Party,
    pub two: Party,
}

#[derive(Clone, Copy)]
struct PartyRead {
    party: Party,
    next: Cursor,
}

fn read_party(c: Cursor, frame: &[u8], number: u8) -> PartyRead
    ensures { result ≡ record { party = record { number = number; role = c.at; wanted = (skips role_f frame.now c).at }; next = skips fields_f frame.now (skips role_f frame.now c) } }
{
    let role = c.at;
    let who = c.role(frame);
    let after = who.next;
    let wanted = after.at;
    let next = after.skip_fields(frame);
    PartyRead {
        party: Party {
            number,
            role,
            wanted,
        },
        next,
    }
}

// Whether the frame ends at a place.
fn ends(frame: &[u8], c: Cursor) -> bool
    ensures { result ≡ ends_at frame.now c }
{
    if !c.ok {
        return false;
    }
    c.at == frame.len()
}

pub fn clerks_in(frame: &[u8]) -> Clerks
    ensures { Reads frame.now result }
{
    let event = frame::event_in(frame);
    let first = read_party(event, frame, ONE);
    let one = first.party;
    let after = first.next;
    let second = read_party(after, frame, TWO);
    let two = second.party;
    let end = second.next;
    let ok = ends(frame, end);
    Clerks { ok, one, two }
}

// The bytes from a place on.
pub fn from(frame: &[u8], at: usize) -> &[u8]
    ensures { result.now ≡ drop at frame.now }
{
    if frame.len() < at {
        return &frame[..0];
    }
    &frame[at..]
}
