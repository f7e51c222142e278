// The step in progress: the work buffer, the output, and how far the step has come. Effects and requests, and what is learned.
#![tactic(auto)]

ghost use Rattle.std.specs.Prelude.{◌≡◌, cond, ◌||◌, ◌<◌, length, eqb, ltb};
ghost use Rattle.tables.specs.Table.{text};
ghost use Rattle.model.specs.Seam.{Request};
ghost use Rattle.model.specs.Calls.{Notice, Effect};
ghost use Rattle.model.specs.Formats.{resource_id};
ghost use Rattle.model.specs.Maps.{by_name, get, is_some_and};
ghost use Rattle.model.specs.Machine.{request};
ghost use Rattle.model.specs.Sync.{learn, describe};
ghost use Rattle.frame.specs.Meaning.{meant_outcome};
ghost use Rattle.state.specs.Contract.{HasState, Reads};
ghost use Rattle.state.specs.Values.{name_of, Named, NamedIn, purpose_in};
ghost use Rattle.machine.specs.Contract.{Does, Changes, Pushes};
ghost use Rattle.machine.specs.Steps.{pen_of, refusal, unless, sent_by, tried_by, reserve};

use frame::Outcome;
use names::Name;
use pens::Pen;
use state::Purpose;

// How far a step has come: 0 or its refusal, and where the next effect goes.
#[derive(Clone, Copy)]
pub struct Progress {
    pub code: u8,
    pub at: usize,
}

// Where the next effect goes; stopped where the step is refused.
pub fn pen_of(p: Progress) -> Pen
    ensures { result ≡ pen_of p }
{
    let at = p.at;
    let ok = p.code == 0;
    Pen { at, ok }
}

// A refusal, unless there was one before.
pub fn refuse(p: Progress, code: u8) -> Progress
    ensures { result ≡ unless p (refusal code) }
{
    if p.code != 0 {
        return p;
    }
    Progress { code, at: 0 }
}

// After an effect.
pub fn sent(p: Progress, pen: Pen) -> Progress
    ensures { result ≡ sent_by p pen }
{
    if p.code != 0 {
        return p;
    }
    if pen.ok {
        let at = pen.at;
        return Progress { code: 0, at };
    }
    Progress { code: 7, at: 0 }
}

// After an insert into a table.
pub fn tried(p: Progress, within: bool) -> Progress
    ensures { result ≡ tried_by p within }
{
    if p.code != 0 {
        return p;
    }
    if within {
        return p;
    }
    Progress { code: 5, at: 0 }
}

// The text of a name in its 33 bytes.
pub fn text_of(key: &[u8]) -> &[u8]
    requires { 0 < length key.now }
    ensures { result.now ≡ text key.now }
{
    let end = tables::text_len(key) + 1;
    &key[1..end]
}

// A name by value.
pub fn name_from(text: &[u8]) -> Name
    requires { resource_id.Ok text.now }
    ensures { (name_of result.bytes ≡ text.now) × Named result.bytes }
{
    let mut bytes = [0u8; 33];
    let start = Pen { at: 0, ok: true };
    let end = start.text(&mut bytes, text);
    Name { bytes }
}

// Notices

pub fn tell_synced(out: &mut [u8], p: Progress) -> Progress
    ensures { Pushes (Effect.Notify Notice.Synced) out.old p result out.new }
{
    let pen = effects::synced(pen_of(p), out);
    sent(p, pen)
}

pub fn tell_listing_failed(out: &mut [u8], p: Progress, frame: &[u8], outcome: Outcome) -> Progress
    ensures { Pushes (Effect.Notify (Notice.ListingFailed (describe (meant_outcome frame.now outcome)))) out.old p result out.new }
{
    let pen = effects::listing_failed_by(pen_of(p), out, frame, outcome);
    sent(p, pen)
}

pub fn tell_remapped(out: &mut [u8], p: Progress, from: Name, to: Name) -> Progress
    requires { (Named from.bytes) × (Named to.bytes) }
    ensures { Pushes (Effect.Notify (Notice.Remapped (name_of from.bytes) (name_of to.bytes))) out.old p result out.new }
{
    let a = from.bytes;
    let b = to.bytes;
    let pen = effects::remapped(pen_of(p), out, text_of(&a), text_of(&b));
    sent(p, pen)
}

// Requests

// `request` up to its last line: a number, and its place among those in flight.
pub fn reserve(work: &mut [u8], p: Progress, purpose: Purpose) -> Progress
    requires has_state { HasState work.old }
    requires named { NamedIn purpose }
    ensures { Changes (reserve (purpose_in purpose)) work.old p result work.new }
{
    let id = state::next_request(work);
    if id == 0xffff_ffff_ffff_ffff {
        return refuse(p, 4);
    }
    state::set_next_request(work, id + 1);
    let within = state::add_in_flight(work, id, purpose);
    tried(p, within)
}

pub fn request_read(
    work: &mut [u8],
    out: &mut [u8],
    p: Progress,
    purpose: Purpose,
    name: Name,
) -> Progress
    requires has_state { HasState work.old }
    requires named { (NamedIn purpose) × (Named name.bytes) }
    ensures { Does (request (purpose_in purpose) (Request.Read (name_of name.bytes))) work.old out.old p result work.new out.new }
{
    let id = state::next_request(work);
    let q = reserve(work, p, purpose);
    let key = name.bytes;
    let pen = effects::read(pen_of(q), out, id, text_of(&key));
    sent(q, pen)
}

// Ordering: replies come in any order, and only the requests' numbers tell which is the newer. What is learned of a resource has the number
// of the next request then. A reply to a lower number may be older than that, so it is doubted; one to the same number is not.

// SyncState::learn
pub fn learn(work: &mut [u8], p: Progress, name: Name) -> Progress
    requires has_state { HasState work.old }
    requires named { Named name.bytes }
    ensures { Changes (learn (name_of name.bytes)) work.old p result work.new }
{
    let next = state::next_request(work);
    let within = state::learn(work, name, next);
    tried(p, within)
}

// SyncState::doubtful
pub fn doubtful(work: &[u8], id: u64, name: Name) -> bool
    requires has_state { HasState work.now }
    requires named { Named name.bytes }
    ensures { Reads (λ s. ltb id s.learned_all || is_some_and (λ since. ltb id since) (get by_name (name_of name.bytes) s.learned)) work.now result }
{
    if id < state::learned_all(work) {
        return true;
    }
    match state::learned(work, name) {
        None => false,
        Some(n) => id < n,
    }
}
