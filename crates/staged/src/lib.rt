// The staged entries of the open pass: a name, and what the listing said of it.
#![tactic(auto)]

ghost use Rattle.std.specs.Prelude.{◌≡◌, ◌∷◌, ◌≤◌, ◌<◌, length, get_or};
ghost use Rattle.model.specs.Event.{ProviderEvent};
ghost use Rattle.model.specs.State as model;
ghost use Rattle.model.specs.Maps.{by_name, any, get, values, is_some_and};
ghost use Rattle.model.specs.Sync.{is_unread};
ghost use Rattle.model.specs.Formats.{event_f};
ghost use Rattle.model.specs.SavedForm.{staged_f};
ghost use Rattle.state.specs.Layout.{name_slot};
ghost use Rattle.state.specs.Contract.{HasState, Reads, Edits, Tries};
ghost use Rattle.state.specs.Values.{name_of, Named};
ghost use Rattle.records.specs.Events.{IsEvent};
ghost use Rattle.staged.specs.Staging.{staged_of, may_stage, with_stage, without_stage, staged_at, StagedAt};

use lent::Region;
use names::Name;

// What is staged of a name: an event, by where it stands in the work buffer, an entry still to be read, or a removed one.
#[derive(Clone, Copy)]
pub enum Staged {
    Present(usize),
    Unread,
    Removed,
}

pub const STAGED: Region = Region {
    at: 9221,
    length: 9161,
    stride: 916,
    limit: 10,
};

pub fn staged_count(work: &[u8]) -> usize
    requires { HasState work.now }
    ensures { Reads (λ s. length (staged_of s)) work.now result }
{
    usize::from(work[STAGED.at])
}

// Stages a case, and the event behind it; false if that takes one entry more than the limit. Nothing is done where no pass is open.
fn stage(work: &mut [u8], name: Name, case: u8, event: &[u8]) -> bool
    requires has_state { HasState work.old }
    requires named { Named name.bytes }
    requires short { length event.now ≤ 882 }
    ensures { (v : model.Staged) → staged_f.Ok v → case ∷ event.now ≡ staged_f.enc v → Tries (may_stage (name_of name.bytes) v) (with_stage (name_of name.bytes) v) work.old result work.new }
{
    if !pass_tables::is_open(work) {
        return true;
    }
    let key: [u8; 34] = state::slot(&name.bytes, &[case]);
    let slot: [u8; 916] = state::slot(&key, event);
    STAGED.insert(work, &slot)
}

pub fn stage_unread(work: &mut [u8], name: Name) -> bool
    requires has_state { HasState work.old }
    requires named { Named name.bytes }
    ensures { Tries (may_stage (name_of name.bytes) model.Staged.Unread) (with_stage (name_of name.bytes) model.Staged.Unread) work.old result work.new }
{
    stage(work, name, 1, &[])
}

pub fn stage_removed(work: &mut [u8], name: Name) -> bool
    requires has_state { HasState work.old }
    requires named { Named name.bytes }
    ensures { Tries (may_stage (name_of name.bytes) model.Staged.Removed) (with_stage (name_of name.bytes) model.Staged.Removed) work.old result work.new }
{
    stage(work, name, 2, &[])
}

pub fn stage_event(work: &mut [u8], name: Name, event: &[u8]) -> bool
    requires has_state { HasState work.old }
    requires named { (Named name.bytes) × (IsEvent event.now) }
    ensures { (e : ProviderEvent) → event_f.Ok e → event.now ≡ event_f.enc e → Tries (may_stage (name_of name.bytes) (model.Staged.Present e)) (with_stage (name_of name.bytes) (model.Staged.Present e)) work.old result work.new }
{
    stage(work, name, 0, event)
}

pub fn unstage(work: &mut [u8], name: Name)
    requires has_state { HasState work.old }
    requires named { Named name.bytes }
    ensures { Edits (without_stage (name_of name.bytes)) work.old work.new }
{
    if pass_tables::is_open(work) {
        STAGED.remove(work, &name.bytes);
    }
}

// The name of entry i.
pub fn staged_name(work: &[u8], i: usize) -> Name
    requires has_state { HasState work.now }
    requires i_bound { i < get_or work.now 9221 0 }
    ensures reads { Reads (λ s. name_slot (staged_at i s).0) work.now result.bytes }
    ensures named { Named result.bytes }
{
    names::name_at(work, STAGED.at + 1 + i * STAGED.stride)
}

// What is staged as entry i.
pub fn entry(work: &[u8], i: usize) -> Staged
    requires has_state { HasState work.now }
    requires i_bound { i < get_or work.now 9221 0 }
    ensures { StagedAt i work.now result }
{
    let at = STAGED.at + 1 + i * STAGED.stride + 33;
    match work[at] {
        0 => Staged::Present(at + 1),
        1 => Staged::Unread,
        _ => Staged::Removed,
    }
}

// Whether some staged entry is still to be read.
pub fn any_unread(work: &[u8]) -> bool
    requires { HasState work.now }
    ensures { Reads (λ s. any is_unread (values (staged_of s))) work.now result }
{
    STAGED.has(work, 33, &[1])
}

// Whether a name is staged and still to be read.
pub fn listed_unread(work: &[u8], name: Name) -> bool
    requires has_state { HasState work.now }
    requires named { Named name.bytes }
    ensures { Reads (λ s. is_some_and is_unread (get by_name (name_of name.bytes) (staged_of s))) work.now result }
{
    match STAGED.find(work, &name.bytes) {
        Ok(at) => work[STAGED.at + at + 33] == 1,
        Err(_) => false,
    }
}
