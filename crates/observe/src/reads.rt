// SyncState::read_unread, SyncState::doubt
ghost use Rattle.std.specs.Prelude.{◌+◌, ◌<◌, get_or};
ghost use Rattle.model.specs.Maps.{map};
ghost use Rattle.model.specs.Machine.{for_each, in_pass};
ghost use Rattle.model.specs.Sync.{read_unread, doubt_in_pass, doubt};
ghost use Rattle.state.specs.Layout.{name_slot};
ghost use Rattle.state.specs.Contract.{HasState, Reads};
ghost use Rattle.state.specs.Values.{name_of, Named, EachNamed};
ghost use Rattle.machine.specs.Contract.{Does};
ghost use Rattle.observe.specs.Reading.{Noted, all_unread, read_for_pass};

use crate::open_pass::{stage_unread, watch};
use machine::Progress;
use names::{Name, NameList};
use staged::Staged;
use state::Purpose;

// Notes the name of staged entry i, if it is to be read.
fn note(work: &[u8], i: usize, names: &mut NameList<10>)
    requires has_state { HasState work.now }
    requires i_bound { (i < get_or work.now 9221 0) × (Noted i work.now names.old) }
    ensures { Noted (i + 1) work.now names.new }
{
    let name = staged::staged_name(work, i);
    if let Staged::Unread = staged::entry(work, i) {
        if !state::asks(work, Purpose::PassRead(name)) {
            names.push(name);
        }
    }
}

// The names to be read, listed before the first request: a request may take the number of one in flight.
fn unread(work: &[u8]) -> NameList<10>
    requires { HasState work.now }
    ensures { Reads (λ s. map name_slot (all_unread s)) work.now result }
{
    let count = staged::staged_count(work);
    let mut list = NameList::new();
    for i in 0..count {
        note(work, i, &mut list);
    }
    list
}

fn read_each(work: &mut [u8], out: &mut [u8], p: Progress, names: &NameList<10>) -> Progress
    requires has_state { HasState work.old }
    requires named { EachNamed names.now }
    ensures { Does (for_each read_for_pass (map name_of names.now)) work.old out.old p result work.new out.new }
{
    let mut q = p;
    for i in 0..names.len() {
        let name = names.name(i);
        q = machine::request_read(work, out, q, Purpose::PassRead(name), name);
    }
    q
}

pub fn read_unread(work: &mut [u8], out: &mut [u8], p: Progress) -> Progress
    requires { HasState work.old }
    ensures { Does read_unread work.old out.old p result work.new out.new }
{
    let names = unread(work);
    read_each(work, out, p, &names)
}

fn doubt_in_pass(work: &mut [u8], out: &mut [u8], p: Progress, name: Name) -> Progress
    requires has_state { HasState work.old }
    requires named { Named name.bytes }
    ensures { Does (in_pass (doubt_in_pass (name_of name.bytes))) work.old out.old p result work.new out.new }
{
    if pass_header::is_done(work) {
        let q = stage_unread(work, p, name);
        return read_unread(work, out, q);
    }
    let q = watch(work, p, name);
    read_unread(work, out, q)
}

// A read that is in flight already may be older than what is doubted here. The resource is learned first, so its answer will be doubted
// too, and one more read follows.
pub fn doubt(work: &mut [u8], out: &mut [u8], p: Progress, name: Name) -> Progress
    requires has_state { HasState work.old }
    requires named { Named name.bytes }
    ensures { Does (doubt (name_of name.bytes)) work.old out.old p result work.new out.new }
{
    let q = machine::learn(work, p, name);
    if pass_tables::is_open(work) {
        return doubt_in_pass(work, out, q, name);
    }
    if state::asks(work, Purpose::Refresh(name)) {
        return q;
    }
    machine::request_read(work, out, q, Purpose::Refresh(name), name)
}
