// Restarts: what was in flight is lost, and is asked for again.
#![tactic(auto)]

ghost use Rattle.model.specs.Maps.{map};
ghost use Rattle.model.specs.Machine.{for_each, in_pass};
ghost use Rattle.model.specs.Sync.{doubt, resume_pass, restart_edit, resume};
ghost use Rattle.state.specs.Contract.{HasState};
ghost use Rattle.state.specs.Values.{name_of, Named, EachNamed};
ghost use Rattle.machine.specs.Contract.{Does};
ghost use Rattle.restarts.specs.Resuming.{doubt_lost, restart_edits};

use machine::Progress;
use names::{Name, NameList};

// ---- the Refreshes that were in flight

fn doubt_each(work: &mut [u8], out: &mut [u8], p: Progress, names: &NameList<24>) -> Progress
    requires has_state { HasState work.old }
    requires named { EachNamed names.now }
    ensures { Does (for_each doubt (map name_of names.now)) work.old out.old p result work.new out.new }
{
    let mut q = p;
    for i in 0..names.len() {
        let name = names.name(i);
        q = observe::doubt(work, out, q, name);
    }
    q
}

// Nothing is in flight any more, and the resources of the lost Refreshes are doubted.
fn doubt_lost(work: &mut [u8], out: &mut [u8], p: Progress) -> Progress
    requires { HasState work.old }
    ensures { Does doubt_lost work.old out.old p result work.new out.new }
{
    let names = flights::refreshes(work);
    state::clear_in_flight(work);
    doubt_each(work, out, p, &names)
}

// ---- the open pass

fn resume_pass(work: &mut [u8], out: &mut [u8], p: Progress) -> Progress
    requires { HasState work.old }
    ensures { Does (in_pass resume_pass) work.old out.old p result work.new out.new }
{
    if !pass_tables::is_open(work) {
        return p;
    }
    if pass_header::is_done(work) {
        return observe::read_unread(work, out, p);
    }
    let q = passes::request_list(work, out, p);
    observe::read_unread(work, out, q)
}

// ---- the heads of the queues

fn restart_edit(work: &mut [u8], out: &mut [u8], p: Progress, name: Name) -> Progress
    requires has_state { HasState work.old }
    requires named { Named name.bytes }
    ensures { Does (restart_edit (name_of name.bytes)) work.old out.old p result work.new out.new }
{
    waiting::clear_plan(work, name);
    queues::start_edit(work, out, p, name)
}

fn restart_each(work: &mut [u8], out: &mut [u8], p: Progress, names: &NameList<6>) -> Progress
    requires has_state { HasState work.old }
    requires named { EachNamed names.now }
    ensures { Does (for_each restart_edit (map name_of names.now)) work.old out.old p result work.new out.new }
{
    let mut q = p;
    for k in 0..names.len() {
        let name = names.name(k);
        q = restart_edit(work, out, q, name);
    }
    q
}

fn restart_edits(work: &mut [u8], out: &mut [u8], p: Progress) -> Progress
    requires { HasState work.old }
    ensures { Does restart_edits work.old out.old p result work.new out.new }
{
    let names = waiting::resources(work);
    restart_each(work, out, p, &names)
}

// SyncState::resume
pub fn resume(work: &mut [u8], out: &mut [u8], p: Progress) -> Progress
    requires { HasState work.old }
    ensures { Does resume work.old out.old p result work.new out.new }
{
    let q = doubt_lost(work, out, p);
    let r = resume_pass(work, out, q);
    restart_edits(work, out, r)
}
