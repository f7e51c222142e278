// The open pass: what it notes of a resource.
ghost use Rattle.model.specs.State.{Staged};
ghost use Rattle.model.specs.Machine.{stage, see, watch};
ghost use Rattle.state.specs.Contract.{HasState};
ghost use Rattle.state.specs.Values.{name_of, Named};
ghost use Rattle.machine.specs.Contract.{Changes};

use machine::Progress;
use names::Name;
use pass_tables::Names;

// pass.staged.insert(name, Staged::Unread)
pub fn stage_unread(work: &mut [u8], p: Progress, name: Name) -> Progress
    requires has_state { HasState work.old }
    requires named { Named name.bytes }
    ensures { Changes (stage (name_of name.bytes) Staged.Unread) work.old p result work.new }
{
    let within = staged::stage_unread(work, name);
    machine::tried(p, within)
}

// pass.seen.insert(name)
pub fn see(work: &mut [u8], p: Progress, name: Name) -> Progress
    requires has_state { HasState work.old }
    requires named { Named name.bytes }
    ensures { Changes (see (name_of name.bytes)) work.old p result work.new }
{
    let within = Names::Seen.add(work, name);
    machine::tried(p, within)
}

// pass.observed.insert(name)
pub fn watch(work: &mut [u8], p: Progress, name: Name) -> Progress
    requires has_state { HasState work.old }
    requires named { Named name.bytes }
    ensures { Changes (watch (name_of name.bytes)) work.old p result work.new }
{
    let within = Names::Observed.add(work, name);
    machine::tried(p, within)
}
