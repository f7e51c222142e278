// SyncState::forget_settled, SyncState::forget_aliases
ghost use Rattle.std.specs.Prelude.{◌<◌, get_or};
ghost use Rattle.model.specs.Maps.{by_name, get, is_some};
ghost use Rattle.state.specs.Contract.{HasState, Reads, Edits};
ghost use Rattle.state.specs.Values.{name_of, Named};
ghost use Rattle.staged.specs.Staging.{staged_of};
ghost use Rattle.observe.specs.Forgetting.{settled_before, settled, held_in_pass, held_in, with_held_aliases, Tested};

use names::Name;
use pass_tables::Names;
use staged::STAGED;

fn forget_before(work: &mut [u8], oldest: u64)
    requires { HasState work.old }
    ensures { Edits (settled_before oldest) work.old work.new }
{
    state::retain_learned(work, oldest);
    if oldest < state::learned_all(work) {
        return;
    }
    state::set_learned_all(work, 0);
}

pub fn forget_settled(work: &mut [u8])
    requires { HasState work.old }
    ensures { Edits settled work.old work.new }
{
    match state::first_in_flight(work) {
        None => {
            state::clear_learned(work);
            state::set_learned_all(work, 0);
        }
        Some(n) => forget_before(work, n),
    }
}

fn has_record(work: &[u8], name: Name) -> bool
    requires has_state { HasState work.now }
    requires named { Named name.bytes }
    ensures { Reads (λ s. is_some (get by_name (name_of name.bytes) s.records)) work.now result }
{
    records::find_record(work, name).is_some()
}

fn is_staged(work: &[u8], name: Name) -> bool
    requires has_state { HasState work.now }
    requires named { Named name.bytes }
    ensures { Reads (λ s. is_some (get by_name (name_of name.bytes) (staged_of s))) work.now result }
{
    STAGED.find(work, &name.bytes).is_ok()
}

fn in_pass(work: &[u8], name: Name) -> bool
    requires has_state { HasState work.now }
    requires named { Named name.bytes }
    ensures { Reads (held_in_pass (name_of name.bytes)) work.now result }
{
    if is_staged(work, name) {
        return true;
    }
    Names::Observed.has(work, name)
}

fn held_anywhere(work: &[u8], name: Name) -> bool
    requires has_state { HasState work.now }
    requires named { Named name.bytes }
    ensures { Reads (held_in (name_of name.bytes)) work.now result }
{
    if has_record(work, name) {
        return true;
    }
    if waiting::waiting_count(work, name) != 0 {
        return true;
    }
    if flights::asks_about(work, name) {
        return true;
    }
    in_pass(work, name)
}

// Takes alias i out unless what it stands for is held; where the next one stands.
fn forget_alias(work: &mut [u8], i: usize) -> usize
    requires has_state { HasState work.old }
    requires i_bound { i < get_or work.old 58014 0 }
    ensures { Tested i work.old result work.new }
{
    let to = state::alias_to(work, i);
    if held_anywhere(work, to) {
        return i + 1;
    }
    let from = state::alias_from(work, i);
    state::remove_alias(work, from);
    i
}

pub fn forget_aliases(work: &mut [u8])
    requires { HasState work.old }
    ensures { Edits with_held_aliases work.old work.new }
{
    let count = state::alias_count(work);
    let mut i = 0;
    for _ in 0..count {
        i = forget_alias(work, i);
    }
}
