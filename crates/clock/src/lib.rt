// Time: edits that are past their expiry.
#![tactic(auto)]

ghost use Rattle.std.specs.Prelude.{[], ◌∷◌, drop, Some};
ghost use Rattle.format.specs.Format.{stamp};
ghost use Rattle.model.specs.State.{Pending, Queue};
ghost use Rattle.model.specs.Calls.{Notice, Effect};
ghost use Rattle.model.specs.Sync.{tell_expired, tick_resource, tick};
ghost use Rattle.state.specs.Contract.{HasState, Reads, Edits};
ghost use Rattle.state.specs.Values.{name_of, Named};
ghost use Rattle.waiting.specs.Queues.{queue, put_queue, nth};
ghost use Rattle.machine.specs.Contract.{Does, Pushes};
ghost use Rattle.clock.specs.Expiring.{tell_due, kept_behind, unless_due, head_falls, tick_each};

use machine::Progress;
use names::Name;
use state::Purpose;

// ---- SyncState::tick: notices

fn tell_id(out: &mut [u8], p: Progress, id: Name) -> Progress
    ensures { Pushes (Effect.Notify (Notice.Expired (name_of id.bytes))) out.old p result out.new }
{
    let pen = effects::expired(machine::pen_of(p), out, machine::text_of(&id.bytes));
    machine::sent(p, pen)
}

// Tells the ids of entry j.
fn tell_expired(work: &[u8], out: &mut [u8], p: Progress, name: Name, j: usize) -> Progress
    requires has_state { HasState work.now }
    requires named { Named name.bytes }
    ensures { (e : Pending) → Reads (λ s. nth j (queue (name_of name.bytes) s)) work.now (Some e) → Does (tell_expired e) work.now out.old p result work.now out.new }
{
    let n = waiting::ids_count(work, name, j);
    let mut q = p;
    for k in 0..n {
        let id = waiting::entry_id(work, name, j, k);
        q = tell_id(out, q, id);
    }
    q
}

// The same, if it is due.
fn tell_if_due(work: &[u8], out: &mut [u8], p: Progress, name: Name, j: usize, at: i64) -> Progress
    requires has_state { HasState work.now }
    requires named { Named name.bytes }
    ensures { (e : Pending) → Reads (λ s. nth j (queue (name_of name.bytes) s)) work.now (Some e) → Does (tell_due at (e ∷ [])) work.now out.old p result work.now out.new }
{
    if waiting::is_due(work, name, j, at) {
        return tell_expired(work, out, p, name, j);
    }
    p
}

// Tells the due entries behind the first n.
fn tell_due(work: &[u8], out: &mut [u8], p: Progress, name: Name, n: usize, at: i64) -> Progress
    requires has_state { HasState work.now }
    requires named { Named name.bytes }
    ensures { (l : Queue) → Reads (λ s. queue (name_of name.bytes) s) work.now l → Does (tell_due at (drop n l)) work.now out.old p result work.now out.new }
{
    let total = waiting::waiting_count(work, name);
    let mut q = p;
    for j in n..total {
        q = tell_if_due(work, out, q, name, j, at);
    }
    q
}

// ---- SyncState::tick: one queue

fn drop_if_due(work: &mut [u8], name: Name, j: usize, at: i64)
    requires has_state { HasState work.old }
    requires named { Named name.bytes }
    ensures { Edits (λ s. put_queue (name_of name.bytes) (unless_due at j (queue (name_of name.bytes) s)) s) work.old work.new }
{
    if waiting::is_due(work, name, j, at) {
        waiting::remove_entry(work, name, j);
    }
}

// Drops the due entries behind the first n, the newest first.
fn drop_due(work: &mut [u8], name: Name, n: usize, at: i64)
    requires has_state { HasState work.old }
    requires named { Named name.bytes }
    ensures { Edits (λ s. put_queue (name_of name.bytes) (kept_behind n at (queue (name_of name.bytes) s)) s) work.old work.new }
{
    let total = waiting::waiting_count(work, name);
    for j in (n..total).rev() {
        drop_if_due(work, name, j, at);
    }
}

fn head_falls(work: &[u8], name: Name, at: i64) -> bool
    requires has_state { HasState work.now }
    requires named { Named name.bytes }
    ensures { Reads (head_falls at (name_of name.bytes)) work.now result }
{
    waiting::is_due(work, name, 0, at) && !state::asks(work, Purpose::EditWrite(name))
}

fn tick_resource(work: &mut [u8], out: &mut [u8], p: Progress, name: Name, at: i64) -> Progress
    requires has_state { HasState work.old }
    requires named { Named name.bytes }
    ensures { Does (tick_resource at (name_of name.bytes)) work.old out.old p result work.new out.new }
{
    if head_falls(work, name, at) {
        let q = tell_due(work, out, p, name, 0, at);
        state::drop_in_flight(work, Purpose::EditRead(name));
        drop_due(work, name, 0, at);
        return queues::start_edit(work, out, q, name);
    }
    let q = tell_due(work, out, p, name, 1, at);
    drop_due(work, name, 1, at);
    q
}

fn tick_each(work: &mut [u8], out: &mut [u8], p: Progress, at: i64) -> Progress
    requires { HasState work.old }
    ensures { Does (tick_each at) work.old out.old p result work.new out.new }
{
    let names = waiting::resources(work);
    let mut q = p;
    for k in 0..names.len() {
        let name = names.name(k);
        q = tick_resource(work, out, q, name, at);
    }
    q
}

pub fn tick(work: &mut [u8], out: &mut [u8], p: Progress, at: i64) -> Progress
    requires has_state { HasState work.old }
    requires ok { stamp.Ok at }
    ensures { Does (tick at) work.old out.old p result work.new out.new }
{
    state::set_now(work, at);
    tick_each(work, out, p, at)
}
