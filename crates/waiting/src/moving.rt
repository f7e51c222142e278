// An entry that moves to another queue.
ghost use Rattle.std.specs.Prelude.{◌≡◌, ◌+◌, ◌≤◌, ◌<◌, length, take, drop, get_or};
ghost use Rattle.model.specs.Seam.{ResourceId};
ghost use Rattle.model.specs.State.{Pending};
ghost use Rattle.model.specs.Limits.{document01};
ghost use Rattle.model.specs.Formats.{resource_id};
ghost use Rattle.state.specs.Layout.{pending_slot};
ghost use Rattle.state.specs.Fits.{PendingFits};
ghost use Rattle.state.specs.Contract.{HasState, Edits};
ghost use Rattle.state.specs.Values.{name_of, Named};
ghost use Rattle.waiting.specs.Queues.{renamed, joined, moved};

use crate::changes::remove_entry;
use crate::finding::{entries_before, find_entry, waiting_count};
use crate::slots::{EDITS, Field, NAME, open_entry, write_field};
use names::Name;

const WHOLE: Field = Field {
    at: 0,
    width: EDITS.stride,
};

// The slot at `at`.
fn copy_slot(work: &[u8], at: usize) -> [u8; 5940]
    requires { at + 5940 ≤ length work.now }
    ensures { result ≡ take 5940 (drop at work.now) }
{
    let mut slot = [0; 5940];
    slot.copy_from_slice(&work[at..at + EDITS.stride]);
    slot
}

// A slot behind those of another queue, under that one's name.
fn join_entry(work: &mut [u8], name: Name, slot: &[u8])
    requires has_state { HasState work.old }
    requires named { (Named name.bytes) × (get_or work.old 20002 0 < 6) × (length slot.now ≤ 5940) }
    ensures { (r : ResourceId) (p : Pending) → resource_id.Ok r → PendingFits document01 r p → slot.now ≡ pending_slot document01 r p → Edits (joined (name_of name.bytes) (renamed (name_of name.bytes) p)) work.old work.new }
{
    let i = entries_before(work, name) + waiting_count(work, name);
    open_entry(work, i);
    write_field(work, i, WHOLE, slot);
    write_field(work, i, NAME, &name.bytes);
}

// The j-th entry of one queue, if it has so many, leaves it and joins another.
pub fn move_entry(work: &mut [u8], from: Name, j: usize, to: Name)
    requires has_state { HasState work.old }
    requires named { (Named from.bytes) × (Named to.bytes) }
    ensures { Edits (moved (name_of from.bytes) j (name_of to.bytes)) work.old work.new }
{
    if let Some(at) = find_entry(work, from, j) {
        let slot = copy_slot(work, at);
        remove_entry(work, from, j);
        join_entry(work, to, &slot);
    }
}
