// Changing queues.
ghost use Rattle.std.specs.Prelude.{List, [], ◌∷◌, ◌++◌, ◌≤◌, ◌<◌, length, get_or, set, leb};
ghost use Rattle.model.specs.Parts.{Conflict, Refused};
ghost use Rattle.model.specs.Edits.{Edit};
ghost use Rattle.model.specs.Sync.{as_collided, without_plan, change_front, new_pending};
ghost use Rattle.state.specs.Contract.{HasState, Edits, Tries};
ghost use Rattle.state.specs.Values.{name_of, Named};
ghost use Rattle.waiting.specs.Queues.{queue, put_queue, all_entries, without, planned};
ghost use Rattle.waiting.specs.Slots.{HasSlots, EditsSlots, new_fields};
ghost use Rattle.waiting.specs.Entries.{PlanBytes, EditBytes, IsEdit};

use crate::finding::{entries, entries_before, slot_number, waiting_count};
use crate::slots::{
    COLLIDED, CONFLICTS, EDITS, EXPIRY, ID, NAME, OPERATION, REFUSED, ROLE, open_entry, write_field,
};
use names::Name;

// Takes out the j-th entry of a queue, if it has so many.
pub fn remove_entry(work: &mut [u8], name: Name, j: usize)
    requires has_state { HasState work.old }
    requires named { Named name.bytes }
    ensures { Edits (λ s. put_queue (name_of name.bytes) (without j (queue (name_of name.bytes) s)) s) work.old work.new }
{
    if let Some(i) = slot_number(work, name, j) {
        EDITS.take_out(work, i);
    }
}

// The head of a queue has collided.
pub fn set_collided(work: &mut [u8], name: Name)
    requires has_state { HasState work.old }
    requires named { Named name.bytes }
    ensures { Edits (λ s. put_queue (name_of name.bytes) (change_front as_collided (queue (name_of name.bytes) s)) s) work.old work.new }
{
    if let Some(i) = slot_number(work, name, 0) {
        write_field(work, i, COLLIDED, &[1]);
    }
}

// The reports of a merge into the head of a queue.
pub fn set_plan(work: &mut [u8], name: Name, conflicts: &[u8], refused: &[u8])
    requires has_state { HasState work.old }
    requires named { (Named name.bytes) × (length conflicts.now ≤ 3072) × (length refused.now ≤ 1024) }
    ensures { (cs : List Conflict) (rs : List Refused) → PlanBytes cs rs conflicts.now refused.now → Edits (λ s. put_queue (name_of name.bytes) (change_front (planned cs rs) (queue (name_of name.bytes) s)) s) work.old work.new }
{
    if let Some(i) = slot_number(work, name, 0) {
        write_field(work, i, CONFLICTS, conflicts);
        write_field(work, i, REFUSED, refused);
    }
}

// The head of a queue without a merge's reports.
pub fn clear_plan(work: &mut [u8], name: Name)
    requires has_state { HasState work.old }
    requires named { Named name.bytes }
    ensures { Edits (λ s. put_queue (name_of name.bytes) (change_front without_plan (queue (name_of name.bytes) s)) s) work.old work.new }
{
    set_plan(work, name, &[0], &[0]);
}

// The fields of a new entry into slot i.
fn fill_entry(
    work: &mut [u8],
    i: usize,
    name: Name,
    id: &[u8],
    operation: &[u8],
    role: &[u8],
    expiry: &[u8],
)
    requires has_slots { HasSlots work.old }
    requires i_bound { (i < get_or work.old 20002 0) × (length id.now ≤ 33) × (length operation.now ≤ 1469) × (length role.now ≤ 34) × (length expiry.now ≤ 9) × (length name.bytes ≤ 33) }
    ensures { EditsSlots (λ t. set t i (new_fields name.bytes id.now operation.now role.now expiry.now (get_or t i []))) work.old work.new }
{
    write_field(work, i, NAME, &name.bytes);
    write_field(work, i, ID, id);
    write_field(work, i, OPERATION, operation);
    write_field(work, i, ROLE, role);
    write_field(work, i, EXPIRY, expiry);
}

// An edit behind the others of its resource; false if that takes one entry more than the limit.
pub fn append(
    work: &mut [u8],
    name: Name,
    id: &[u8],
    operation: &[u8],
    role: &[u8],
    expiry: &[u8],
) -> bool
    requires has_state { HasState work.old }
    requires named { (Named name.bytes) × (IsEdit (name_of name.bytes) id.now operation.now role.now expiry.now) }
    ensures { (e : Edit) → EditBytes e (name_of name.bytes) id.now operation.now role.now expiry.now → Tries (λ s. leb (all_entries (put_queue (name_of name.bytes) (queue (name_of name.bytes) s ++ (new_pending e ∷ [])) s)) 6) (λ s. put_queue (name_of name.bytes) (queue (name_of name.bytes) s ++ (new_pending e ∷ [])) s) work.old result work.new }
{
    if EDITS.limit <= entries(work) {
        return false;
    }
    let i = entries_before(work, name) + waiting_count(work, name);
    open_entry(work, i);
    fill_entry(work, i, name, id, operation, role, expiry);
    true
}
