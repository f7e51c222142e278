// An edit that is folded into the newest entry of its queue.
ghost use Rattle.std.specs.Prelude.{◌≡◌, [], ◌+◌, ◌≤◌, ◌<◌, length, get_or, set};
ghost use Rattle.model.specs.Edits.{Edit, Operation};
ghost use Rattle.model.specs.Sync.{absorb};
ghost use Rattle.state.specs.Contract.{HasState, Tries};
ghost use Rattle.state.specs.Values.{name_of, Named};
ghost use Rattle.waiting.specs.Queues.{queue, put_queue, change_last, may_absorb};
ghost use Rattle.waiting.specs.Slots.{HasSlots, EditsSlots, more_fields};
ghost use Rattle.waiting.specs.Entries.{FoldBytes};
ghost use Rattle.waiting.specs.Texts.{text_end, texts_end};

use crate::finding::{entries_before, waiting_count};
use crate::slots::{
    ABSORBED, ABSORBED_IDS, ABSORBED_LIMIT, EXPIRY, Field, OPERATION, slot_at, write_field,
};
use names::Name;

// Where the text at `at` ends.
#[tactic(auto, using(crate::proofs::Texts::text_past, crate::proofs::Texts::text_more))]
fn text_end(src: &[u8], at: usize) -> usize
    ensures { result ≡ text_end src.now at }
{
    if at < src.len() {
        at + (1 + usize::from(src[at]))
    } else {
        at
    }
}

// Where the last of n texts ends, the first of which stands at `start`.
pub fn texts_end(src: &[u8], start: usize, n: usize) -> usize
    ensures { result ≡ texts_end n src.now start }
{
    let mut at = start;
    for _ in 0..n {
        at = text_end(src, at);
    }
    at
}

// What an entry takes from an edit that is folded into it: the id goes to `o` of slot i.
fn absorb_into(
    work: &mut [u8],
    i: usize,
    o: usize,
    count: u8,
    operation: &[u8],
    expiry: &[u8],
    id: &[u8],
)
    requires has_slots { HasSlots work.old }
    requires i_bound { (i < get_or work.old 20002 0) × (o + length id.now ≤ 5940) × (length operation.now ≤ 1469) × (length expiry.now ≤ 9) }
    ensures { EditsSlots (λ t. set t i (more_fields o count operation.now expiry.now id.now (get_or t i []))) work.old work.new }
{
    let place = Field {
        at: o,
        width: id.len(),
    };
    write_field(work, i, OPERATION, operation);
    write_field(work, i, EXPIRY, expiry);
    write_field(work, i, place, id);
    write_field(work, i, ABSORBED, &[count]);
}

// Folds an edit into the newest entry of a queue; false if that entry has absorbed as many as it may.
pub fn fold(work: &mut [u8], name: Name, operation: &[u8], expiry: &[u8], id: &[u8]) -> bool
    requires has_state { HasState work.old }
    requires named { (Named name.bytes) × (length operation.now ≤ 1469) × (length expiry.now ≤ 9) × (length id.now ≤ 33) }
    ensures { (o : Operation) (e : Edit) → FoldBytes o e operation.now expiry.now id.now → Tries (λ s. may_absorb o e (queue (name_of name.bytes) s)) (λ s. put_queue (name_of name.bytes) (change_last (absorb o e) (queue (name_of name.bytes) s)) s) work.old result work.new }
{
    let n = waiting_count(work, name);
    if n == 0 {
        return true;
    }
    let i = entries_before(work, name) + (n - 1);
    let p = slot_at(i);
    let count = work[p + ABSORBED.at];
    if ABSORBED_LIMIT <= count {
        return false;
    }
    let end = texts_end(work, p + ABSORBED_IDS, usize::from(count));
    absorb_into(work, i, end - p, count + 1, operation, expiry, id);
    true
}
