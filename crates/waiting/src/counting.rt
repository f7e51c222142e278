// Counting slots by their keys.
ghost use Rattle.std.specs.Prelude.{◌≡◌, ◌+◌, ◌≤◌, ◌<◌, length};
ghost use Rattle.tables.specs.Table.{Holds, slots_of};
ghost use Rattle.waiting.specs.Slots.{HasSlots, ReadsSlots, tallied};

use crate::slots::EDITS;
use std::cmp::Ordering;

// How many slots have a key that is equal to the one asked for, less or greater.
fn tally(region: &[u8], stride: usize, key: &[u8], rank: Ordering) -> usize
    requires holds { Holds stride region.now }
    requires key_nonzero { 0 < length key.now }
    ensures { result ≡ tallied rank key.now (slots_of stride region.now) }
{
    strides::slots(region, stride)
        .filter(|slot| tables::key_order(slot, key) == rank)
        .count()
}

pub fn tally_in(work: &[u8], key: &[u8], rank: Ordering) -> usize
    requires has_slots { HasSlots work.now }
    requires key_nonzero { 0 < length key.now }
    ensures { ReadsSlots (tallied rank key.now) work.now result }
{
    let region = &work[EDITS.at..EDITS.at + EDITS.length];
    tally(region, EDITS.stride, key, rank)
}
