// The slots of a table, one after the other.
#![tactic(auto)]

ghost use Rattle.std.specs.Prelude.{◌≡◌};
ghost use Rattle.std.specs.Slice.Iter.{chunks_exact_size};
ghost use Rattle.tables.specs.Table.{Holds, slots_of};
ghost use Rattle.strides.specs.Walk.{Gives, Runs};

use std::slice::ChunksExact;

// The slots of the table in a region, in order.
pub fn slots(region: &[u8], stride: usize) -> ChunksExact<'_, u8>
    requires { Holds stride region.now }
    ensures size { chunks_exact_size result ≡ stride }
    ensures gives { Gives result (slots_of stride region.now) }
    ensures runs { Runs result (slots_of stride region.now) }
{
    let end = 1 + usize::from(region[0]) * stride;
    region[1..end].chunks_exact(stride)
}
