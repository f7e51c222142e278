// The waiting entries.
ghost use Rattle.std.specs.Prelude.{◌≡◌, true, length};
ghost use Rattle.format.specs.Format.{list};
ghost use Rattle.tables.specs.Table.{Holds, slots_of};
ghost use Rattle.reader.specs.Left.{rest, left, after};
ghost use Rattle.wellformed.specs.Entries.{entry_f, entries_f, ordered, QueuesIn};

use crate::slot::{padded, skip_entry};
use reader::Reader;

const MAX_WAITING: u8 = 6;

pub const ENTRY: usize = 5940;

pub const ENTRIES: usize = 35641;

#[tactic(auto, using(reader::proofs::Laws::lists))]
fn skip_slots(at: Reader<'_>) -> Option<Reader<'_>>
    ensures { left result ≡ after (list 6 entry_f) (rest at.entry) }
{
    let (count, mut next) = at.byte(MAX_WAITING)?;
    for _i in 0..count {
        next = skip_entry(next)?;
    }
    Some(next)
}

// The place behind the region.
fn skip_entries(at: Reader<'_>) -> Option<Reader<'_>>
    ensures { left result ≡ after entries_f (rest at.entry) }
{
    padded(at, ENTRIES, skip_slots)
}

// Whether no key is below the one before it.
fn keys_ordered(region: &[u8], stride: usize) -> bool
    requires { Holds stride region.now }
    ensures { result ≡ ordered (slots_of stride region.now) }
{
    strides::slots(region, stride).is_sorted_by(|a, b| tables::key_order(a, b).is_le())
}

// Whether the region holds some queues.
pub fn entries_in(region: &[u8]) -> bool
    requires { length region.now ≡ 35641 }
    ensures { (result ≡ true → QueuesIn region.now) × (QueuesIn region.now → result ≡ true) }
{
    skip_entries(Reader { rest: region }).is_some() && keys_ordered(region, ENTRY)
}
