// The slots of the table: where their fields stand, and how they are written.
ghost use Rattle.std.specs.Prelude.{◌≡◌, ◌+◌, ◌*◌, ◌≤◌, ◌<◌, length, get_or};
ghost use Rattle.lent.specs.Lent.{placed};
ghost use Rattle.state.specs.Layout.{padded};
ghost use Rattle.waiting.specs.Slots.{HasSlots, Rewrites, Opens};

use lent::Region;

// the entries of all queues
pub const EDITS: Region = Region {
    at: 20002,
    length: 35641,
    stride: 5940,
    limit: 6,
};

// ids that one entry may absorb
pub const ABSORBED_LIMIT: u8 = 8;

// Where a field stands in a slot, and its width.
#[derive(Clone, Copy)]
pub struct Field {
    pub at: usize,
    pub width: usize,
}

pub const NAME: Field = Field { at: 0, width: 33 };

pub const ID: Field = Field { at: 33, width: 33 };

pub const OPERATION: Field = Field {
    at: 66,
    width: 1469,
};

pub const ROLE: Field = Field {
    at: 1535,
    width: 34,
};

pub const EXPIRY: Field = Field { at: 1569, width: 9 };

pub const CONFLICTS: Field = Field {
    at: 1578,
    width: 3072,
};

pub const REFUSED: Field = Field {
    at: 4650,
    width: 1024,
};

pub const COLLIDED: Field = Field { at: 5674, width: 1 };

// how many ids an entry has absorbed, and where they stand
pub const ABSORBED: Field = Field { at: 5675, width: 1 };

pub const ABSORBED_IDS: usize = 5676;

// Where slot i stands in the state.
pub fn slot_at(i: usize) -> usize
    requires { i < 6 }
    ensures { result ≡ 20002 + (1 + i * 5940) }
{
    EDITS.at + (1 + i * EDITS.stride)
}

// A value over the `width` bytes at `at`, zeros behind it.
fn put_field(work: &mut [u8], at: usize, width: usize, bytes: &[u8])
    requires { (at + width ≤ length work.old) × (length bytes.now ≤ width) }
    ensures { work.new ≡ placed at width (padded width bytes.now) work.old }
{
    work[at..at + width].fill(0);
    tables::put_slot(work, at, bytes);
}

// The same in a field of slot i.
pub fn write_field(work: &mut [u8], i: usize, field: Field, bytes: &[u8])
    requires has_slots { HasSlots work.old }
    requires i_bound { (i < get_or work.old 20002 0) × (field.at + field.width ≤ 5940) × (length bytes.now ≤ field.width) }
    ensures { Rewrites i field.at field.width bytes.now work.old work.new }
{
    put_field(work, slot_at(i) + field.at, field.width, bytes);
}

// A slot of zeros before slot i.
pub fn open_entry(work: &mut [u8], i: usize)
    requires has_slots { HasSlots work.old }
    requires i_bound { (i ≤ get_or work.old 20002 0) × (get_or work.old 20002 0 < 6) }
    ensures { Opens i work.old work.new }
{
    let at = 1 + i * EDITS.stride;
    let region = &mut work[EDITS.at..EDITS.at + EDITS.length];
    tables::open_slot(region, EDITS.stride, at);
}
