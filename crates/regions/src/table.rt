// Tables: a count, and slots in the order of their keys.
ghost use Rattle.std.specs.Prelude.{◌≡◌, true, ◌+◌, ◌*◌, ◌≤◌, ◌<◌, List, ℕ, Bool, length};
ghost use Rattle.lent.specs.Lent.{part};
ghost use Rattle.regions.specs.Inside.{TableIn};

use lent::Region;

// Whether a region holds a table whose slots, that start with keys of `width` bytes, all pass a test.
pub fn table_in<F: Fn(&[u8]) -> bool>(b: &[u8], region: Region, width: usize, passes: F) -> bool
    requires inside { region.at + region.length ≤ length b.now }
    requires slots { (0 < width) × (width ≤ region.stride) × (1 + region.limit * region.stride ≤ region.length) }
    requires takes { (passes : F) (slot : _) → length slot.now ≡ region.stride → F.pre passes slot }
    ensures { (test : List ℕ → Bool) → ((slot : _) (r : Bool) → length slot.now ≡ region.stride → F.post passes slot r → r ≡ test slot.now) → (result ≡ true → TableIn region.stride width test region.limit (part region.at region.length b.now)) × (TableIn region.stride width test region.limit (part region.at region.length b.now) → result ≡ true) }
{
    let table = &b[region.at..region.at + region.length];
    tables::is_table(table, region.stride, width, region.limit)
        && strides::slots(table, region.stride).all(passes)
}
