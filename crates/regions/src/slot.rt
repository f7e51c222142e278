// The slots of a state's tables, each by the fields of one entry.
ghost use Rattle.std.specs.Prelude.{◌≡◌, ◌+◌, ◌≤◌, length};
ghost use Rattle.lent.specs.Lent.{part};
ghost use Rattle.model.specs.Formats.{resource_id, u64, event_f};
ghost use Rattle.model.specs.SavedForm.{staged_f};
ghost use Rattle.regions.specs.Tests.{filled, is_named, is_flight};

use crate::field::{ends, field_of};
use crate::walks::{skip_purpose, skip_staged};
use reader::Reader;

// Where the value behind a name stands.
const VALUE: usize = 33;

// A name in the first bytes.
#[tactic(auto, unfolding(crate::specs::Tests::filled))]
fn starts_with_name(slot: &[u8]) -> bool
    requires { 33 ≤ length slot.now }
    ensures { result ≡ filled resource_id (part 0 33 slot.now) }
{
    ends(field_of(slot, 0, 33).skip_resource_id())
}

#[tactic(auto, unfolding(crate::specs::Tests::filled, crate::specs::Tests::is_named))]
pub fn is_record(slot: &[u8]) -> bool
    requires { length slot.now ≡ 915 }
    ensures { result ≡ is_named 882 event_f slot.now }
{
    starts_with_name(slot) && ends(field_of(slot, VALUE, 882).skip_event())
}

#[tactic(auto, unfolding(crate::specs::Tests::filled, crate::specs::Tests::is_named))]
pub fn is_staged(slot: &[u8]) -> bool
    requires { length slot.now ≡ 916 }
    ensures { result ≡ is_named 883 staged_f slot.now }
{
    starts_with_name(slot) && ends(skip_staged(field_of(slot, VALUE, 883)))
}

#[tactic(auto, unfolding(crate::specs::Tests::filled))]
pub fn is_name(slot: &[u8]) -> bool
    requires { length slot.now ≡ 33 }
    ensures { result ≡ filled resource_id slot.now }
{
    ends(Reader { rest: slot }.skip_resource_id())
}

#[tactic(auto, unfolding(crate::specs::Tests::filled, crate::specs::Tests::is_flight))]
pub fn is_flight(slot: &[u8]) -> bool
    requires { length slot.now ≡ 43 }
    ensures { result ≡ is_flight slot.now }
{
    slot[0] == 8
        && ends(field_of(slot, 1, 8).skip_number(8))
        && ends(skip_purpose(field_of(slot, 9, 34)))
}

#[tactic(auto, unfolding(crate::specs::Tests::filled, crate::specs::Tests::is_named))]
pub fn is_learned(slot: &[u8]) -> bool
    requires { length slot.now ≡ 41 }
    ensures { result ≡ is_named 8 u64 slot.now }
{
    starts_with_name(slot) && ends(field_of(slot, VALUE, 8).skip_number(8))
}

#[tactic(auto, unfolding(crate::specs::Tests::filled, crate::specs::Tests::is_named))]
pub fn is_alias(slot: &[u8]) -> bool
    requires { length slot.now ≡ 66 }
    ensures { result ≡ is_named 33 resource_id slot.now }
{
    starts_with_name(slot) && ends(field_of(slot, VALUE, 33).skip_resource_id())
}
