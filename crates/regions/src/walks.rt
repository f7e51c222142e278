// Walks past the values that stand in a state's fields alone.
ghost use Rattle.std.specs.Prelude.{◌≡◌};
ghost use Rattle.format.specs.Format.{option, stamp, bool, is_time};
ghost use Rattle.model.specs.SavedForm.{staged_f, purpose_f};
ghost use Rattle.reader.specs.Left.{rest, left, after};

use reader::Reader;

#[tactic(auto, using(reader::proofs::Laws::cases), unfolding(model::specs::SavedForm::purpose_f))]
pub fn skip_purpose(at: Reader<'_>) -> Option<Reader<'_>>
    ensures { left result ≡ after purpose_f (rest at.entry) }
{
    let (case, next) = at.byte(4)?;
    match case {
        0 => Some(next),
        _ => next.skip_resource_id(),
    }
}

#[tactic(auto, using(reader::proofs::Laws::cases), unfolding(model::specs::SavedForm::staged_f))]
pub fn skip_staged(at: Reader<'_>) -> Option<Reader<'_>>
    ensures { left result ≡ after staged_f (rest at.entry) }
{
    let (case, next) = at.byte(2)?;
    match case {
        0 => next.skip_event(),
        _ => Some(next),
    }
}

#[tactic(auto, using(reader::proofs::Laws::walks), unfolding(format::specs::Format::bool))]
pub fn skip_flag(at: Reader<'_>) -> Option<Reader<'_>>
    ensures { left result ≡ after bool (rest at.entry) }
{
    at.skip_byte(1)
}

// Whether a number is a timestamp.
fn is_time(time: i64) -> bool
    ensures { result ≡ is_time time }
{
    -200_000_000_000_000 <= time && time <= 200_000_000_000_000
}

fn skip_stamp(at: Reader<'_>) -> Option<Reader<'_>>
    ensures { left result ≡ after stamp (rest at.entry) }
{
    let (bits, next) = at.number(8)?;
    if is_time(bits.cast_signed()) {
        Some(next)
    } else {
        None
    }
}

#[tactic(auto, using(reader::proofs::Laws::walks))]
pub fn skip_time(at: Reader<'_>) -> Option<Reader<'_>>
    ensures { left result ≡ after (option stamp) (rest at.entry) }
{
    let (some, next) = at.byte(1)?;
    if some == 0 {
        Some(next)
    } else {
        skip_stamp(next)
    }
}
