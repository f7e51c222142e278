// A waiting entry: the fields of its slot.
ghost use Rattle.std.specs.Prelude.{◌≡◌, List, ℕ, Option};
ghost use Rattle.format.specs.Format.{option, list, stamp, bool, padded};
ghost use Rattle.model.specs.Formats.{resource_id, short_text, operation_f, role_f, conflicts_f, refusals_f};
ghost use Rattle.reader.specs.Left.{rest, left, after};
ghost use Rattle.reader.specs.declared.Reader.{Reader};
ghost use Rattle.wellformed.specs.Fields.{in_width};
ghost use Rattle.wellformed.specs.Entries.{entry_f};

use reader::Reader;

const NAME: usize = 33;

const OPERATION: usize = 1469;

const ROLE: usize = 34;

const EXPIRY: usize = 9;

const CONFLICTS: usize = 3072;

const REFUSED: usize = 1024;

const MAX_ABSORBED: u8 = 8;

const ABSORBED: usize = 265;

// The place behind `width` bytes, where zeros are left of them behind the value that is walked past.
pub fn padded<'a, W: FnOnce(Reader<'a>) -> Option<Reader<'a>>>(
    at: Reader<'a>,
    width: usize,
    walk: W,
) -> Option<Reader<'a>>
    requires { W.IsAlwaysCallable walk }
    ensures { (behind : List ℕ → Option (List ℕ)) → ((x : Reader) (r : Option Reader) → W.post walk x r → left r ≡ behind (rest x)) → left result ≡ in_width width behind (rest at.entry) }
{
    let (field, rest) = at.rest.split_at_checked(width)?;
    if regions::ends(walk(Reader { rest: field })) {
        Some(Reader { rest })
    } else {
        None
    }
}

#[tactic(auto, using(reader::proofs::Laws::cases), unfolding(model::specs::Formats::operation_f))]
fn skip_operation(at: Reader<'_>) -> Option<Reader<'_>>
    ensures { left result ≡ after operation_f (rest at.entry) }
{
    let (case, next) = at.byte(2)?;
    match case {
        0 => next.skip_event(),
        1 => next.skip_fields()?.skip_fields(),
        _ => Some(next),
    }
}

#[tactic(auto, using(reader::proofs::Laws::cases), unfolding(model::specs::Formats::role_f))]
fn skip_role(at: Reader<'_>) -> Option<Reader<'_>>
    ensures { left result ≡ after role_f (rest at.entry) }
{
    let (case, next) = at.byte(1)?;
    match case {
        0 => Some(next),
        _ => next.skip_short_text(),
    }
}

#[tactic(auto, using(reader::proofs::Laws::lists))]
fn skip_edit_ids(at: Reader<'_>) -> Option<Reader<'_>>
    ensures { left result ≡ after (list 8 short_text) (rest at.entry) }
{
    let (count, mut next) = at.byte(MAX_ABSORBED)?;
    for _i in 0..count {
        next = next.skip_short_text()?;
    }
    Some(next)
}

// The fields, each in its width.

fn resource(at: Reader<'_>) -> Option<Reader<'_>>
    ensures { left result ≡ after (padded 33 resource_id) (rest at.entry) }
{
    padded(at, NAME, |field| field.skip_resource_id())
}

fn edit_id(at: Reader<'_>) -> Option<Reader<'_>>
    ensures { left result ≡ after (padded 33 short_text) (rest at.entry) }
{
    padded(at, NAME, |field| field.skip_short_text())
}

fn operation(at: Reader<'_>) -> Option<Reader<'_>>
    ensures { left result ≡ after (padded 1469 operation_f) (rest at.entry) }
{
    padded(at, OPERATION, skip_operation)
}

fn role(at: Reader<'_>) -> Option<Reader<'_>>
    ensures { left result ≡ after (padded 34 role_f) (rest at.entry) }
{
    padded(at, ROLE, skip_role)
}

fn expiry(at: Reader<'_>) -> Option<Reader<'_>>
    ensures { left result ≡ after (padded 9 (option stamp)) (rest at.entry) }
{
    padded(at, EXPIRY, |field| regions::skip_time(field))
}

fn conflicts(at: Reader<'_>) -> Option<Reader<'_>>
    ensures { left result ≡ after (padded 3072 conflicts_f) (rest at.entry) }
{
    padded(at, CONFLICTS, |field| field.skip_conflicts())
}

fn refused(at: Reader<'_>) -> Option<Reader<'_>>
    ensures { left result ≡ after (padded 1024 refusals_f) (rest at.entry) }
{
    padded(at, REFUSED, |field| field.skip_refusals())
}

fn collided(at: Reader<'_>) -> Option<Reader<'_>>
    ensures { left result ≡ after (padded 1 bool) (rest at.entry) }
{
    padded(at, 1, |field| regions::skip_flag(field))
}

fn absorbed(at: Reader<'_>) -> Option<Reader<'_>>
    ensures { left result ≡ after (padded 265 (list 8 short_text)) (rest at.entry) }
{
    padded(at, ABSORBED, skip_edit_ids)
}

// The place behind an entry's slot.
pub fn skip_entry(at: Reader<'_>) -> Option<Reader<'_>>
    ensures { left result ≡ after entry_f (rest at.entry) }
{
    let next = resource(at)?;
    let next = edit_id(next)?;
    let next = operation(next)?;
    let next = role(next)?;
    let next = expiry(next)?;
    let next = conflicts(next)?;
    let next = refused(next)?;
    let next = collided(next)?;
    absorbed(next)
}
