// Edits that come too late.
ghost use Rattle.std.specs.Prelude.{◌≡◌};
ghost use Rattle.std.specs.Int.Signed.{le_z};
ghost use Rattle.std.specs.Int.{w64};
ghost use Rattle.std.proofs.Common.{of_z};
ghost use Rattle.model.specs.Maps.{is_some_and};
ghost use Rattle.frame.specs.Meaning.{meant_expiry};
ghost use Rattle.state.specs.Contract.{HasState, Reads};

use frame::Expiry;

// The two's complement bits of a time.
pub fn bits_of(time: i64) -> u64
    ensures { result ≡ of_z w64 time }
{
    time.cast_unsigned()
}

// Whether an edit with this expiry is due at a time.
pub fn is_due(expiry: Expiry, now: i64) -> bool
    ensures { result ≡ is_some_and (λ at. le_z at now) (meant_expiry expiry) }
{
    match expiry {
        Expiry::Never => {
            return false;
        }
        Expiry::At(at) => {
            return frame::expired(at, now);
        }
    }
}

// SyncState::expired
pub fn expired(work: &[u8], expiry: Expiry) -> bool
    requires { HasState work.now }
    ensures { Reads (λ s. is_some_and (λ now. is_some_and (λ at. le_z at now) (meant_expiry expiry)) s.now) work.now result }
{
    match state::now(work) {
        Some(now) => is_due(expiry, now),
        None => false,
    }
}
