// The effects that the engine wrote, one by one.
ghost use Rattle.std.specs.Prelude.{◌≡◌, ◌++◌, length, MatchOption};
ghost use Rattle.std.specs.Iterator.{at_most};

// What is left of bytes in which effects stand back to back.
#[derive(Drop)]
pub struct Effects<'a>(&'a [u8]);

// The effects in bytes, up to where none stands.
pub fn effects_in(bytes: &[u8]) -> Effects<'_>
    ensures { result.0.now ≡ bytes.now }
{
    Effects(bytes)
}

impl<'a> Iterator for Effects<'a> {
    type Item = &'a [u8];

    ghost next_gives = { λ s o t. MatchOption o (Unit {0}) (λ x. s.0.now ≡ x.now ++ t.0.now) };

    ghost remaining = { λ s. at_most (length s.0.now) };

    fn next(&mut self) -> Option<&'a [u8]> {
        let end = effects::effect_end(self.0, 0);
        if end == 0 {
            return None;
        }
        let (effect, left) = self.0.split_at_checked(end)?;
        self.0 = left;
        Some(effect)
    }
}
