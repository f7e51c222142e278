// How many effects are of a kind.

// From this number on they are not counted further.
const MOST: usize = 255;

fn byte_at(s: &[u8], at: usize) -> u8 {
    s.get(at).copied().unwrap_or(0)
}

// Applied, Rejected and Expired with this edit id.
pub fn tells(effect: &[u8], id: &[u8]) -> bool {
    matches!((byte_at(effect, 0), byte_at(effect, 1)), (1, 2..=4))
        && frame::short_text_at(effect, 2) == id
}

// Requests to create, update or delete.
pub fn writes(effect: &[u8]) -> bool {
    byte_at(effect, 0) == 0 && 2 < byte_at(effect, 9)
}

// How many effects are wanted.
pub fn count<F: Fn(&[u8]) -> bool>(effects: &[u8], wanted: F) -> u64
    requires { F.IsAlwaysCallable wanted }
{
    let n = words::effects_in(effects)
        .filter(|effect| wanted(*effect))
        .count();
    n.min(MOST) as u64
}
