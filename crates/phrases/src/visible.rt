// Which characters are printed as they are.
ghost use Rattle.std.specs.Prelude.{◌≡◌, cond, not, ◌&&◌, ◌||◌, eqb, length, get_or};
ghost use Rattle.format.specs.Utf8.{is_text};
ghost use Rattle.phrases.specs.Shown.{width_of, is_hidden, front_of};

pub fn byte_at(s: &[u8], i: usize) -> u8
    ensures { result ≡ get_or s.now i 0 }
{
    s.get(i).copied().unwrap_or(0)
}

// How many bytes the character takes that starts with this byte; 0 where none does.
#[tactic(auto, using(crate::proofs::Bytes::width_is))]
fn width(b: u8) -> usize
    ensures { result ≡ width_of b }
{
    match b {
        0..=0x7f => 1,
        0xc2..=0xdf => 2,
        0xe0..=0xef => 3,
        0xf0..=0xf4 => 4,
        _ => 0,
    }
}

// U+2028 and U+2029, which end lines and paragraphs, behind their first byte.
fn ends_line(c: &[u8]) -> bool
    ensures { result ≡ (eqb (get_or c.now 1 0) 0x80 && (eqb (get_or c.now 2 0) 0xa8 || eqb (get_or c.now 2 0) 0xa9)) }
{
    byte_at(c, 1) == 0x80 && matches!(byte_at(c, 2), 0xa8 | 0xa9)
}

// Whether a character is a control character or ends a line.
#[tactic(auto, unfolding(crate::specs::Shown::is_hidden))]
fn hidden(c: &[u8]) -> bool
    ensures { result ≡ is_hidden c.now }
{
    match byte_at(c, 0) {
        0..=0x1f | 0x7f => true,
        0xc2 => byte_at(c, 1) < 0xa0,
        0xe2 => ends_line(c),
        _ => false,
    }
}

// How many bytes the character at the front takes where it may be printed as it is; 0 where none is there that may. Most are ASCII, which
// takes less to see.
#[tactic(auto, using(crate::proofs::Printed::fronts))]
pub fn front(rest: &[u8]) -> usize
    ensures { result ≡ front_of rest.now }
{
    match byte_at(rest, 0) {
        0..=0x1f => 0,
        0x20..=0x7e => 1,
        b => rest.get(..width(b)).map_or(0, character),
    }
}

// The length of a character that may be printed; 0 for any other, and for what is none.
fn character(c: &[u8]) -> usize
    ensures { result ≡ cond (is_text c.now && not (is_hidden c.now)) (length c.now) 0 }
{
    if format::is_text(c) && !hidden(c) {
        c.len()
    } else {
        0
    }
}
