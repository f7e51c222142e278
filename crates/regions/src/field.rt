// Fields: a value, and zeros behind it.
ghost use Rattle.std.specs.Prelude.{◌≡◌, ◌+◌, ◌≤◌, length};
ghost use Rattle.lent.specs.Lent.{part};
ghost use Rattle.reader.specs.Left.{rest, left};
ghost use Rattle.regions.specs.Tests.{zeros_left};

use reader::Reader;

// The field of `size` bytes at `at`, from its front on.
pub fn field_of(b: &[u8], at: usize, size: usize) -> Reader<'_>
    requires { at + size ≤ length b.now }
    ensures { rest result ≡ part at size b.now }
{
    Reader {
        rest: &b[at..at + size],
    }
}

// Whether a value was walked past, and zeros are left behind it.
pub fn ends(behind: Option<Reader<'_>>) -> bool
    ensures { result ≡ zeros_left (left behind.entry) }
{
    match behind {
        Some(at) => spans::all_zero(at.rest),
        None => false,
    }
}
