// Lines of hexadecimal digits: a frame is read from one, bytes are written as one, and input that comes in chunks is split into them.
#![tactic(auto)]

ghost use Rattle.std.specs.Prelude.{◌≡◌, [], ◌∷◌, ◌++◌, ◌+◌, ◌≤◌, ◌<◌, length, take, drop, IfSome};
ghost use Rattle.lines.specs.Lines.{digit, digits, value, pair, frame_of, line_length, max_frame, Puts};

// The most digits of a line that holds a frame.
pub const MAX_DIGITS: usize = 16384;

// The bytes of the longest frame.
pub const MAX_FRAME: usize = 8192;

// The bytes to keep of a line: of a line that is too long, enough to tell.
pub const LINE: usize = 16385;

pub const LINE_FEED: u8 = 10;

// ---- digits to bytes

// The number of a digit.
#[tactic(auto, unfolding(crate::specs::Lines::value))]
fn value(c: u8) -> Option<u8>
    ensures is { result ≡ value c }
    ensures small { IfSome result (λ n. n < 16) }
{
    match c {
        b'0'..=b'9' => Some(c - b'0'),
        b'a'..=b'f' => Some(c - b'a' + 10),
        _ => None,
    }
}

// The byte of two digits.
#[tactic(auto, unfolding(crate::specs::Lines::pair))]
fn byte_of(a: u8, b: u8) -> Option<u8>
    ensures { result ≡ pair a b }
{
    let high = value(a)?;
    let low = value(b)?;
    Some(high * 16 + low)
}

// Writes the frame that the line holds, and answers its length: 0 where it holds none.
pub fn frame_of(line: &[u8], frame: &mut [u8]) -> usize
    requires { max_frame ≤ length frame.old }
    ensures { (result ≤ max_frame) × (take result frame.new ≡ frame_of line.now) }
{
    if MAX_DIGITS < line.len() {
        return 0;
    }
    let (pairs, odd) = line.as_chunks::<2>();
    for (n, [a, b]) in pairs.iter().enumerate() {
        let Some(byte) = byte_of(*a, *b) else {
            return 0;
        };
        frame[n] = byte;
    }
    if !odd.is_empty() {
        return 0;
    }
    pairs.len()
}

// ---- bytes to digits

#[tactic(auto, unfolding(crate::specs::Lines::digit))]
fn digit(n: u8) -> u8
    requires { n < 16 }
    ensures { result ≡ digit n }
{
    if n < 10 { b'0' + n } else { b'a' - 10 + n }
}

// Writes the two digits of a byte at `at`.
#[tactic(auto, unfolding(crate::specs::Lines::digits))]
fn put_pair(text: &mut [u8], at: usize, b: u8) -> usize
    requires { at + 2 ≤ length text.old }
    ensures { Puts (digits (b ∷ [])) text.old text.new at result }
{
    text[at] = digit(b / 16);
    text[at + 1] = digit(b % 16);
    at + 2
}

// Writes the bytes' digits at `at`, and answers the place after them.
#[tactic(auto, unfolding(crate::specs::Lines::digits))]
pub fn put_digits(text: &mut [u8], at: usize, bytes: &[u8]) -> usize
    requires { at + (length bytes.now + length bytes.now) ≤ length text.old }
    ensures { Puts (digits bytes.now) text.old text.new at result }
{
    let mut next = at;
    for b in bytes {
        next = put_pair(text, next, *b);
    }
    next
}

// Writes the bytes' digits and a line feed at `at`, and answers the place after them.
pub fn put_line(text: &mut [u8], at: usize, bytes: &[u8]) -> usize
    requires { at + (length bytes.now + length bytes.now) < length text.old }
    ensures { Puts (digits bytes.now ++ (10 ∷ [])) text.old text.new at result }
{
    let end = put_digits(text, at, bytes);
    text[end] = LINE_FEED;
    end + 1
}

// ---- lines from chunks

// The place of the next line feed from `at` on, or the chunk's end.
pub fn line_end(chunk: &[u8], at: usize) -> usize
    requires { at ≤ length chunk.now }
    ensures { (result ≤ length chunk.now) × (result ≡ at + line_length (drop at chunk.now)) }
{
    let rest = &chunk[at..];
    at + rest
        .iter()
        .position(|b| *b == LINE_FEED)
        .unwrap_or(rest.len())
}

// Writes the bytes at `at`, and answers the place after them.
fn put_part(text: &mut [u8], at: usize, bytes: &[u8]) -> usize
    requires { at + length bytes.now ≤ length text.old }
    ensures { Puts bytes.now text.old text.new at result }
{
    text[at..at + bytes.len()].copy_from_slice(bytes);
    at + bytes.len()
}

// Appends a part to the first `have` bytes of the line and answers how many it has then. What the line has no room for is cut.
pub fn keep(line: &mut [u8], have: usize, part: &[u8]) -> usize
    requires { have ≤ length line.old }
    ensures { (result ≤ length line.old) × (take result line.new ≡ take (length line.old) (take have line.old ++ part.now)) }
{
    let room = line.len() - have;
    put_part(line, have, &part[..part.len().min(room)])
}
