// The answer to a frame of two clerks as text: a line of hexadecimal digits for each order of the writes, or only a refusal's number in decimal.
#![tactic(auto)]

ghost use Rattle.std.specs.Prelude.{◌≡◌, ◌≤◌, ◌<◌, length, take};
ghost use Rattle.lines.specs.Lines.{frame_of};
ghost use Rattle.clerks_model.specs.Answer.{two_clerks};
ghost use Rattle.clerks_bytes.specs.Writes.{line_bytes};
ghost use Rattle.clerks_lines.specs.Text.{line, decimal, text_of, told_text, text_bytes, Starts};

use clerks_bytes::{LINE, Told, WORK};

// The longest text: two lines, two digits a byte and a line feed each.
pub const TEXT: usize = 2 * (LINE + LINE + 1);

// A number below 100 in decimal, as a line.
pub fn put_number(text: &mut [u8], n: u8) -> usize
    requires { (n < 100) × (text_bytes ≤ length text.old) }
    ensures { Starts (line (decimal n)) text.new result }
{
    if n < 10 {
        text[0] = b'0' + n;
        text[1] = lines::LINE_FEED;
        return 2;
    }
    text[0] = b'0' + n / 10;
    text[1] = b'0' + n % 10;
    text[2] = lines::LINE_FEED;
    3
}

// A line of digits for each order, or the refusal's number.
fn put_answer(text: &mut [u8], told: Told, one: &[u8], two: &[u8]) -> usize
    requires { (told.code < 100) × (told.one ≤ length one.now) × (told.two ≤ length two.now) × (length one.now ≡ line_bytes) × (length two.now ≡ line_bytes) × (text_bytes ≤ length text.old) }
    ensures { Starts (told_text told.code (take told.one one.now) (take told.two two.now)) text.new result }
{
    if told.code != 0 {
        return put_number(text, told.code);
    }
    let a = told.one;
    let b = told.two;
    let next = lines::put_line(text, 0, &one[..a]);
    lines::put_line(text, next, &two[..b])
}

// The answer to a line.
pub fn answer_line(line: &[u8], text: &mut [u8]) -> usize
    requires { text_bytes ≤ length text.old }
    ensures { Starts (text_of (two_clerks (frame_of line.now))) text.new result }
{
    let mut frame = [0u8; lines::MAX_FRAME];
    let mut one = [0u8; LINE];
    let mut two = [0u8; LINE];
    let mut work = [0u8; WORK];
    let n = lines::frame_of(line, &mut frame);
    let told = clerks_bytes::two_clerks(&frame[..n], &mut one, &mut two, &mut work);
    put_answer(text, told, &one, &two)
}
