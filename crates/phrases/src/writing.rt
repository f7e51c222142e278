// Numbers in decimal, and texts as they may be printed.
ghost use Rattle.std.specs.Prelude.{◌≡◌, ◌≤◌, ◌<◌};
ghost use Rattle.phrases.specs.Shown.{front_of, Shown, Ready, Shows, Decimal};

use crate::visible::{byte_at, front};
use comparison::part;
use pens::Pen;

// The file number of standard output.
const STDOUT_FILENO: i32 = 1;

// Writes to standard output, where nothing goes that could do harm to a terminal.
pub fn print(bytes: &[u8])
    requires { Shown bytes.now }
{
    io::write_all(STDOUT_FILENO, bytes);
}

// Ends a line, and writes it to standard output.
pub fn print_line(text: &mut [u8], pen: Pen)
    requires { Ready text.old pen }
{
    let end = pen.byte(text, b'\n');
    if end.ok {
        print(part(text, 0, end.at));
    } else {
        print(b"(a line that is too long to print)\n");
    }
}

pub fn decimal(pen: Pen, out: &mut [u8], n: u64) -> Pen
    ensures { Decimal out.old out.new pen result n }
{
    let mut digits = [0u8; 20];
    let k = io::decimal(n, &mut digits);
    pen.part(out, &digits[..k])
}

// Bytes in quotes.
pub fn quoted(pen: Pen, out: &mut [u8], bytes: &[u8]) -> Pen
    ensures { Shows out.old out.new pen result }
{
    let open = pen.byte(out, b'"');
    let said = shown(open, out, bytes, true);
    said.byte(out, b'"')
}

// Bytes as text: visible characters as they are, any other byte by its number; within quotes also a quote and a backslash.
#[tactic(auto, using(crate::proofs::Printed::front_fits))]
pub fn shown(pen: Pen, out: &mut [u8], bytes: &[u8], quotes: bool) -> Pen
    ensures { Shows out.old out.new pen result }
{
    let mut said = pen;
    let mut rest = bytes;
    while let [first, ..] = rest {
        let n = as_it_is(rest, quotes);
        if n == 0 {
            said = by_number(said, out, *first);
            rest = &rest[1..];
        } else {
            let (character, behind) = rest.split_at(n);
            said = said.part(out, character);
            rest = behind;
        }
    }
    said
}

// How many bytes of a text's rest are written as they are; 0 where its first byte is written by its number.
fn as_it_is(rest: &[u8], quotes: bool) -> usize
    ensures { 0 < result → result ≡ front_of rest.now }
{
    if quotes && matches!(byte_at(rest, 0), b'"' | b'\\') {
        0
    } else {
        front(rest)
    }
}

fn by_number(pen: Pen, out: &mut [u8], b: u8) -> Pen
    ensures { Shows out.old out.new pen result }
{
    let mut digits = [0u8; 16];
    let k = io::hex(u64::from(b), 2, &mut digits);
    pen.part(out, b"\\x").part(out, &digits[..k])
}
