// Which bytes are a well-formed state: each condition of document 01 met and broken. And what the reading functions answer. The list on
// standard input (tools/state_cases.py writes it, at most 65,536 bytes) says line by line what is written and what is asked. DIGITS are
// hexadecimal, the other numbers decimal, and OFFSET has five digits:
//   >WORDS           prints the words
//   =COUNT           so many bytes count from here on, at most 58,544
//   *BYTE            makes every byte this one
//   @OFFSET DIGITS   writes bytes; where they do not fit, nothing
//   f                makes the bytes a fresh state's, and prints what that answers
//   !                prints the refusal of the bytes, 0 for a state
//   ?                prints whether the bytes are a state
//   wDIGITS          prints how many entries wait for the resource
//   iPLACE           prints the number in flight at the place
//   rPLACE           prints the name of the record at the place, and where its event stands
//   c                prints whether there is a cursor, and its text
//   others           end what is printed on a line
#![tactic(auto)]

mod decimal;
mod reading;

ghost use Rattle.std.specs.Prelude.{◌≤◌, length};

use comparison::part;
use decimal::number_of;
use pens::Pen;
use printing::{end, number, show};
use reading::answer;

// A byte more than a state has.
const ROOM: usize = 58544;

// Where the digits start behind an offset.
const BEHIND: usize = 6;

fn fill(bytes: &mut [u8; ROOM], b: usize) {
    let all = [(b % 256) as u8; ROOM];
    Pen { at: 0, ok: true }.part(bytes, &all);
}

fn put(bytes: &mut [u8; ROOM], frame: &mut [u8; lines::MAX_FRAME], line: &[u8]) {
    let at = number_of(part(line, 0, BEHIND));
    let n = lines::frame_of(part(line, BEHIND, line.len()), frame);
    Pen { at, ok: true }.part(bytes, part(frame, 0, n));
}

fn fresh(bytes: &mut [u8], n: usize) {
    if n <= bytes.len() {
        let code = access::fresh(&mut bytes[..n]);
        number(b"", code as usize);
    }
}

// Handles a line of the list, where the first n bytes count, and answers how many count then.
fn one(bytes: &mut [u8; ROOM], frame: &mut [u8; lines::MAX_FRAME], n: usize, line: &[u8]) -> usize {
    if line.len() == 0 {
        end();
        return n;
    }
    let mark = line[0];
    let rest = &line[1..];
    match mark {
        b'=' => {
            return number_of(rest);
        }
        b'>' => show(rest),
        b'*' => fill(bytes, number_of(rest)),
        b'@' => put(bytes, frame, rest),
        b'f' => fresh(bytes, n),
        _ => answer(part(bytes, 0, n), frame, mark, rest),
    }
    n
}

fn walk(list: &[u8])
    requires { length list.now ≤ 65536 }
{
    let mut bytes = [0u8; ROOM];
    let mut frame = [0u8; lines::MAX_FRAME];
    let mut n = 0;
    for line in list.split_inclusive(|b| *b == lines::LINE_FEED) {
        let line = line.strip_suffix(b"\n").unwrap_or(line);
        n = one(&mut bytes, &mut frame, n, line);
    }
}

fn main() {
    let mut space = io::large_buffer();
    let n = io::read_full(0, &mut space);
    walk(&space[..n]);
}
