// Lines out of what is read.
ghost use Rattle.std.specs.Prelude.{◌≤◌};
ghost use Rattle.lines.specs.declared.TheConstants.{LINE};

use crate::said::explain;
use lines::{LINE, LINE_FEED};
use std::io::{Read, Stdin};

// The line that is read: its number, and its bytes so far.
#[derive(Drop)]
pub struct Line {
    number: u64,
    bytes: [u8; LINE],
    have: usize,
    ghost fits: { have ≤ LINE },
}

// The first line.
pub fn first() -> Line {
    Line {
        number: 1,
        bytes: [0; LINE],
        have: 0,
    }
}

// Reads once, and explains the lines that end there. Whether the input goes on; the last line may lack its line feed.
pub fn read_some(stdin: Stdin, state: &mut [u8], line: &mut Line) -> bool {
    let mut chunk = io::large_buffer();
    let mut from = stdin;
    let n = from.read(&mut chunk).unwrap_or(0);
    if n == 0 {
        line.last(state);
        return false;
    }
    for part in chunk[..n].split_inclusive(|b| *b == LINE_FEED) {
        line.go_on(state, part);
    }
    true
}

impl Line {
    // The line goes on with a part of what was read, which may end it.
    fn go_on(&mut self, state: &mut [u8], part: &[u8]) {
        match part.strip_suffix(&[LINE_FEED]) {
            Some(rest) => {
                self.longer(rest);
                self.ended(state);
            }
            None => self.longer(part),
        }
    }

    fn longer(&mut self, part: &[u8]) {
        self.have = lines::keep(&mut self.bytes, self.have, part);
    }

    // The line is whole.
    fn ended(&mut self, state: &mut [u8]) {
        explain(state, self.number, &self.bytes[..self.have]);
        self.number = self.number.saturating_add(1);
        self.have = 0;
    }

    fn last(&mut self, state: &mut [u8]) {
        if 0 < self.have {
            self.ended(state);
        }
    }
}
