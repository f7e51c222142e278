// The lines of standard input, answered one by one: each is answered before more is read. Input is read in chunks, and a line may lie in several.
#![tactic(auto)]

mod chunks;
mod source;

ghost use Rattle.std.specs.Prelude.{◌≡◌, [], ◌≤◌, false, List, ℕ, length, take};
ghost use Rattle.input.specs.Ready.{left_of, Hands};
ghost use Rattle.input.specs.Only.{OnlyRead};
ghost use Rattle.input.specs.Served.{Served};
ghost use Rattle.lines.specs.Lines.{max_digits};

pub use chunks::{Input, Only, only_line, read_line, take_part};
use lines::LINE;
pub use source::Lines;
use std::io::Stdin;

impl Lines {
    pub fn new(stdin: Stdin) -> Lines
        ensures { (result.ended ≡ false) × (left_of result ≡ []) }
    {
        Lines {
            stdin,
            chunk: io::large_buffer(),
            at: 0,
            end: 0,
            ended: false,
        }
    }

    // Reads the next line, and says how many bytes of it are kept.
    pub fn next(&mut self, line: &mut [u8]) -> Option<usize>
        ensures { Hands self.old self.new line.new result }
    {
        if self.ended {
            return None;
        }
        let p = chunks::read_line(self.stdin, &mut self.chunk, line, self.at, self.end);
        self.at = p.at;
        self.end = p.end;
        self.ended = p.ended;
        if !p.whole {
            return None;
        }
        Some(p.have)
    }

    // Reads the one line of what is left and of standard input, if there is just one. Of a second line no more is kept than tells that there is one.
    #[tactic(auto, using(crate::proofs::OnlyLaws::only_none, crate::proofs::OnlyLaws::only_one))]
    pub fn only(&mut self, line: &mut [u8]) -> Option<usize>
        requires { 1 ≤ length line.old }
        ensures { OnlyRead (left_of self.old) line.new result }
    {
        let have = self.next(line)?;
        let mut more = [0; 1];
        match self.next(&mut more) {
            None if self.ended => Some(have),
            _ => None,
        }
    }
}

// What answers lines, one after the other.
pub trait Answers {
    // what is held as bytes, and what is held after a line
    ghost held: { Self → List ℕ };

    ghost after_line: { List ℕ → List ℕ → List ℕ };

    // Answers a line, and writes the answer. False where it cannot be written.
    fn answer(&mut self, line: &[u8]) -> bool
        ensures { held self.new ≡ after_line (held self.old) line.now };
}

// Answers the lines of standard input. Nothing says that there is a last one, so the turns are counted, up to a number that no run reaches.
#[tactic(auto, using(crate::proofs::Serving::serves_start, crate::proofs::Serving::serves_end))]
pub fn serve<A: Answers>(stdin: Stdin, desk: &mut A)
    ensures { Served A.after_line LINE (A.held desk.old) (A.held desk.new) }
{
    let mut lines = Lines::new(stdin);
    let mut line = [0; LINE];
    for _ in 0..u64::MAX {
        let Some(have) = lines.next(&mut line) else {
            return;
        };
        if !desk.answer(&line[..have]) {
            return;
        }
    }
}
