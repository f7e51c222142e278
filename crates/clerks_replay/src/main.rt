// Frames of two clerks on standard input, each line answered as if it were the only one: tools/clerks_cases.py made the lines and the answers.
#![tactic(auto)]

ghost use Rattle.std.specs.Prelude.{[]};

use clerks_lines::TEXT;
use input::Answers;

// The file number of standard output.
const STDOUT_FILENO: i32 = 1;

// Nothing is held from line to line but room for an answer.
#[derive(Drop)]
struct Desk {
    text: [u8; TEXT],
}

impl Answers for Desk {
    ghost held = { λ desk. [] };

    ghost after_line = { λ held line. [] };

    fn answer(&mut self, line: &[u8]) -> bool {
        let n = clerks_lines::answer_line(line, &mut self.text);
        io::write_all(STDOUT_FILENO, &self.text[..n]);
        true
    }
}

fn main(rt: HostRuntime) {
    let mut desk = Desk { text: [0; TEXT] };
    input::serve(rt.stdin(), &mut desk);
}
