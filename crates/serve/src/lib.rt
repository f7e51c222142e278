// The program of docs/FRAMES.md, "The program's lines", over standard input and output: each line is answered before more is read.
#![tactic(auto)]

ghost use Rattle.std.specs.Prelude.{◌≡◌, length};
ghost use Rattle.serve.specs.Serves.{Replies, Replied};

use input::Answers;
use std::io::Stdin;

// The file number of standard output.
const STDOUT_FILENO: i32 = 1;

// The longest answer, with what can be read behind it.
const TEXT: usize = program::TEXT + looks::LOOK;

// The state, the buffers that answer a line, and whether what can be read of the state stands behind each answer.
#[derive(Drop)]
struct Desk {
    look: bool,
    state: [u8; engine::STATE],
    work: [u8; engine::STATE],
    out: [u8; frame::MAX_EFFECTS],
    frame: [u8; lines::MAX_FRAME],
    text: [u8; TEXT],
}

impl Desk {
    // Answers a line: the state goes on, and the answer stands at the start of the text.
    fn reply(&mut self, line: &[u8]) -> usize
        ensures is { Replies self.old.look line.now self.old.state self.new.state self.new.text result }
        ensures wish { self.new.look ≡ self.old.look }
    {
        let r = program::answer_line(
            &mut self.state,
            &mut self.work,
            &mut self.out,
            &mut self.frame,
            line,
            &mut self.text,
        );
        let written = r.text;
        if !self.look {
            return written;
        }
        looks::put_look(&self.state, &mut self.text, written)
    }

    // Answers a line, and writes the answer. False where it cannot be written.
    fn write_reply(&mut self, line: &[u8]) -> bool
        ensures is { Replied self.old.look line.now self.old.state self.new.state self.new.text }
        ensures wish { self.new.look ≡ self.old.look }
    {
        let n = self.reply(line);
        let text: &[u8] = &self.text;
        io::write_all(STDOUT_FILENO, &text[..n])
    }
}

impl Answers for Desk {
    ghost use Rattle.serve.specs.Serves.{after_line};

    ghost held = { λ desk. desk.state };

    ghost after_line = { after_line };

    fn answer(&mut self, line: &[u8]) -> bool {
        self.write_reply(line)
    }
}

// Answers the lines of standard input, from a fresh state; with `look`, each with what can be read of the state then.
pub fn serve(stdin: Stdin, look: bool) {
    let mut desk = Desk {
        look,
        state: [0; engine::STATE],
        work: [0; engine::STATE],
        out: [0; frame::MAX_EFFECTS],
        frame: [0; lines::MAX_FRAME],
        text: [0; TEXT],
    };
    access::fresh(&mut desk.state);
    input::serve(stdin, &mut desk);
}
