// The sender over standard input and output: a use a line in hexadecimal, from a fresh sender; each line is answered before more is read.
#![tactic(auto)]

ghost use Rattle.sender.specs.Replied.{Replied};

use input::Answers;

// The file number of standard output.
const STDOUT_FILENO: i32 = 1;

// The bytes of the longest answer.
const TEXT: usize = sender_lines::TEXT;

// The sender, and the buffers that answer a line.
#[derive(Drop)]
struct Desk {
    sender: [u8; sender_bytes::LENGTH],
    frame: [u8; lines::MAX_FRAME],
    text: [u8; TEXT],
}

impl Desk {
    // Answers a line, and writes the answer. False where it cannot be written.
    fn reply(&mut self, line: &[u8]) -> bool
        ensures { Replied line.now self.old.sender self.new.sender self.new.text }
    {
        let n = sender_lines::answer_line(&mut self.sender, &mut self.frame, line, &mut self.text);
        io::write_all(STDOUT_FILENO, &self.text[..n])
    }
}

impl Answers for Desk {
    ghost use Rattle.sender_lines.specs.Answers.{after_line};

    ghost held = { λ desk. desk.sender };

    ghost after_line = { after_line };

    fn answer(&mut self, line: &[u8]) -> bool {
        self.reply(line)
    }
}

fn main(rt: HostRuntime) {
    let mut desk = Desk {
        sender: [0; sender_bytes::LENGTH],
        frame: [0; lines::MAX_FRAME],
        text: [0; TEXT],
    };
    let _ = sender_bytes::fresh(&mut desk.sender);
    input::serve(rt.stdin(), &mut desk);
}
