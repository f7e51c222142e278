// Two clerks, one booking: the one line of standard input is the frame in hexadecimal. It prints a line for each order of the writes, or a refusal's number.
#![tactic(auto)]

ghost use Rattle.std.specs.Prelude.{◌≤◌, ◌<◌, length};
ghost use Rattle.lines.specs.Lines.{max_digits};
ghost use Rattle.input.specs.Ready.{left_of};
ghost use Rattle.clerks_lines.specs.Text.{text_bytes};
ghost use Rattle.clerks.specs.Printed.{Prints};

use clerks_bytes::NO_FRAME;
use clerks_lines::TEXT;
use input::Lines;

// The file number of standard output.
const STDOUT_FILENO: i32 = 1;

// The answer to what is left of the input.
fn answer(input: &mut Lines, line: &mut [u8], text: &mut [u8]) -> usize
    requires { (max_digits < length line.old) × (text_bytes ≤ length text.old) }
    ensures { Prints (left_of input.old) text.new result }
{
    match input.only(line) {
        Some(have) => clerks_lines::answer_line(&line[..have], text),
        None => clerks_lines::put_number(text, NO_FRAME),
    }
}

fn main(rt: HostRuntime) {
    let mut input = Lines::new(rt.stdin());
    let mut line = [0; lines::LINE];
    let mut text = [0; TEXT];
    let n = answer(&mut input, &mut line, &mut text);
    io::write_all(STDOUT_FILENO, &text[..n]);
}
