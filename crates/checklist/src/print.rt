// What the program prints.
ghost use Rattle.std.specs.Prelude.{T};
ghost use Rattle.phrases.specs.Shown.{plain, Ready, Shows};

use comparison::part;
use pens::Pen;

// Room for a line's words with every byte by its number, and for what stands around them.
const LINE: usize = 262208;

#[tactic(auto, using(phrases::proofs::Printed::plain_shown))]
pub fn show(words: &[u8])
    requires { T (plain words.now) }
{
    phrases::print(words);
}

fn all(text: &[u8], pen: Pen)
    requires { Ready text.now pen }
{
    if pen.ok {
        phrases::print(part(text, 0, pen.at));
    } else {
        show(b"    (too long to print)\n");
    }
}

// Words of the list behind words of the program. No escape sequence in a list reaches a terminal.
pub fn line(head: &[u8], words: &[u8])
    requires { T (plain head.now) }
{
    let mut text = [0u8; LINE];
    let end = put_line(&mut text, head, words);
    all(&text, end);
}

fn put_line(text: &mut [u8], head: &[u8], words: &[u8]) -> Pen
    requires { T (plain head.now) }
    ensures { Ready text.new result }
{
    let start = Pen { at: 0, ok: true };
    let said = phrases::shown(start.part(text, head), text, words, false);
    said.byte(text, b'\n')
}

// The effects in words, each on a line of its own.
fn put_effects(pen: Pen, text: &mut [u8], effects: &[u8]) -> Pen
    ensures { Shows text.old text.new pen result }
{
    let mut said = pen;
    for effect in words::effects_in(effects) {
        let head = said.part(text, b"\n    effect: ");
        said = words::effect(head, text, effect);
    }
    said
}

// A step: the frame in digits and in words, the answer and the effects.
pub fn step(digits: &[u8], frame: &[u8], code: u8, effects: &[u8]) {
    let mut text = [0u8; LINE];
    line(b"  frame ", digits);
    let end = put_step(&mut text, frame, code, effects);
    all(&text, end);
}

fn put_step(text: &mut [u8], frame: &[u8], code: u8, effects: &[u8]) -> Pen
    ensures { Ready text.new result }
{
    let start = Pen { at: 0, ok: true };
    let input = words::input(start.part(text, b"    "), text, frame);
    let answer = words::answer(input.part(text, b"\n    "), text, code);
    let told = put_effects(answer, text, effects);
    told.byte(text, b'\n')
}
