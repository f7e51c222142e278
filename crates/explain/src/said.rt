// What is said of a line: its frame or what is wrong with it, the engine's answer, the effects. Every line that is printed starts with the
// number of the line that it is about, so that a search finds it whole.
ghost use Rattle.std.specs.Prelude.{T};
ghost use Rattle.phrases.specs.Shown.{plain, Ready};

use crate::faults;
use comparison::part;
use frame::Parsed;
use pens::Pen;

pub fn explain(state: &mut [u8], number: u64, line: &[u8]) {
    let mut frame = [0u8; lines::MAX_FRAME];
    let n = lines::frame_of(line, &mut frame);
    let bytes = &frame[..n];
    if n == 0 {
        no_digits(number, line);
    } else {
        input(number, bytes);
    }
    answer(state, number, bytes);
}

// The first words of a printed line.
fn head(text: &mut [u8], number: u64, what: &[u8]) -> Pen
    requires { T (plain what.now) }
    ensures { Ready text.new result }
{
    let start = Pen { at: 0, ok: true };
    let counted = phrases::decimal(start.part(text, b"line "), text, number);
    counted.part(text, b", ").part(text, what).part(text, b": ")
}

fn no_digits(number: u64, line: &[u8]) {
    let mut text = [0u8; 65536];
    let start = head(&mut text, number, b"no frame");
    let end = faults::fault(start, &mut text, line);
    phrases::print_line(&mut text, end);
}

// Whether the bytes are a frame is said by `parse`; the words follow them as far as they can be read.
fn input(number: u64, frame: &[u8]) {
    let mut text = [0u8; 65536];
    let start = verdict(&mut text, number, frame);
    let end = words::input(start, &mut text, frame);
    phrases::print_line(&mut text, end);
}

fn verdict(text: &mut [u8], number: u64, frame: &[u8]) -> Pen
    ensures { Ready text.new result }
{
    match frame::parse(frame) {
        Parsed::NoFrame => head(text, number, b"no frame"),
        Parsed::Frame(_) => head(text, number, b"frame"),
    }
}

fn answer(state: &mut [u8], number: u64, frame: &[u8]) {
    let mut work = [0u8; engine::STATE];
    let mut out = [0u8; frame::MAX_EFFECTS];
    let a = engine::step(state, &mut work, &mut out, frame);
    code(number, a.code);
    for bytes in words::effects_in(part(&out, 0, a.length)) {
        effect(number, bytes);
    }
}

fn code(number: u64, code: u8) {
    let mut text = [0u8; 4096];
    let start = head(&mut text, number, b"answer");
    let end = words::answer(start, &mut text, code);
    phrases::print_line(&mut text, end);
}

fn effect(number: u64, bytes: &[u8]) {
    let mut text = [0u8; 65536];
    let start = head(&mut text, number, b"effect");
    let end = words::effect(start, &mut text, bytes);
    phrases::print_line(&mut text, end);
}
