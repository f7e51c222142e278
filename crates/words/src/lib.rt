// Inputs, answers and effects in words, and frames of two clerks, for those who read them.
#![tactic(auto)]

mod cutting;
mod grammar;
mod route;
mod walk;

ghost use Rattle.phrases.specs.Shown.{Shows};

pub use cutting::{Effects, effects_in};
use grammar::said;
use pens::Pen;

// What an input frame says. Where the bytes are no input frame, how far they can be read, the first byte that cannot, and why.
pub fn input(pen: Pen, out: &mut [u8], frame: &[u8]) -> Pen
    ensures { Shows out.old out.new pen result }
{
    said(pen, out, frame, b"frame")
}

// What the engine answered: 0, or a refusal's number.
pub fn answer(pen: Pen, out: &mut [u8], code: u8) -> Pen
    ensures { Shows out.old out.new pen result }
{
    said(pen, out, &[code], b"answer")
}

// What an effect says.
pub fn effect(pen: Pen, out: &mut [u8], effect: &[u8]) -> Pen
    ensures { Shows out.old out.new pen result }
{
    said(pen, out, effect, b"told")
}

// What an event says.
pub fn event(pen: Pen, out: &mut [u8], bytes: &[u8]) -> Pen
    ensures { Shows out.old out.new pen result }
{
    said(pen, out, bytes, b"event")
}

// What a party's role and wanted event say.
pub fn party(pen: Pen, out: &mut [u8], bytes: &[u8]) -> Pen
    ensures { Shows out.old out.new pen result }
{
    said(pen, out, bytes, b"party")
}

// What a frame of two clerks says. Where the bytes are no such frame, how far they can be read, the first byte that cannot, and why.
pub fn clerks(pen: Pen, out: &mut [u8], frame: &[u8]) -> Pen
    ensures { Shows out.old out.new pen result }
{
    said(pen, out, frame, b"clerks")
}
