// The reading place, and a reader for each plain type: a byte, a text, a number, a timestamp.
#![tactic(auto)]

mod calls;
mod events;
mod leaves;
mod seam;

// A reading place: the bytes from there on. A reader takes it and hands back the value beside the place after it, or None where the
// bytes are not of its form. A method `skip_..` walks past a value and hands back the place alone.
#[derive(Clone, Copy)]
pub struct Reader<'a> {
    pub rest: &'a [u8],
}
