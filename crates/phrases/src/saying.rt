// A phrase, with words and values in the place of its marks.
ghost use Rattle.std.specs.Prelude.{T};
ghost use Rattle.phrases.specs.Shown.{plain_byte, plain, Shows};

use crate::reading::Found;
use crate::writing::{decimal, quoted};
use pens::Pen;

// Says what was found in the frame s, behind the phrase of the name `last`, if one was said.
#[tactic(auto, using(crate::proofs::Printed::plain_at))]
pub fn say(
    pen: Pen,
    out: &mut [u8],
    s: &[u8],
    phrase: &[u8],
    words: &[u8],
    found: Found,
    last: Option<u8>,
) -> Pen
    requires plain_phrase { T (plain phrase.now) }
    requires plain_words { T (plain words.now) }
    ensures { Shows out.old out.new pen result }
{
    let mut said = pen;
    for b in phrase {
        said = mark(said, out, s, *b, words, found, last);
    }
    said
}

// What stands for a mark; any other byte stands for itself.
fn mark(
    pen: Pen,
    out: &mut [u8],
    s: &[u8],
    b: u8,
    words: &[u8],
    found: Found,
    last: Option<u8>,
) -> Pen
    requires plain_mark { T (plain_byte b) }
    requires plain_words { T (plain words.now) }
    ensures { Shows out.old out.new pen result }
{
    match b {
        b'$' => pen.part(out, words),
        b'\'' => quoted(pen, out, frame::text_at(s, found.at, found.limit)),
        b'#' => decimal(pen, out, found.value),
        b'@' => decimal(pen, out, found.at as u64),
        b'%' => decimal(pen, out, found.limit as u64),
        b'^' => comma(pen, out, last),
        b'!' => dots(pen, out, last),
        _ => pen.byte(out, b),
    }
}

// The comma that is due before an item, unless the first words of one or nothing was said last.
fn comma(pen: Pen, out: &mut [u8], last: Option<u8>) -> Pen
    ensures { Shows out.old out.new pen result }
{
    match last {
        None | Some(b'>' | b'+') => pen,
        _ => pen.part(out, b", "),
    }
}

// The dots before what is wrong.
fn dots(pen: Pen, out: &mut [u8], last: Option<u8>) -> Pen
    ensures { Shows out.old out.new pen result }
{
    match last {
        None => pen,
        Some(b'>' | b'+') => pen.part(out, b"... "),
        _ => pen.part(out, b" ... "),
    }
}
