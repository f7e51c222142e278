// Why a line holds no bytes. Its columns are counted from 1.
ghost use Rattle.phrases.specs.Shown.{Shows};

use lines::MAX_DIGITS;
use pens::Pen;

fn is_digit(c: u8) -> bool {
    matches!(c, b'0'..=b'9' | b'a'..=b'f')
}

// The first thing that is wrong.
pub fn fault(pen: Pen, text: &mut [u8], line: &[u8]) -> Pen
    ensures { Shows text.old text.new pen result }
{
    if line.is_empty() {
        return pen.part(text, b"the line is empty");
    }
    if MAX_DIGITS < line.len() {
        return pen.part(text, b"the line has more than 16384 digits");
    }
    match line.iter().position(|c| !is_digit(*c)) {
        Some(at) => no_digit(pen, text, at, line[at]),
        None => {
            let odd = pen.part(text, b"an odd number of digits, ");
            phrases::decimal(odd, text, line.len() as u64)
        }
    }
}

fn no_digit(pen: Pen, text: &mut [u8], at: usize, c: u8) -> Pen
    ensures { Shows text.old text.new pen result }
{
    let number = (at as u64).saturating_add(1);
    let column = phrases::decimal(pen.part(text, b"column "), text, number);
    let shown = phrases::quoted(column.part(text, b": "), text, &[c]);
    shown.part(text, b" is not a lowercase hexadecimal digit")
}
