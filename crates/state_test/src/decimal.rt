// Decimal numbers of the list.
const HIGHEST: usize = 0xffff_ffff_ffff_ffff;

// The number with a digit more; one of over 19 digits is the highest.
fn with_digit(n: usize, digit: u8) -> usize {
    if 1_000_000_000_000_000_000 <= n {
        return HIGHEST;
    }
    if digit < b'0' {
        return n;
    }
    if b'9' < digit {
        return n;
    }
    n * 10 + (digit - b'0') as usize
}

// The decimal number; what is no digit is passed over.
pub fn number_of(digits: &[u8]) -> usize {
    digits.iter().fold(0, |n, digit| with_digit(n, *digit))
}
