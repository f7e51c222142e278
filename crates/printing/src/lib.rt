// What test programs print: labels with an answer behind each, some to a line.
#![tactic(auto)]

// The file number of standard output.
const STDOUT_FILENO: i32 = 1;

pub fn show(bytes: &[u8]) {
    io::write_all(STDOUT_FILENO, bytes);
}

pub fn say(label: &[u8], answer: bool) {
    show(label);
    if answer {
        show(b" yes");
    } else {
        show(b" no");
    }
}

pub fn number(label: &[u8], n: usize) {
    show(label);
    show(b" ");
    io::print_decimal(STDOUT_FILENO, n as u64);
}

pub fn end() {
    show(b"\n");
}
