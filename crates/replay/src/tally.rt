// What is counted, and how far the answer to the last frame is compared.
use comparison::same;
use printing::{number, show};

#[derive(Clone, Copy)]
pub struct Tally {
    // of the text that answers the last frame: what is compared, its end, and whether all of that was the same
    at: usize,
    end: usize,
    same: bool,
    // of this run
    frames: u64,
    differences: u64,
    // of the runs before
    runs: u64,
    all_frames: u64,
    all_differences: u64,
}

const MANY: u64 = 1_000_000_000;

fn plus(a: u64, b: u64) -> u64 {
    if MANY < a {
        return a;
    }
    if MANY < b {
        return b;
    }
    a + b
}

// The place after the line in the text from `at` to `end`, or 0 where it does not stand there.
fn after(text: &[u8], at: usize, end: usize, line: &[u8]) -> usize {
    if text.len() < end {
        return 0;
    }
    if end < at {
        return 0;
    }
    if end - at <= line.len() {
        return 0;
    }
    let feed = at + line.len();
    if text[feed] != lines::LINE_FEED {
        return 0;
    }
    if same(&text[at..feed], line) {
        return feed + 1;
    }
    0
}

fn counts(frames: u64, differences: u64) {
    number(b"", frames as usize);
    number(b" frames,", differences as usize);
    show(b" differences\n");
}

impl Tally {
    pub fn new() -> Tally {
        Tally {
            at: 0,
            end: 0,
            same: true,
            frames: 0,
            differences: 0,
            runs: 0,
            all_frames: 0,
            all_differences: 0,
        }
    }

    // The last frame has been answered, and its answer compared.
    fn settled(self) -> Tally {
        let mut t = self;
        if !t.same || t.at != t.end {
            t.differences = plus(t.differences, 1);
        }
        t.at = 0;
        t.end = 0;
        t.same = true;
        t
    }

    // Prints the run's counts, and adds them to those of the runs before.
    fn closed(self) -> Tally {
        let mut t = self.settled();
        if t.runs != 0 {
            show(b":");
            counts(t.frames, t.differences);
        }
        t.all_frames = plus(t.all_frames, t.frames);
        t.all_differences = plus(t.all_differences, t.differences);
        t.frames = 0;
        t.differences = 0;
        t
    }

    // A run starts.
    pub fn started(self, name: &[u8]) -> Tally {
        let mut t = self.closed();
        show(name);
        t.runs = plus(t.runs, 1);
        t
    }

    // A frame is answered by a text with this end.
    pub fn asked(self, end: usize) -> Tally {
        let mut t = self.settled();
        t.end = end;
        t.frames = plus(t.frames, 1);
        t
    }

    // The next line of the published answer.
    pub fn answered(self, text: &[u8], line: &[u8]) -> Tally {
        let mut t = self;
        let next = after(text, t.at, t.end, line);
        if next == 0 {
            t.same = false;
            return t;
        }
        t.at = next;
        t
    }

    // The list is over.
    pub fn ended(self) {
        let t = self.closed();
        number(b"all:", t.runs as usize);
        show(b" runs,");
        counts(t.all_frames, t.all_differences);
    }
}
