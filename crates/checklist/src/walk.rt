// How far a walk has come, and what its lines do to it.
use crate::{conditions, print, split};
use comparison::part;
use pens::Pen;

// A state's buffer.
pub type State = [u8; engine::STATE];

// The effects since the last mark, back to back.
pub type Log = [u8; frame::MAX_EFFECTS];

#[derive(Clone, Copy)]
pub struct Walk {
    // where the effects end in the log
    pub log: Pen,
    // the number with which the last frame was refused, until a line expects it
    refused: Option<u8>,
    // whether all conditions since the last check are met, where there are any
    met: Option<bool>,
    // whether the walk has a check, and whether it holds so far
    checked: bool,
    holds: bool,
    // whether all walks before it hold, where there are any
    all: Option<bool>,
    // whether its verdict is still to be printed
    pub open: bool,
}

// Before the first walk.
pub fn first() -> Walk {
    behind(None)
}

// Behind walks of which this is known, before the next one.
fn behind(all: Option<bool>) -> Walk {
    Walk {
        log: Pen { at: 0, ok: true },
        refused: None,
        met: None,
        checked: false,
        holds: true,
        all,
        open: false,
    }
}

// What is known of all, with one more.
fn with(all: Option<bool>, one: bool) -> Option<bool> {
    Some(all.unwrap_or(true) && one)
}

impl Walk {
    // A line of the walk has come.
    pub fn opened(mut self) -> Walk {
        self.open = true;
        self
    }

    pub fn logged(mut self, log: Pen) -> Walk {
        self.log = log;
        self
    }

    // A refusal that no line expects.
    pub fn settled(mut self) -> Walk {
        if self.refused.take().is_some() {
            print::show(
                b"  does NOT hold: the frame is refused, and no line 'refused' expects it\n",
            );
            self.holds = false;
        }
        self
    }

    // A refusal is expected, with this number.
    pub fn expects(mut self, line: &[u8], number: &[u8]) -> Walk {
        let met = match self.refused.take() {
            Some(code) => conditions::is(u64::from(code), number),
            None => false,
        };
        self.answered(line, met)
    }

    // A condition is met or not.
    pub fn answered(mut self, line: &[u8], met: bool) -> Walk {
        if !met {
            print::line(b"  fails: ", line);
        }
        self.met = with(self.met, met);
        self.holds = self.holds && met;
        self
    }

    // A check of no condition does not hold.
    pub fn check(mut self, words: &[u8]) -> Walk {
        let holds = self.met.take().unwrap_or(false);
        if holds {
            print::line(b"  holds: ", words);
        } else {
            print::line(b"  does NOT hold: ", words);
        }
        self.checked = true;
        self.holds = self.holds && holds;
        self
    }

    // The walk's end. A walk that checks nothing does not hold.
    fn close(self) -> Walk {
        if !self.open {
            return behind(self.all);
        }
        let holds = self.checked && self.holds;
        if !self.checked {
            print::show(b"  no line 'check' stands in this walk\n");
        }
        if holds {
            print::show(b"The walk holds.\n\n");
        } else {
            print::show(b"The walk does NOT hold.\n\n");
        }
        behind(with(self.all, holds))
    }
}

pub fn begin(state: &mut State, before: Walk, title: &[u8]) -> Walk {
    let walk = before.close();
    access::fresh(state);
    print::line(b"", title);
    walk.opened()
}

// The list's end.
pub fn end(before: Walk, words: &[u8]) -> Walk {
    let walk = before.close();
    match walk.all {
        None => print::show(b"NOT all walks hold: the list has none.\n"),
        Some(true) => print::line(b"All ", words),
        Some(false) => print::line(b"NOT all ", words),
    }
    walk
}

// Hands a frame to the engine, prints what comes of it, and keeps the answer and the effects.
fn hand(state: &mut State, log: &mut Log, before: Walk, digits: &[u8], frame: &[u8]) -> Walk {
    let mut work = [0u8; engine::STATE];
    let mut out = [0u8; frame::MAX_EFFECTS];
    let a = engine::step(state, &mut work, &mut out, frame);
    let effects = part(&out, 0, a.length);
    print::step(digits, frame, a.code, effects);
    let mut walk = before.logged(before.log.part(log, effects));
    walk.refused = if a.code == 0 { None } else { Some(a.code) };
    walk
}

pub fn step(state: &mut State, log: &mut Log, before: Walk, line: &[u8]) -> Walk {
    let mut frame = [0u8; lines::MAX_FRAME];
    let (_, digits) = split::cut(line);
    let n = lines::frame_of(digits, &mut frame);
    if n == 0 {
        print::line(b"  bad digits: ", digits);
        return before.answered(line, false);
    }
    let walk = hand(state, log, before, digits, part(&frame, 0, n));
    if walk.log.ok {
        return walk;
    }
    print::show(b"  too many effects since the last mark\n");
    walk.answered(line, false)
}
