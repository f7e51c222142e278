// The field engineers' walks, run on the engine. The list on standard input (tools/walk_cases.py writes crates/checklist/stdin; at most 64 KiB)
// has lines of the kinds that README.md tells under "A walk of your own".
// A condition that is not met, a refusal that no line expects, and a line that is none of these are printed, and the walk does not hold; nor does one without a check.
#![tactic(auto)]

mod conditions;
mod counting;
mod kinds;
mod print;
mod reading;
mod split;
mod walk;

use comparison::part;
use kinds::Kind;
use pens::Pen;
use walk::{Log, State, Walk};

// Handles a line that is a condition, or of no known kind.
fn condition(state: &State, log: &Log, walk: Walk, kind: Option<Kind>, line: &[u8]) -> Walk {
    let (_, rest) = split::cut(line);
    let effects = part(log, 0, walk.log.at);
    let met = conditions::met(state, effects, kind, rest);
    walk.answered(line, met)
}

// Handles a line of the list.
fn one(state: &mut State, log: &mut Log, before: Walk, line: &[u8]) -> Walk {
    let (_, rest) = split::cut(line);
    match kinds::of(line) {
        Some(Kind::Note) => before,
        Some(Kind::Refused) => before.opened().expects(line, rest),
        kind => act(state, log, before.settled(), kind, line),
    }
}

// Does what a line says that is neither passed over nor expects a refusal.
fn act(state: &mut State, log: &mut Log, before: Walk, kind: Option<Kind>, line: &[u8]) -> Walk {
    let (_, rest) = split::cut(line);
    let walk = before.opened();
    match kind {
        Some(Kind::Walk) => walk::begin(state, before, rest),
        Some(Kind::Expected) => {
            print::line(b"Expected: ", rest);
            walk
        }
        Some(Kind::Frame) => walk::step(state, log, walk, line),
        Some(Kind::Mark) => walk.logged(Pen { at: 0, ok: true }),
        Some(Kind::Check) => walk.check(rest),
        Some(Kind::All) => walk::end(before, rest),
        kind => condition(state, log, walk, kind, line),
    }
}

fn run(list: &[u8]) {
    let mut state = [0u8; engine::STATE];
    let mut log = [0u8; frame::MAX_EFFECTS];
    let mut walk = walk::first();
    for line in list.split(|b| *b == lines::LINE_FEED) {
        walk = one(&mut state, &mut log, walk, line);
    }
    if walk.open {
        print::show(b"NOT all walks hold: the list has no line 'all' at its end.\n");
    }
}

fn main() {
    let mut space = io::large_buffer();
    let n = io::read_full(0, &mut space);
    run(&space[..n]);
}
