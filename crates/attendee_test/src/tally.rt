// What is said of each case, and of how many.
use printing::{end, number, show};

// Whether the bytes that differ are the writer's own.
#[derive(Clone, Copy)]
pub enum Claim {
    Own(usize),
    Other(usize),
    NoEvent,
}

// What the port's merge is beside the event.
#[derive(Clone, Copy)]
pub enum Beside {
    Same,
    Differs,
    Refused,
}

// How many cases there were, and of how many each was said.
#[derive(Clone, Copy, Default)]
pub struct Totals {
    cases: usize,
    own: usize,
    changed: usize,
    other: usize,
    broken: usize,
    differ: usize,
    refused: usize,
}

fn count(n: &mut usize) {
    *n = n.saturating_add(1);
}

impl Totals {
    // A case's line.
    pub fn tell(&mut self, claim: Claim, beside: Beside) {
        count(&mut self.cases);
        self.tell_claim(claim);
        self.tell_beside(beside);
        end();
    }

    // Prints what is claimed, and counts it.
    fn tell_claim(&mut self, claim: Claim) {
        match claim {
            Claim::Own(n) => {
                number(b"own", n);
                count(&mut self.own);
                if 0 < n {
                    count(&mut self.changed);
                }
            }
            Claim::Other(at) => {
                number(b"other", at);
                count(&mut self.other);
            }
            Claim::NoEvent => {
                show(b"no event");
                count(&mut self.broken);
            }
        }
    }

    // Prints what the port's merge is beside it, and counts that.
    fn tell_beside(&mut self, beside: Beside) {
        match beside {
            Beside::Same => {}
            Beside::Differs => {
                show(b" port differs");
                count(&mut self.differ);
            }
            Beside::Refused => {
                show(b" port refused");
                count(&mut self.refused);
            }
        }
    }

    pub fn last_line(&self) {
        number(b"cases", self.cases);
        number(b": own", self.own);
        number(b", with a change", self.changed);
        number(b"; other", self.other);
        number(b"; no event", self.broken);
        number(b"; port differs", self.differ);
        number(b", refused", self.refused);
        end();
    }
}
