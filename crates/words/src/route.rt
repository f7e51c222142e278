// The way through the rules: the step that is next, and where to go on behind the rules that are open.
use phrases::{after, alternative, rule};

// How many rules may be open: four more than an attendee's name in an event of a page needs.
const OPEN: usize = 16;

// Where to go on behind the end of a rule, and how many times.
#[derive(Clone, Copy)]
struct Return {
    place: usize,
    times: u64,
}

#[derive(Clone, Copy)]
pub struct Route {
    pub step: usize,
    // Kept: without a heap a stack is an array and how many of its places are used.
    depth: usize,
    returns: [Return; OPEN],
}

// The way to a step.
pub fn to(step: usize) -> Route {
    Route {
        step,
        depth: 0,
        returns: [Return { place: 0, times: 0 }; OPEN],
    }
}

impl Route {
    // On behind a step, where `value` was read; nowhere where the value picks no alternative, no rule has the name, or too many are open.
    pub fn onward(self, rules: &[u8], sign: u8, words: &[u8], value: u64) -> Option<Route> {
        let end = after(rules, self.step);
        match sign {
            b'=' | b'?' => Some(self.at(alternative(rules, end, value)?)),
            b'a' | b'c' | b'n' => self.repeat(rules, end, value),
            b'&' => self.enter(rule(rules, words)?, end, 1),
            _ => Some(self.at(end)),
        }
    }

    // The first alternative if there are none, or the second one so many times.
    fn repeat(self, rules: &[u8], end: usize, count: u64) -> Option<Route> {
        match count {
            0 => Some(self.at(alternative(rules, end, 0)?)),
            1 => Some(self.at(alternative(rules, end, 1)?)),
            _ => {
                let each = alternative(rules, end, 1)?;
                self.enter(each, each, count - 1)
            }
        }
    }

    // On to a step.
    fn at(mut self, step: usize) -> Route {
        self.step = step;
        self
    }

    // On to a step, to go on at a place so many times behind the end of its rule.
    fn enter(mut self, step: usize, place: usize, times: u64) -> Option<Route> {
        let depth = self.depth;
        *self.returns.get_mut(depth)? = Return { place, times };
        self.depth = depth + 1;
        Some(self.at(step))
    }

    // Behind the end of a rule; nowhere where none is open.
    pub fn leave(mut self) -> Option<Route> {
        let top = self.depth.checked_sub(1)?;
        let open = self.returns.get_mut(top)?;
        open.times = open.times.saturating_sub(1);
        self.step = open.place;
        if open.times == 0 {
            self.depth = top;
        }
        Some(self)
    }
}
