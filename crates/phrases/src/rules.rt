// Places in a text of rules. A line is a rule: its name and its steps, each behind a |; where a / stands in place of the |, another
// alternative starts.
ghost use Rattle.std.specs.Prelude.{◌≡◌, ◌+◌, length, position};
ghost use Rattle.phrases.specs.Rules.{ends_step, step_at};

use comparison::part;

fn ends(b: u8) -> bool
    ensures { result ≡ ends_step b }
{
    matches!(b, b'|' | b'/' | b'\n')
}

// Where the first byte stands that ends a step.
fn first_end(rest: &[u8]) -> Option<usize>
    ensures { result ≡ position ends_step rest.now }
{
    rest.iter().position(|b| ends(*b))
}

// Where the step, or the name, at a place ends.
#[tactic(auto, using(crate::proofs::Steps::step_first, crate::proofs::Steps::rest_all))]
fn step_end(rules: &[u8], at: usize) -> usize
    ensures { result ≡ at + length (step_at rules.now at) }
{
    let rest = part(rules, at, rules.len());
    at + first_end(rest).unwrap_or(rest.len())
}

// The step at a place; nothing where a rule or an alternative ends.
#[tactic(auto, using(crate::proofs::Steps::step_span))]
pub fn step(rules: &[u8], at: usize) -> &[u8]
    ensures { result.now ≡ step_at rules.now at }
{
    part(rules, at, step_end(rules, at))
}

// The place behind a step: the next step's, or the end of the rule or the alternative.
pub fn after(rules: &[u8], at: usize) -> usize {
    let end = step_end(rules, at);
    match rules.get(end) {
        Some(b'|') => end + 1,
        _ => end,
    }
}

// Where the first step of the rule with this name stands.
pub fn rule(rules: &[u8], name: &[u8]) -> Option<usize> {
    for (i, b) in rules.iter().enumerate() {
        if *b == b'\n' && step(rules, i + 1) == name {
            return Some(after(rules, i + 1));
        }
    }
    None
}

// Where alternative k, counted from 0, starts of those behind a place, if there are so many.
pub fn alternative(rules: &[u8], from: usize, k: u64) -> Option<usize> {
    let rest = part(rules, from, rules.len());
    let mut left = k;
    for (i, b) in rest.iter().enumerate() {
        match b {
            b'\n' => return None,
            b'/' if left == 0 => return Some(from + i + 1),
            b'/' => left -= 1,
            _ => {}
        }
    }
    None
}
