// A walk through the rules and a frame together. Where the bytes are not what they should be, the text says so, and nothing is read or said
// from there on.
ghost use Rattle.std.specs.Prelude.{T};
ghost use Rattle.phrases.specs.Shown.{plain, Shows};

use crate::route;
use crate::route::Route;
use comparison::part;
use pens::Pen;
use phrases::{Found, rule, step};

// More than the longest walk has: an effect with 255 conflicts and 255 refused fields takes about 30,000.
const TURNS: u32 = 65536;

// Where the walk is in the rules and in the frame, and the phrase that was said last.
#[derive(Clone, Copy)]
struct Walk {
    route: Route,
    at: usize,
    last: Option<u8>,
}

// Says a frame by the rule of this name.
pub fn follow(pen: Pen, out: &mut [u8], frame: &[u8], rules: &[u8], name: &[u8]) -> Pen
    requires { T (plain rules.now) }
    ensures { Shows out.old out.new pen result }
{
    let mut said = pen;
    let mut walk = rule(rules, name).map(|step| Walk {
        route: route::to(step),
        at: 0,
        last: None,
    });
    for _ in 0..TURNS {
        let Some(here) = walk else {
            return said;
        };
        let (end, next) = turn(here, said, out, frame, rules);
        said = end;
        walk = next;
    }
    said
}

// One step, or the end of a rule; then where the walk goes on.
fn turn(walk: Walk, pen: Pen, out: &mut [u8], frame: &[u8], rules: &[u8]) -> (Pen, Option<Walk>)
    requires { T (plain rules.now) }
    ensures { Shows out.old out.new pen result.0 }
{
    let route = walk.route;
    let text = step(rules, route.step);
    let [sign, ..] = text else {
        return (pen, route.leave().map(|route| Walk { route, ..walk }));
    };
    let words = part(text, 2, text.len());
    let read = phrases::read(frame, walk.at, *sign);
    let next = route.onward(rules, *sign, words, read.value);
    let found = checked(read, *sign, next);
    let phrase = phrase(rules, found.phrase);
    let said = phrases::say(pen, out, frame, phrase, words, found, walk.last);
    (said, walk.onward(found, next))
}

// The phrase of this name; nothing for none.
#[tactic(auto, using(phrases::proofs::Steps::plain_step))]
fn phrase(rules: &[u8], name: Option<u8>) -> &[u8]
    requires { T (plain rules.now) }
    ensures { T (plain result.now) }
{
    match name.and_then(|name| rule(rules, &[name])) {
        Some(at) => step(rules, at),
        None => &[],
    }
}

// A byte that picks no alternative is wrong; what is wrong is said by the sign.
fn checked(found: Found, sign: u8, next: Option<Route>) -> Found {
    match (found.next, next) {
        (Some(_), None) => Found {
            phrase: Some(sign),
            next: None,
            ..found
        },
        _ => found,
    }
}

impl Walk {
    // Behind what was found, where it is what it should be.
    fn onward(self, found: Found, next: Option<Route>) -> Option<Walk> {
        Some(Walk {
            route: next?,
            at: found.next?,
            last: found.phrase.or(self.last),
        })
    }
}
