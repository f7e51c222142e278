// What becomes of an entry.
ghost use Rattle.std.specs.Prelude.{◌≡◌, [], ◌∷◌, true, cond, not, eqb};
ghost use Rattle.model.specs.Merge.{verdict};
ghost use Rattle.comparison.specs.Bytes.{meant_verdict, raw};
ghost use Rattle.attendees.specs.Entries.{reply_of, judge_whole, judge_own, judge_removed, rest_refused, judge_standing, judge_of};

use crate::entry_parts::{reply, same_rest};
use comparison::Verdict;

// What is judged of an entry: whether the merged one is ours (else theirs), with which reply, and what is reported.
#[derive(Clone, Copy)]
pub struct Judged {
    pub ours: bool,
    pub reply: u8,
    pub conflict: bool,
    pub refused: bool,
}

fn reply_if(ours: bool, o: &[u8], t: &[u8]) -> u8
    ensures { result ≡ cond ours (reply_of o.now) (reply_of t.now) }
{
    if ours {
        return reply(o);
    }
    reply(t)
}

fn judge_whole(b: &[u8], o: &[u8], t: &[u8], owned: bool) -> Judged
    ensures { result ≡ judge_whole b.now o.now t.now owned }
{
    let v = comparison::verdict_of(b, o, t, owned);
    let ours = v == Verdict::Ours;
    let reply = reply_if(ours, o, t);
    let conflict = v == Verdict::Conflict;
    let refused = v == Verdict::Refused;
    Judged {
        ours,
        reply,
        conflict,
        refused,
    }
}

fn verdict_byte(base: u8, ours: u8, theirs: u8) -> Verdict
    ensures { meant_verdict result ≡ verdict raw (base ∷ []) (ours ∷ []) (theirs ∷ []) true }
{
    if ours == base {
        return Verdict::Theirs;
    }
    if ours == theirs {
        return Verdict::Theirs;
    }
    if theirs == base {
        return Verdict::Ours;
    }
    Verdict::Conflict
}

fn judge_own(b: &[u8], o: &[u8], t: &[u8]) -> Judged
    ensures { result ≡ judge_own b.now o.now t.now }
{
    if b.len() == 0 {
        return judge_whole(b, o, t, false);
    }
    if o.len() == 0 {
        return judge_whole(b, o, t, false);
    }
    if t.len() == 0 {
        return judge_removed(b, o);
    }
    judge_standing(b, o, t)
}

fn differ(a: u8, b: u8) -> bool
    ensures { result ≡ not (eqb a b) }
{
    a != b
}

fn judge_removed(b: &[u8], o: &[u8]) -> Judged
    ensures { result ≡ judge_removed b.now o.now }
{
    let refused = !same_rest(b, o);
    let conflict = differ(reply(b), reply(o));
    Judged {
        ours: false,
        reply: 0,
        conflict,
        refused,
    }
}

fn rest_refused(b: &[u8], o: &[u8], t: &[u8]) -> bool
    ensures { result ≡ rest_refused b.now o.now t.now }
{
    if same_rest(o, b) {
        return false;
    }
    !same_rest(o, t)
}

fn judge_standing(b: &[u8], o: &[u8], t: &[u8]) -> Judged
    ensures { result ≡ judge_standing b.now o.now t.now }
{
    let refused = rest_refused(b, o, t);
    let v = verdict_byte(reply(b), reply(o), reply(t));
    let reply = reply_if(v == Verdict::Ours, o, t);
    let conflict = v == Verdict::Conflict;
    Judged {
        ours: false,
        reply,
        conflict,
        refused,
    }
}

pub fn judge(own: bool, owner: bool, b: &[u8], o: &[u8], t: &[u8]) -> Judged
    ensures { result ≡ judge_of own owner b.now o.now t.now }
{
    if own {
        return judge_own(b, o, t);
    }
    judge_whole(b, o, t, owner)
}
