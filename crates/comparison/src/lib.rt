// Encoded parts: compared, judged, and taken out of the bytes around them.
#![tactic(auto)]

ghost use Rattle.std.specs.Prelude.{◌≡◌};
ghost use Rattle.model.specs.Maps.{same_text};
ghost use Rattle.model.specs.Merge.{verdict};
ghost use Rattle.comparison.specs.Bytes.{same_folded, meant_verdict, raw, span};
ghost use Rattle.comparison.specs.Which.{number_of, which_of};

// Whether two lists of bytes are equal, in the words of the model.
#[tactic(auto, using(crate::proofs::Laws::equal_same))]
pub fn same(a: &[u8], b: &[u8]) -> bool
    ensures { result ≡ same_text a.now b.now }
{
    a == b
}

// Whether two texts are equal but for ASCII case.
#[tactic(auto, using(crate::proofs::Laws::folded_tells))]
pub fn same_folded(a: &[u8], b: &[u8]) -> bool
    ensures { result ≡ same_folded a.now b.now }
{
    a.eq_ignore_ascii_case(b)
}

// What is written of a unit: its merged value, its conflict or its refusal.
#[derive(Clone, Copy, PartialEq, Eq)]
pub enum Which {
    Merged,
    Conflicts,
    Refused,
}

impl Which {
    // The part that a number asks for: every number from 2 on asks for the refused.
    #[tactic(auto, unfolding(crate::specs::Which::which_of))]
    pub fn of(number: u8) -> Which
        ensures { result ≡ which_of number }
    {
        match number {
            0 => Which::Merged,
            1 => Which::Conflicts,
            _ => Which::Refused,
        }
    }

    // The number that asks for it.
    pub fn number(self) -> u8
        ensures { result ≡ number_of self }
    {
        match self {
            Which::Merged => 0,
            Which::Conflicts => 1,
            Which::Refused => 2,
        }
    }
}

#[derive(Clone, Copy, PartialEq, Eq)]
pub enum Verdict {
    Theirs,
    Ours,
    Conflict,
    Refused,
}

// The verdict on one unit, whose encoded parts these are.
#[tactic(auto, using(crate::proofs::Laws::equal_same, crate::proofs::Laws::verdict_is))]
pub fn verdict_of(base: &[u8], ours: &[u8], theirs: &[u8], owned: bool) -> Verdict
    ensures { meant_verdict result ≡ verdict raw base.now ours.now theirs.now owned }
{
    if ours == base || ours == theirs {
        Verdict::Theirs
    } else if !owned {
        Verdict::Refused
    } else if theirs == base {
        Verdict::Ours
    } else {
        Verdict::Conflict
    }
}

// The bytes from one place to another.
pub fn part(s: &[u8], from: usize, to: usize) -> &[u8]
    ensures { result.now ≡ span s.now from to }
{
    let to = to.min(s.len());
    &s[from.min(to)..to]
}
