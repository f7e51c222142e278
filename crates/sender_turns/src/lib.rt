// The sender that stands after the engines: eight mills on one account take turns at four calls.
#![tactic(auto)]

ghost use Rattle.std.specs.Prelude.{◌≡◌, List, [], ◌∷◌, ◌++◌, ℕ, ◌+◌, ◌≤◌, ◌<◌, length, take, drop, MatchResult, position, ◌==◌, ◌&&◌};
ghost use Rattle.sender_turns.specs.Sender.{Use, mills, calls, lane_size, fresh, after, rest_of};
ghost use Rattle.sender_turns.specs.Laid.{lane_of, laid_out, no_call, number_of, Answers};
ghost use Rattle.sender_turns.specs.Steps.{Found, GrantsTo, Grants, count_at};

// The mills on the account.
pub const MILLS: usize = 8;

// The calls that may be out at a time.
pub const CALLS: usize = 4;

// The requests that a lane holds.
pub const LANE: usize = 24;

// Why a use is refused.
#[derive(Clone, Copy, PartialEq, Eq)]
pub enum Refusal {
    // the mill is not there
    NoSuchMill,
    // the mill's lane holds as many requests as it can
    LaneFull,
}

impl From<Refusal> for u8 {
    ghost from_gives = { λ e n. n ≡ number_of e };

    fn from(e: Refusal) -> u8 {
        match e {
            Refusal::NoSuchMill => 11,
            Refusal::LaneFull => 12,
        }
    }
}

// A mill's requests that wait, the oldest first. Places past the count are zero.
#[derive(Clone, Copy)]
pub struct Lane {
    pub numbers: [u64; LANE],
    pub count: usize,
}

#[derive(Clone, Copy, PartialEq, Eq)]
pub struct Call {
    pub mill: u8,
    pub number: u64,
}

// A place that holds no call.
const NO_CALL: Call = Call { mill: 0, number: 0 };

// The calls out are the first `out`, in the order of their grants; places past them are zero. `turn` is the mill that is asked first.
#[derive(Clone, Copy)]
pub struct Sender {
    pub lanes: [Lane; MILLS],
    pub calls: [Call; CALLS],
    pub out: usize,
    pub turn: usize,
}

// The mill after this one.
#[tactic(auto, using(crate::proofs::StepLaws::after_last, crate::proofs::StepLaws::after_more))]
pub fn after(mill: usize) -> usize
    ensures { mill < mills → result ≡ after mill }
{
    if mill < MILLS - 1 { mill + 1 } else { 0 }
}

// The mill's place among the lanes.
fn place_of(mill: u8) -> Result<usize, Refusal>
    ensures { MatchResult result (λ at. (at ≡ mill) × (mill < mills)) (λ e. (e ≡ Refusal.NoSuchMill) × (mills ≤ mill)) }
{
    let at = usize::from(mill);
    if at < MILLS {
        Ok(at)
    } else {
        Err(Refusal::NoSuchMill)
    }
}

impl Lane {
    #[tactic(auto, unfolding(crate::specs::Laid::lane_of))]
    fn empty() -> Lane
        ensures { result ≡ lane_of [] }
    {
        Lane {
            numbers: [0; LANE],
            count: 0,
        }
    }

    // One request more, behind the others.
    #[tactic(auto, using(crate::proofs::LaidLaws::with_one))]
    fn push(&mut self, number: u64)
        requires { self.old.count < lane_size }
        ensures { (l : List ℕ) → self.old ≡ lane_of l → self.new ≡ lane_of (l ++ number ∷ []) }
    {
        self.numbers[self.count] = number;
        self.count += 1;
    }

    // Takes out the oldest request, and moves the others down.
    fn remove_oldest(&mut self)
        requires { 0 < self.old.count }
        ensures { (l : List ℕ) → length l ≤ lane_size → self.old ≡ lane_of l → self.new ≡ lane_of (rest_of l) }
    {
        self.numbers.copy_within(1.., 0);
        self.numbers[LANE - 1] = 0;
        self.count -= 1;
    }
}

// Takes out the call at `at`, and moves those behind it down over it.
fn remove(held: &mut [Call; CALLS], at: usize)
    requires { at < calls }
    ensures { held.new ≡ take at held.old ++ (drop (at + 1) held.old ++ no_call ∷ []) }
{
    held.copy_within(at + 1.., at);
    held[CALLS - 1] = NO_CALL;
}

impl Sender {
    // All lanes empty, no call out; mill 0 is asked first.
    #[tactic(auto, unfolding(crate::specs::Laid::laid_out, crate::specs::Laid::calls_of, crate::specs::Sender::fresh))]
    pub fn fresh() -> Sender
        ensures { result ≡ laid_out fresh }
    {
        Sender {
            lanes: [Lane::empty(); MILLS],
            calls: [NO_CALL; CALLS],
            out: 0,
            turn: 0,
        }
    }

    // The first mill with a request waiting, from the turn on.
    #[tactic(auto, using(crate::proofs::StepLaws::asks_all, crate::proofs::StepLaws::asks_next, crate::proofs::StepLaws::next_here, crate::proofs::StepLaws::next_none))]
    fn next(&self) -> Option<usize>
        ensures { Found self.now result }
    {
        for asked in 0..MILLS {
            let mill = (self.turn % MILLS + asked) % MILLS;
            if 0 < self.lanes[mill].count {
                return Some(mill);
            }
        }
        None
    }

    // The oldest request of the mill goes out, and the turn moves on.
    #[tactic(auto, using(crate::proofs::StepLaws::grants_to))]
    fn granted(&mut self, mill: usize) -> Call
        requires { (mill < mills) × (self.old.out < calls) × (0 < count_at mill self.old) }
        ensures { GrantsTo self.old mill self.new result }
    {
        let call = Call {
            mill: mill as u8,
            number: self.lanes[mill].numbers[0],
        };
        self.lanes[mill].remove_oldest();
        self.calls[self.out] = call;
        self.out += 1;
        self.turn = after(mill);
        call
    }

    // Every grant possible. What a use leaves has none, so that after one change there is at most one.
    #[tactic(auto, using(crate::proofs::StepLaws::grants_full, crate::proofs::StepLaws::grants_none, crate::proofs::StepLaws::grants_one))]
    fn grant(&mut self) -> Option<Call>
        ensures { Grants self.old self.new result }
    {
        if CALLS <= self.out {
            return None;
        }
        let mill = self.next()?;
        Some(self.granted(mill))
    }

    // A request enters its mill's lane.
    #[tactic(auto, using(crate::proofs::UseLaws::no_mill, crate::proofs::UseLaws::lane_full, crate::proofs::UseLaws::enters), unfolding(crate::specs::Sender::mill_of))]
    pub fn enter(&mut self, mill: u8, number: u64) -> Result<Option<Call>, Refusal>
        ensures { Answers (Use.Enter mill number) self.old self.new result }
    {
        let at = place_of(mill)?;
        if LANE <= self.lanes[at].count {
            return Err(Refusal::LaneFull);
        }
        self.lanes[at].push(number);
        Ok(self.grant())
    }

    // The place of the first call out that is this one.
    fn place(&self, call: Call) -> Option<usize>
        ensures { result ≡ position (λ c. (c.mill == call.mill) && (c.number == call.number)) (take self.now.out self.now.calls) }
    {
        let mut out = self.calls.iter().take(self.out);
        out.position(|c| *c == call)
    }

    // The reply to a call has come: one call of this mill and number is freed.
    #[tactic(auto, using(crate::proofs::UseLaws::no_mill, crate::proofs::UseLaws::replies_none, crate::proofs::UseLaws::replies), unfolding(crate::specs::Sender::mill_of))]
    pub fn reply(&mut self, mill: u8, number: u64) -> Result<Option<Call>, Refusal>
        ensures { Answers (Use.Reply mill number) self.old self.new result }
    {
        place_of(mill)?;
        let Some(at) = self.place(Call { mill, number }) else {
            return Ok(None);
        };
        remove(&mut self.calls, at);
        self.out -= 1;
        Ok(self.grant())
    }

    // The mill starts anew: its lane is emptied. Calls out hold their share until their reply comes.
    #[tactic(auto, using(crate::proofs::UseLaws::no_mill, crate::proofs::UseLaws::resumes_at), unfolding(crate::specs::Sender::mill_of))]
    pub fn resume(&mut self, mill: u8) -> Result<Option<Call>, Refusal>
        ensures { Answers (Use.Resume mill) self.old self.new result }
    {
        let at = place_of(mill)?;
        self.lanes[at] = Lane::empty();
        Ok(None)
    }
}
