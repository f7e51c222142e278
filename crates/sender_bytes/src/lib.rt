// The sender in a lent buffer, for programs that hold it as bytes. Every function takes any bytes, and refuses those that are no sender's.
#![tactic(auto)]

mod check;
mod places;
mod read;
mod write;

ghost use Rattle.std.specs.Prelude.{◌≡◌};
ghost use Rattle.sender_turns.specs.Sender.{Use};
ghost use Rattle.sender_bytes.specs.Bytes.{freshened};
ghost use Rattle.sender_bytes.specs.Read.{number_of, code_of, granted_by, HeldIn, Uses};
ghost use Rattle.sender_bytes.specs.declared.Refusal.TheVariants as refusal;

pub use places::{CALL, LENGTH};
use sender_turns::{Call, Sender};

// Why a lent buffer is not used.
#[derive(Clone, Copy, PartialEq, Eq)]
pub enum Refusal {
    // its length is wrong
    WrongLength,
    // its bytes are no sender's
    NoSender,
    // the sender refuses the use
    Use(sender_turns::Refusal),
}

impl From<sender_turns::Refusal> for Refusal {
    ghost from_gives = { λ e r. r ≡ refusal.Use e };

    fn from(why: sender_turns::Refusal) -> Refusal {
        Refusal::Use(why)
    }
}

impl From<Refusal> for u8 {
    ghost from_gives = { λ e n. n ≡ number_of e };

    fn from(e: Refusal) -> u8 {
        match e {
            Refusal::WrongLength => 1,
            Refusal::NoSender => 2,
            Refusal::Use(e) => u8::from(e),
        }
    }
}

// Makes the buffer a fresh sender.
#[tactic(auto, using(crate::proofs::UseLaws::fresh_sender, crate::proofs::UseLaws::fresh_short, crate::proofs::UseLaws::fresh_made))]
pub fn fresh(sender: &mut [u8]) -> Result<(), Refusal>
    ensures { (code_of result, sender.new) ≡ freshened sender.old }
{
    if sender.len() == LENGTH {
        write::put_sender(sender, &Sender::fresh());
        Ok(())
    } else {
        Err(Refusal::WrongLength)
    }
}

// The sender whose bytes these are.
#[tactic(auto, using(crate::proofs::UseLaws::held_short, crate::proofs::UseLaws::held_no))]
fn sender_held(bytes: &[u8]) -> Result<Sender, Refusal>
    ensures { HeldIn bytes.now result }
{
    if bytes.len() != LENGTH {
        return Err(Refusal::WrongLength);
    }
    let sender = read::sender_in(bytes);
    if !check::is_sender(&sender) {
        return Err(Refusal::NoSender);
    }
    Ok(sender)
}

// A request enters its mill's lane.
#[tactic(auto, using(crate::proofs::UseLaws::uses_unheld, crate::proofs::UseLaws::numbered_low, crate::proofs::UseLaws::uses_refused))]
pub fn enter(sender: &mut [u8], mill: u8, number: u64) -> Result<Option<Call>, Refusal>
    ensures { Uses (Use.Enter mill number) sender.old sender.new (granted_by result) }
{
    let mut held = sender_held(sender)?;
    let granted = held.enter(mill, number)?;
    write::put_sender(sender, &held);
    Ok(granted)
}

// The reply to a call has come.
#[tactic(auto, using(crate::proofs::UseLaws::uses_unheld, crate::proofs::UseLaws::numbered_low, crate::proofs::UseLaws::uses_refused))]
pub fn reply(sender: &mut [u8], mill: u8, number: u64) -> Result<Option<Call>, Refusal>
    ensures { Uses (Use.Reply mill number) sender.old sender.new (granted_by result) }
{
    let mut held = sender_held(sender)?;
    let granted = held.reply(mill, number)?;
    write::put_sender(sender, &held);
    Ok(granted)
}

// The mill starts anew: its lane is emptied.
#[tactic(auto, using(crate::proofs::UseLaws::uses_unheld, crate::proofs::UseLaws::numbered_low, crate::proofs::UseLaws::uses_refused))]
pub fn resume(sender: &mut [u8], mill: u8) -> Result<Option<Call>, Refusal>
    ensures { Uses (Use.Resume mill) sender.old sender.new (granted_by result) }
{
    let mut held = sender_held(sender)?;
    let granted = held.resume(mill)?;
    write::put_sender(sender, &held);
    Ok(granted)
}
