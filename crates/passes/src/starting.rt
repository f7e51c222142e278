// SyncState::start_pass, SyncState::abandon_pass
ghost use Rattle.model.specs.Sync.{start_pass, restart_pass, abandon_pass};
ghost use Rattle.frame.specs.Meaning.{meant_outcome};
ghost use Rattle.state.specs.Contract.{HasState};
ghost use Rattle.machine.specs.Contract.{Does};

use crate::requests::request_list;
use frame::Outcome;
use machine::Progress;

pub fn start_pass(work: &mut [u8], out: &mut [u8], p: Progress) -> Progress
    requires { HasState work.old }
    ensures { Does start_pass work.old out.old p result work.new out.new }
{
    pass_header::open_pass(work);
    request_list(work, out, p)
}

pub fn restart_pass(work: &mut [u8], out: &mut [u8], p: Progress) -> Progress
    requires { HasState work.old }
    ensures { Does restart_pass work.old out.old p result work.new out.new }
{
    flights::drop_pass_reads(work);
    pass_header::clear_cursor(work);
    start_pass(work, out, p)
}

pub fn abandon_pass(
    work: &mut [u8],
    out: &mut [u8],
    p: Progress,
    frame: &[u8],
    outcome: Outcome,
) -> Progress
    requires { HasState work.old }
    ensures { Does (abandon_pass (meant_outcome frame.now outcome)) work.old out.old p result work.new out.new }
{
    pass_header::close_pass(work);
    flights::drop_of_pass(work);
    machine::tell_listing_failed(out, p, frame, outcome)
}
