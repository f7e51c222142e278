// Requests for a page.
ghost use Rattle.model.specs.Seam as seam;
ghost use Rattle.model.specs.State as model;
ghost use Rattle.model.specs.Calls.{Effect};
ghost use Rattle.model.specs.Formats.{short_text};
ghost use Rattle.model.specs.Machine.{request};
ghost use Rattle.effects.specs.Told.{Told};
ghost use Rattle.state.specs.Layout.{pass_of};
ghost use Rattle.state.specs.Contract.{Keeps, HasState};
ghost use Rattle.machine.specs.Contract.{Does};
ghost use Rattle.passes.specs.Reading.{request_from};

use machine::Progress;
use pass_header::ListFrom;
use pens::Pen;
use state::Purpose;

// Writes the request for the page that the open pass is to go on from.
fn ask_from(pen: Pen, out: &mut [u8], id: u64, work: &[u8]) -> Pen
    requires { HasState work.now }
    ensures { (s : model.SyncState) → Keeps s work.now → Told (Effect.Request id (seam.Request.List (pass_of s.pass).from)) out.old out.new pen result }
{
    match pass_header::from(work) {
        ListFrom::Start => effects::list_start(pen, out, id),
        ListFrom::Since(cursor) => effects::list_since(pen, out, id, cursor),
        ListFrom::Continue(cursor) => effects::list_continue(pen, out, id, cursor),
    }
}

// Asks for the page that the open pass is to go on from.
pub fn request_list(work: &mut [u8], out: &mut [u8], p: Progress) -> Progress
    requires { HasState work.old }
    ensures { Does request_from work.old out.old p result work.new out.new }
{
    let id = state::next_request(work);
    let q = machine::reserve(work, p, Purpose::List);
    let pen = ask_from(machine::pen_of(q), out, id, work);
    machine::sent(q, pen)
}

// Asks for the page behind a cursor.
pub fn request_more(work: &mut [u8], out: &mut [u8], p: Progress, cursor: &[u8]) -> Progress
    requires has_state { HasState work.old }
    requires ok { short_text.Ok cursor.now }
    ensures { Does (request model.Purpose.List (seam.Request.List (seam.ListFrom.Continue cursor.now))) work.old out.old p result work.new out.new }
{
    let id = state::next_request(work);
    let q = machine::reserve(work, p, Purpose::List);
    let pen = effects::list_continue(machine::pen_of(q), out, id, cursor);
    machine::sent(q, pen)
}
