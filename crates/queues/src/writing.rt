// The parts of an edit, encoded: each writer answers how many bytes it wrote.
ghost use Rattle.std.specs.Prelude.{◌≡◌, ◌≤◌, length};
ghost use Rattle.format.specs.Format.{option, stamp};
ghost use Rattle.model.specs.Formats.{short_text, operation_f, role_f};
ghost use Rattle.frame.specs.Meaning.{text_in, meant_role, meant_expiry, meant_operation};
ghost use Rattle.effects.specs.Sent.{pen};
ghost use Rattle.queues.specs.Parts.{Filled};

use crate::expiry::bits_of;
use crate::places::{event_at, fields_at};
use frame::{Expiry, Operation, Role, TextPart};
use pens::Pen;

pub fn start() -> Pen
    ensures { result ≡ pen 0 }
{
    Pen { at: 0, ok: true }
}

pub fn put_id(buf: &mut [u8], frame: &[u8], id: TextPart) -> usize
    requires { (33 ≤ length buf.old) × (short_text.Ok (text_in frame.now id)) }
    ensures { Filled (short_text.enc (text_in frame.now id)) buf.new result }
{
    let text = id.bytes(frame);
    let end = start().text(buf, text);
    end.at
}

pub fn put_role(buf: &mut [u8], frame: &[u8], role: Role) -> usize
    requires { (34 ≤ length buf.old) × (role_f.Ok (meant_role frame.now role)) }
    ensures { Filled (role_f.enc (meant_role frame.now role)) buf.new result }
{
    match role {
        Role::Owner => {
            let end = start().byte(buf, 0);
            return end.at;
        }
        Role::Attendee(address) => {
            let text = address.bytes(frame);
            let end = start().byte(buf, 1).text(buf, text);
            return end.at;
        }
    }
}

pub fn put_expiry(buf: &mut [u8], expiry: Expiry) -> usize
    requires { (9 ≤ length buf.old) × ((option stamp).Ok (meant_expiry expiry)) }
    ensures { Filled ((option stamp).enc (meant_expiry expiry)) buf.new result }
{
    match expiry {
        Expiry::Never => {
            let end = start().byte(buf, 0);
            return end.at;
        }
        Expiry::At(at) => {
            let end = start().byte(buf, 1).number(buf, bits_of(at));
            return end.at;
        }
    }
}

pub fn put_operation(buf: &mut [u8], frame: &[u8], operation: Operation) -> usize
    requires { (1469 ≤ length buf.old) × (operation_f.Ok (meant_operation frame.now operation)) }
    ensures { Filled (operation_f.enc (meant_operation frame.now operation)) buf.new result }
{
    match operation {
        Operation::Create(event) => {
            let bytes = event_at(frame, event);
            let end = start().byte(buf, 0).part(buf, bytes);
            return end.at;
        }
        Operation::Update(base, ours) => {
            let from = fields_at(frame, base);
            let to = fields_at(frame, ours);
            let end = start().byte(buf, 1).part(buf, from).part(buf, to);
            return end.at;
        }
        Operation::Delete => {
            let end = start().byte(buf, 2);
            return end.at;
        }
    }
}
