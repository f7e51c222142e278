// The cursor and the header of the open pass: whether one is open, where its listing goes on from, and the cursor that it ends with.
#![tactic(auto)]

ghost use Rattle.std.specs.Prelude.{◌≡◌, ◌∷◌, ◌+◌, ◌≤◌, length, take, drop, get_or, Some, None};
ghost use Rattle.model.specs.Seam as seam;
ghost use Rattle.model.specs.Maps.{is_some};
ghost use Rattle.model.specs.Machine.{with_from, with_done};
ghost use Rattle.model.specs.Sync.{new_pass};
ghost use Rattle.model.specs.Formats.{short_text};
ghost use Rattle.state.specs.Layout.{padded, pass_of};
ghost use Rattle.state.specs.Setters.{with_cursor, with_pass, pass_changed};
ghost use Rattle.state.specs.Contract.{HasState, Reads, Edits};
ghost use Rattle.pass_header.specs.From.{from_in, IsShort};

use pass_tables::{FULL, OPEN};

// Where a listing goes on from, with the cursor's text as that part of the work buffer.
#[derive(Clone, Copy)]
pub enum ListFrom<'a> {
    Start,
    Since(&'a [u8]),
    Continue(&'a [u8]),
}

const CURSOR: usize = 9151;

// All regions of a pass.
const PASS_SIZE: usize = 10817;

const FROM: usize = 9187;

const DONE: usize = 19968;

// ---- fields

// The text of the field at `at`, as that part of the buffer.
fn text_at(work: &[u8], at: usize) -> &[u8]
    requires { (at + 34 ≤ length work.now) × (get_or work.now (at + 1) 0 ≤ 32) }
    ensures { result.now ≡ take (get_or work.now (at + 1) 0) (drop (at + 2) work.now) }
{
    let start = at + 2;
    &work[start..start + usize::from(work[at + 1])]
}

// A case's byte and a text, in their width.
fn field_of(first: u8, text: &[u8]) -> [u8; 34]
    requires { length text.now ≤ 32 }
    ensures { result ≡ padded 34 (first ∷ (length text.now ∷ text.now)) }
{
    let marks = [first, text.len() as u8];
    state::slot(&marks, text)
}

// ---- cursor

pub fn clear_cursor(work: &mut [u8])
    requires { HasState work.old }
    ensures { Edits (with_cursor None) work.old work.new }
{
    work[CURSOR..CURSOR + 34].fill(0);
}

// The cursor that the pass ended with becomes the state's own.
pub fn take_cursor(work: &mut [u8])
    requires { HasState work.old }
    ensures { Edits (λ s. with_cursor (pass_of s.pass).done s) work.old work.new }
{
    work.copy_within(DONE..DONE + 34, CURSOR);
}

// ---- the pass

pub fn close_pass(work: &mut [u8])
    requires { HasState work.old }
    ensures { Edits (with_pass None) work.old work.new }
{
    work[OPEN..OPEN + PASS_SIZE].fill(0);
}

// Opens a new pass, from the cursor on or, where there is none, from the start.
pub fn open_pass(work: &mut [u8])
    requires { HasState work.old }
    ensures { Edits (λ s. with_pass (Some (new_pass s.cursor)) s) work.old work.new }
{
    let full = work[CURSOR] == 0;
    work[OPEN..OPEN + PASS_SIZE].fill(0);
    work.copy_within(CURSOR..CURSOR + 34, FROM);
    work[OPEN] = 1;
    work[FULL] = u8::from(full);
}

// The open pass's listing goes on from a cursor.
pub fn set_from(work: &mut [u8], cursor: &[u8])
    requires has_state { HasState work.old }
    requires ok { short_text.Ok cursor.now }
    ensures { Edits (pass_changed (with_from (seam.ListFrom.Continue cursor.now))) work.old work.new }
{
    if pass_tables::is_open(work) {
        let from = field_of(2, cursor);
        tables::put_slot(work, FROM, &from);
    }
}

// The open pass's listing is done, and ends with a cursor.
pub fn set_done(work: &mut [u8], cursor: &[u8])
    requires has_state { HasState work.old }
    requires ok { short_text.Ok cursor.now }
    ensures { Edits (pass_changed (with_done (Some cursor.now))) work.old work.new }
{
    if pass_tables::is_open(work) {
        let done = field_of(1, cursor);
        tables::put_slot(work, DONE, &done);
    }
}

// Whether the open pass's listing is done.
pub fn is_done(work: &[u8]) -> bool
    requires { HasState work.now }
    ensures { Reads (λ s. is_some (pass_of s.pass).done) work.now result }
{
    work[DONE] != 0
}

// Where the open pass's listing goes on from.
pub fn from(work: &[u8]) -> ListFrom
    requires { HasState work.now }
    ensures reads { Reads (λ s. (pass_of s.pass).from) work.now (from_in result) }
    ensures short { IsShort result }
{
    match work[FROM] {
        0 => ListFrom::Start,
        1 => ListFrom::Since(text_at(work, FROM)),
        _ => ListFrom::Continue(text_at(work, FROM)),
    }
}
