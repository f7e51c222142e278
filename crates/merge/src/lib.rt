// merge.rs: the three-way merge of an event, over encoded fields, an encoded event and an encoded role. Whatever bytes follow one of
// them are not looked at. Each thing that a merge hands back has a function of its own; refusal 6 is `merged_attendees` over 8. What is
// lent has one lifetime, so that parts of two buffers can be lent together.
#![tactic(auto)]

ghost use Rattle.std.specs.Prelude.{◌≡◌, ◌≤◌, ◌∷◌, length};
ghost use Rattle.model.specs.Event.{NormalizedEvent, ProviderEvent};
ghost use Rattle.model.specs.Parts.{Role};
ghost use Rattle.model.specs.Limits.{max_conflict_bytes, max_refused_bytes};
ghost use Rattle.model.specs.Formats.{event_f, conflicts_f, refusals_f};
ghost use Rattle.model.specs.Merge.{merge};
ghost use Rattle.comparison.specs.Which.{number_of};
ghost use Rattle.pens.specs.Writing.{Wrote, Listed, flat};
ghost use Rattle.merge.specs.Given.{Begins, Given};
ghost use Rattle.merge.specs.Within.{WroteWithin};
ghost use Rattle.merge.specs.Parts.{fields_place, fields_end, before_fields, fields_of, after_fields, event_of, owner_of, writer_of};
ghost use Rattle.merge.specs.Reports.{attendee_items, report_items, field_bytes};

use comparison::Which;
use frame::{Cursor, U32};
use pens::{Pen, Sheet};

// The place of an event's fields.
fn fields_place(event: &[u8]) -> Cursor
    ensures { result ≡ fields_place event.now }
{
    let version = Cursor { at: 0, ok: true }
        .skip_ids(event)
        .skip_option_short_text(event)
        .number(event, U32);
    version.next
}

// The place after them.
fn fields_end(event: &[u8]) -> Cursor
    ensures { result ≡ fields_end event.now }
{
    fields_place(event).skip_fields(event)
}

fn before_fields(event: &[u8]) -> &[u8]
    ensures { result.now ≡ before_fields event.now }
{
    let c = fields_place(event);
    let to = c.at;
    comparison::part(event, 0, to)
}

pub fn fields_of(event: &[u8]) -> &[u8]
    ensures { result.now ≡ fields_of event.now }
{
    let c = fields_place(event);
    let from = c.at;
    let d = fields_end(event);
    let to = d.at;
    comparison::part(event, from, to)
}

fn after_fields(event: &[u8]) -> &[u8]
    ensures { result.now ≡ after_fields event.now }
{
    let c = fields_end(event);
    let from = c.at;
    let d = c.skip_tag(event);
    let to = d.at;
    comparison::part(event, from, to)
}

// The event at the front of the bytes.
fn event_of(bytes: &[u8]) -> &[u8]
    ensures { result.now ≡ event_of bytes.now }
{
    let c = frame::event_in(bytes);
    let to = c.at;
    comparison::part(bytes, 0, to)
}

pub fn is_owner(role: &[u8]) -> bool
    ensures { result ≡ owner_of role.now }
{
    if role.len() == 0 {
        return false;
    }
    role[0] == 0
}

// The address of a writer who is an attendee.
pub fn writer(role: &[u8]) -> &[u8]
    ensures { result.now ≡ writer_of role.now }
{
    frame::short_text_at(role, 1)
}

// How many attendees the merged fields have: the entries, written nowhere.
fn count_attendees<'a>(
    owner: bool,
    me: &[u8],
    base: &'a [u8],
    ours: &'a [u8],
    theirs: &'a [u8],
) -> u8
    ensures { length (attendee_items 0 owner me.now base.now ours.now theirs.now) ≤ 255
        → result ≡ length (attendee_items 0 owner me.now base.now ours.now theirs.now) }
{
    let mut nowhere: [u8; 1] = [0; 1];
    let none = Sheet {
        pen: Pen { at: 0, ok: false },
        count: 0,
    };
    let h = attendees::entries(
        none,
        &mut nowhere,
        Which::Merged.number(),
        owner,
        me,
        units::unit_part(base, 4),
        units::unit_part(ours, 4),
        units::unit_part(theirs, 4),
    );
    h.count
}

// The merged fields, of which there are n attendees.
fn merged_fields<'a>(
    pen: Pen,
    out: &mut [u8],
    n: u8,
    owner: bool,
    me: &[u8],
    base: &'a [u8],
    ours: &'a [u8],
    theirs: &'a [u8],
) -> Pen
    ensures { Wrote out.old out.new pen result (field_bytes n owner me.now base.now ours.now theirs.now) }
{
    let merged = Which::Merged.number();
    let h = units::units(
        Sheet { pen, count: 0 },
        out,
        merged,
        0,
        4,
        base,
        ours,
        theirs,
        owner,
    );
    let p = h.pen;
    let q = p.byte(out, n);
    let i = attendees::entries(
        Sheet { pen: q, count: 0 },
        out,
        merged,
        owner,
        me,
        units::unit_part(base, 4),
        units::unit_part(ours, 4),
        units::unit_part(theirs, 4),
    );
    let j = units::units(i, out, merged, 5, 11, base, ours, theirs, owner);
    j.pen
}

// The conflicts or the refused units, one after the other.
fn reports<'a>(
    sheet: Sheet,
    out: &mut [u8],
    which: Which,
    owner: bool,
    me: &[u8],
    base: &'a [u8],
    ours: &'a [u8],
    theirs: &'a [u8],
) -> Sheet
    ensures { Listed out.old out.new sheet.pen sheet.count result.pen result.count (report_items (number_of which) owner me.now base.now ours.now theirs.now) }
{
    let number = which.number();
    let h = units::units(sheet, out, number, 0, 4, base, ours, theirs, owner);
    let i = attendees::entries(
        h,
        out,
        number,
        owner,
        me,
        units::unit_part(base, 4),
        units::unit_part(ours, 4),
        units::unit_part(theirs, 4),
    );
    units::units(i, out, number, 5, 11, base, ours, theirs, owner)
}

// How many there are: the reports, written nowhere.
fn count_reports<'a>(
    which: Which,
    owner: bool,
    me: &[u8],
    base: &'a [u8],
    ours: &'a [u8],
    theirs: &'a [u8],
) -> u8
    ensures { length (report_items (number_of which) owner me.now base.now ours.now theirs.now) ≤ 255
        → result ≡ length (report_items (number_of which) owner me.now base.now ours.now theirs.now) }
{
    let mut nowhere: [u8; 1] = [0; 1];
    let none = Sheet {
        pen: Pen { at: 0, ok: false },
        count: 0,
    };
    let h = reports(none, &mut nowhere, which, owner, me, base, ours, theirs);
    h.count
}

// The list of them, with its count.
fn report_list<'a>(
    pen: Pen,
    out: &mut [u8],
    which: Which,
    owner: bool,
    me: &[u8],
    base: &'a [u8],
    ours: &'a [u8],
    theirs: &'a [u8],
) -> Pen
    ensures { length (report_items (number_of which) owner me.now base.now ours.now theirs.now) ≤ 255
        → Wrote out.old out.new pen result
        (length (report_items (number_of which) owner me.now base.now ours.now theirs.now)
        ∷ flat (report_items (number_of which) owner me.now base.now ours.now theirs.now)) }
{
    let n = count_reports(which, owner, me, base, ours, theirs);
    let p = pen.byte(out, n);
    let h = reports(
        Sheet { pen: p, count: 0 },
        out,
        which,
        owner,
        me,
        base,
        ours,
        theirs,
    );
    h.pen
}

// How many attendees the merged event has.
pub fn merged_attendees<'a>(base: &'a [u8], ours: &'a [u8], theirs: &'a [u8], role: &'a [u8]) -> u8
    ensures { (b o : NormalizedEvent) (t : ProviderEvent) (by : Role) → Given base.now ours.now theirs.now role.now b o t by
        → result ≡ length (merge b o t by).event.fields.attendees }
{
    count_attendees(is_owner(role), writer(role), base, ours, fields_of(theirs))
}

// The merged event: theirs, with the merged fields.
pub fn merged_event<'a>(
    pen: Pen,
    out: &mut [u8],
    base: &'a [u8],
    ours: &'a [u8],
    theirs: &'a [u8],
    role: &'a [u8],
) -> Pen
    ensures { (b o : NormalizedEvent) (t : ProviderEvent) (by : Role) → Given base.now ours.now theirs.now role.now b o t by
        → Wrote out.old out.new pen result (event_f.enc (merge b o t by).event) }
{
    let n = merged_attendees(base, ours, theirs, role);
    let p = pen.part(out, before_fields(theirs));
    let q = merged_fields(
        p,
        out,
        n,
        is_owner(role),
        writer(role),
        base,
        ours,
        fields_of(theirs),
    );
    q.part(out, after_fields(theirs))
}

// Whether a merged event differs from theirs.
pub fn changed(merged: &[u8], theirs: &[u8]) -> bool
    ensures { (b o : NormalizedEvent) (t : ProviderEvent) (by : Role) → Begins event_f merged.now (merge b o t by).event → Begins event_f theirs.now t
        → result ≡ (merge b o t by).changed }
{
    !comparison::same(event_of(merged), event_of(theirs))
}

// The conflicts: 3,072 bytes are always room enough.
pub fn conflicts<'a>(
    pen: Pen,
    out: &mut [u8],
    base: &'a [u8],
    ours: &'a [u8],
    theirs: &'a [u8],
    role: &'a [u8],
) -> Pen
    ensures { (b o : NormalizedEvent) (t : ProviderEvent) (by : Role) → Given base.now ours.now theirs.now role.now b o t by
        → WroteWithin max_conflict_bytes out.old out.new pen result (conflicts_f.enc (merge b o t by).conflicts) }
{
    report_list(
        pen,
        out,
        Which::Conflicts,
        is_owner(role),
        writer(role),
        base,
        ours,
        fields_of(theirs),
    )
}

// The refused units: 1,024 bytes are always room enough.
pub fn refused<'a>(
    pen: Pen,
    out: &mut [u8],
    base: &'a [u8],
    ours: &'a [u8],
    theirs: &'a [u8],
    role: &'a [u8],
) -> Pen
    ensures { (b o : NormalizedEvent) (t : ProviderEvent) (by : Role) → Given base.now ours.now theirs.now role.now b o t by
        → WroteWithin max_refused_bytes out.old out.new pen result (refusals_f.enc (merge b o t by).refused) }
{
    report_list(
        pen,
        out,
        Which::Refused,
        is_owner(role),
        writer(role),
        base,
        ours,
        fields_of(theirs),
    )
}
