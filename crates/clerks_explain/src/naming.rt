// A line for each unit: who can force it. The units stand in the order of the names.
ghost use Rattle.std.specs.Prelude.{T};
ghost use Rattle.phrases.specs.Shown.{plain, Ready, Shows};

use crate::said::head;
use clerks_bytes::{from, list_of, stands};
use pens::Pen;
use std::slice::Iter;

pub fn say_units(order: &[u8], frame: &[u8], names: &[u8])
    requires { T (plain order.now) }
{
    let clerks = clerks_bytes::clerks_in(frame);
    let list = list_of(merge::fields_of(frame));
    let one = list_of(from(frame, clerks.one.wanted));
    let two = list_of(from(frame, clerks.two.wanted));
    let mut left = names.iter();
    say_before(order, &mut left);
    say_new(order, &mut left, list, &[], &[]);
    say_new(order, &mut left, one, list, &[]);
    say_new(order, &mut left, two, list, one);
    say_behind(order, &mut left);
}

fn say_before(order: &[u8], names: &mut Iter<'_, u8>)
    requires { T (plain order.now) }
{
    say_field(order, names, b", title");
    say_field(order, names, b", times");
    say_field(order, names, b", recurrence");
    say_field(order, names, b", organizer");
}

fn say_behind(order: &[u8], names: &mut Iter<'_, u8>)
    requires { T (plain order.now) }
{
    say_field(order, names, b", location");
    say_field(order, names, b", description");
    say_field(order, names, b", status");
    say_field(order, names, b", transparency");
    say_field(order, names, b", visibility");
    say_field(order, names, b", reminders");
}

// The entries that neither of two lists has.
fn say_new(order: &[u8], names: &mut Iter<'_, u8>, entries: &[u8], before: &[u8], also: &[u8])
    requires { T (plain order.now) }
{
    for i in 0..attendees::entry_count(entries) {
        let address = attendees::address(attendees::entry_part(entries, i));
        if !stands(before, address) && !stands(also, address) {
            say_entry(order, names, address);
        }
    }
}

fn say_entry(order: &[u8], names: &mut Iter<'_, u8>, address: &[u8])
    requires { T (plain order.now) }
{
    say_attendee(order, names, b", entry of attendee ", address);
    say_attendee(order, names, b", reply of attendee ", address);
}

fn say_attendee(order: &[u8], names: &mut Iter<'_, u8>, what: &[u8], address: &[u8])
    requires plain_order { T (plain order.now) }
    requires plain_what { T (plain what.now) }
{
    let mut text = [0u8; 4096];
    let start = head(&mut text, order, what);
    let end = phrases::quoted(start, &mut text, address);
    say_name(&mut text, end, names);
}

fn say_field(order: &[u8], names: &mut Iter<'_, u8>, what: &[u8])
    requires plain_order { T (plain order.now) }
    requires plain_what { T (plain what.now) }
{
    let mut text = [0u8; 4096];
    let end = head(&mut text, order, what);
    say_name(&mut text, end, names);
}

// Ends a unit's line by the next name.
fn say_name(text: &mut [u8], pen: Pen, names: &mut Iter<'_, u8>)
    requires { Ready text.old pen }
{
    if let Some(name) = names.next() {
        let end = who(pen, text, *name);
        phrases::print_line(text, end);
    }
}

fn who(pen: Pen, text: &mut [u8], name: u8) -> Pen
    ensures { Shows text.old text.new pen result }
{
    match name {
        1 => pen.part(text, b": party 1 can force it"),
        2 => pen.part(text, b": party 2 can force it"),
        _ => pen.part(text, b": nobody can force it"),
    }
}
