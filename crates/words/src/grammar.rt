// The grammar of what is said.
ghost use Rattle.phrases.specs.Shown.{Shows};

use crate::walk::follow;
use pens::Pen;

// Says bytes by the rule of this name.
//
// A line is a rule: its name and its steps, each behind a |. A step is a sign and words:
//   .  an item     >  the first words of an item     <  its last words     +  words between items
//   s  i  r  a text, an id, a reason     4  8  a number of so many bytes     @  a time; each behind its name
//   =  which case follows     ?  whether a value follows     a  c  n  how many attendees, changes or other entries follow
//   &  another rule     !  the end of the bytes
// Behind = ? a c n stand alternatives up to the line's end, each behind a /. The byte's number picks one, from 0 on; a count above 0 picks
// the second, so many times.
//
// The first lines are phrases. A step is said in the phrase that has its sign as its name (- is a time below 0), but = ? & only where they
// lead nowhere. The phrases with letters, from M on, say what else is wrong. Their marks:
//   $  the step's words     '  the text     #  the number     %  the limit     @  the place in the bytes
//   ^  the comma that is due     !  the dots before what is wrong
pub fn said(pen: Pen, out: &mut [u8], bytes: &[u8], name: &[u8]) -> Pen
    ensures { Shows out.old out.new pen result }
{
    let rules = b"
.|^$
>|^$
<|$
+|$
s|^$ '
i|^$ '
r|^$ '
4|^$ #
8|^$ #
@|^$ #
-|^$ -#
=|!byte @: no $ has the case #
?|!byte @: #, where 0 for no $ or 1 is expected
&|!byte @: no rule is there for $
M|!byte @: # $, at most % are allowed
B|!byte @: the frame ends before the $
I|!byte @: the frame ends inside the $
L|!byte @: the $ has # bytes, at most % are allowed
U|!byte @: the $ is not well-formed UTF-8
b|!byte @: the frame ends before the time
t|!byte @: the frame ends inside the time
T|!byte @: the time is not within -200000000000000 to 200000000000000
O|!byte @: 1 byte is left over
N|!byte @: # bytes are left over
event|> event [|& provider|i id|& uid|& series|& revision|4 mapper version|& fields|8 passthrough|< ]
provider|= provider/. Google/. Graph/. CalDav/. Ics
uid|? ical uid/. no ical uid/i ical uid
series|? series id/. no series id/i series id
revision|? revision/. no revision/s revision
fields|& title|8 times|& recurrence|& organizer|& attendees|& location|& description|& status|& transparency|& visibility|8 reminders
title|? title/. no title/s title
recurrence|? recurrence/. no recurrence/8 recurrence
organizer|? organizer/. no organizer/s organizer|+  [|& name|< ]
attendees|a attendees/. no attendees/& attendee
attendee|s attendee|+  [|& name|& part|& reply|& kind|< ]
name|? name/. no name/s name
part|= attendee role/. Required/. Optional/. Chair/. NonParticipant
reply|= participation/. NeedsAction/. Accepted/. Declined/. Tentative/. Delegated
kind|= participant kind/. Individual/. Group/. Resource/. Room/. Unknown
location|? location/. no location/s location
description|? description/. no description/8 description
status|= status/. status Confirmed/. status Tentative/. status Cancelled
transparency|= transparency/. transparency Opaque/. transparency Transparent
visibility|= visibility/. visibility Default/. visibility Public/. visibility Private/. visibility Confidential
clerks|> booking |& event|> party 1 |& party|> party 2 |& party|!
party|& role|> wants [|& fields|< ]
frame|& input|!
input|= input/. sync/& edit/8 request|+  answered: |& outcome/@ tick, now/. resume
edit|s edit|i resource|+ : |& operation|& role|& expiry
operation|= operation/> create |& event/> update from [|& fields|+ ] to [|& fields|< ]/. delete
role|= role/. by the owner/> by |s attendee
expiry|? deadline/. never expires/@ expires at
outcome|= outcome/> listed |& changes|& next/& found/> written |& event/. deleted/> failed with |& failure
changes|c changes/. nothing/& change
change|= change/> upsert |i resource|+  [|s revision|& listed|< ]/> remove |i resource
listed|? event/. no event/& event
next|= end of a page/> more from |s cursor/> done at |s cursor
found|? event/. read nothing/> read |& event
failure|= failure/. CursorExpired/. PreconditionFailed/. NotFound/. AlreadyExists/. Transient/> Rejected, |r reason
answer|= answer/. accepted\
    /. refused with 1: a lent buffer has a wrong length\
    /. refused with 2: the bytes are not a well-formed state\
    /. refused with 3: not exactly one input frame\
    /. refused with 4: no request numbers are left\
    /. refused with 5: a table needs one entry more than its limit\
    /. refused with 6: the merged event has over 8 attendees\
    /. refused with 7: the effects take over 32768 bytes
told|& effect|!
effect|= effect/8 request|+ : |& request/& notice
request|= request/& list/> read |i resource/> look up |i key/& create/& update/& delete
list|= listing/. list from the start/> list since |s cursor/> list, continuing at |s cursor
create|> create |i resource|& event
update|> update |i resource|& match|& event
delete|> delete |i resource|& match
match|? revision/. at any revision/> if still at |s revision
notice|= notice/. told Synced/& failed/& applied/& rejected/. told Expired|s edit/& remapped
failed|. told ListingFailed|r reason
applied|. told Applied|s edit|& conflicts|& refusals
rejected|. told Rejected|s edit|& rejection
rejection|= rejection/. Gone/. Exists/. NotOwner/. Provider|r reason
remapped|> told Remapped, |i resource|+  to |i resource
conflicts|n conflicts/. no conflicts/> conflict over |& unit|+  [|> base |& value|> ours |& value|> theirs |& value|< ]
refusals|n refused fields/. nothing refused/> refused |& unit
unit|& field|? attendee//+  of |s attendee
field|= field/. Title/. Times/. Recurrence/. Organizer/. Attendees/. Location/. Description/. Status/. Transparency/. Visibility/. Reminders
value|= field/& title/8 times/& recurrence/& organizer/& person/& location/& description/& status/& transparency/& visibility/8 reminders
person|? attendee/. no attendee/& attendee
";
    follow(pen, out, bytes, rules, name)
}
