// event.rs and provider.rs: walks past their values.
ghost use Rattle.std.specs.Prelude.{◌≡◌};
ghost use Rattle.format.specs.Format.{option, list};
ghost use Rattle.model.specs.Limits.{max_attendees};
ghost use Rattle.model.specs.Formats.{organizer_f, attendee_f, fields_f, ids_f, event_f};
ghost use Rattle.reader.specs.Left.{rest, left, after};

use crate::Reader;
use crate::leaves::{MAX_ID, U32};

// attendees of an event
pub const MAX_ATTENDEES: u8 = 8;

// The last cases of an attendee's enums, of a status, a transparency, a visibility and a provider, by their place.
const LAST_ROLE: u8 = 3;

const LAST_REPLY: u8 = 4;

const LAST_KIND: u8 = 4;

pub const LAST_STATUS: u8 = 2;

pub const LAST_TRANSPARENCY: u8 = 1;

pub const LAST_VISIBILITY: u8 = 3;

const LAST_PROVIDER: u8 = 3;

impl<'a> Reader<'a> {
    #[tactic(auto, using(crate::proofs::Laws::walks), unfolding(model::specs::Formats::organizer_f))]
    pub fn skip_option_organizer(self) -> Option<Reader<'a>>
        ensures { left result ≡ after (option organizer_f) (rest self.entry) }
    {
        let (some, next) = self.byte(1)?;
        if some == 0 {
            Some(next)
        } else {
            next.skip_short_text()?.skip_option_short_text()
        }
    }

    #[tactic(auto, using(crate::proofs::Laws::walks), unfolding(model::specs::Formats::attendee_f, model::specs::Formats::attendee_role_f, model::specs::Formats::participation_f, model::specs::Formats::kind_f))]
    pub fn skip_attendee(self) -> Option<Reader<'a>>
        ensures { left result ≡ after attendee_f (rest self.entry) }
    {
        self.skip_short_text()?
            .skip_option_short_text()?
            .skip_byte(LAST_ROLE)?
            .skip_byte(LAST_REPLY)?
            .skip_byte(LAST_KIND)
    }

    #[tactic(auto, using(crate::proofs::Laws::lists), unfolding(model::specs::Limits::max_attendees))]
    pub fn skip_attendees(self) -> Option<Reader<'a>>
        ensures { left result ≡ after (list max_attendees attendee_f) (rest self.entry) }
    {
        let (count, mut next) = self.byte(MAX_ATTENDEES)?;
        for _i in 0..count {
            next = next.skip_attendee()?;
        }
        Some(next)
    }

    #[tactic(auto, using(crate::proofs::Laws::walks), unfolding(model::specs::Formats::fields_f, model::specs::Formats::status_f, model::specs::Formats::transparency_f, model::specs::Formats::visibility_f))]
    pub fn skip_fields(self) -> Option<Reader<'a>>
        ensures { left result ≡ after fields_f (rest self.entry) }
    {
        self.skip_option_short_text()?
            .skip_tag()?
            .skip_option_tag()?
            .skip_option_organizer()?
            .skip_attendees()?
            .skip_option_short_text()?
            .skip_option_tag()?
            .skip_byte(LAST_STATUS)?
            .skip_byte(LAST_TRANSPARENCY)?
            .skip_byte(LAST_VISIBILITY)?
            .skip_tag()
    }

    #[tactic(auto, using(crate::proofs::Laws::walks), unfolding(model::specs::Formats::ids_f, model::specs::Formats::provider_f, model::specs::Limits::max_id))]
    pub fn skip_ids(self) -> Option<Reader<'a>>
        ensures { left result ≡ after ids_f (rest self.entry) }
    {
        self.skip_byte(LAST_PROVIDER)?
            .skip_text(MAX_ID)?
            .skip_option_id()?
            .skip_option_id()
    }

    #[tactic(auto, using(crate::proofs::Laws::walks), unfolding(model::specs::Formats::event_f))]
    pub fn skip_event(self) -> Option<Reader<'a>>
        ensures { left result ≡ after event_f (rest self.entry) }
    {
        self.skip_ids()?
            .skip_option_short_text()?
            .skip_number(U32)?
            .skip_fields()?
            .skip_tag()
    }

    #[tactic(auto, using(crate::proofs::Laws::walks))]
    pub fn skip_option_event(self) -> Option<Reader<'a>>
        ensures { left result ≡ after (option event_f) (rest self.entry) }
    {
        let (some, next) = self.byte(1)?;
        if some == 0 {
            Some(next)
        } else {
            next.skip_event()
        }
    }
}
