// loss.rs and sync.rs: walks past the values of a notice and of an effect.
ghost use Rattle.std.specs.Prelude.{◌≡◌};
ghost use Rattle.format.specs.Format.{option, list};
ghost use Rattle.model.specs.Limits.{max_count};
ghost use Rattle.model.specs.Formats.{attendee_f, field_value_f, conflict_f, refused_f, conflicts_f, refusals_f, rejection_f, notice_f, effect_f};
ghost use Rattle.reader.specs.Left.{rest, left, after};

use crate::Reader;
use crate::events::{LAST_STATUS, LAST_TRANSPARENCY, LAST_VISIBILITY};
use crate::leaves::U64;

// entries of a list that has no limit of its own: its count is one byte
pub const MAX_COUNT: u8 = 255;

// The last field of an event, by its place.
const LAST_FIELD: u8 = 10;

impl<'a> Reader<'a> {
    #[tactic(auto, using(crate::proofs::Laws::walks))]
    pub fn skip_option_attendee(self) -> Option<Reader<'a>>
        ensures { left result ≡ after (option attendee_f) (rest self.entry) }
    {
        let (some, next) = self.byte(1)?;
        if some == 0 {
            Some(next)
        } else {
            next.skip_attendee()
        }
    }

    #[tactic(auto, using(crate::proofs::Laws::cases), unfolding(model::specs::Formats::field_value_f, model::specs::Formats::status_f, model::specs::Formats::transparency_f, model::specs::Formats::visibility_f))]
    pub fn skip_field_value(self) -> Option<Reader<'a>>
        ensures { left result ≡ after field_value_f (rest self.entry) }
    {
        let (case, next) = self.byte(LAST_FIELD)?;
        match case {
            0 | 5 => next.skip_option_short_text(),
            1 => next.skip_tag(),
            2 | 6 => next.skip_option_tag(),
            3 => next.skip_option_organizer(),
            4 => next.skip_option_attendee(),
            7 => next.skip_byte(LAST_STATUS),
            8 => next.skip_byte(LAST_TRANSPARENCY),
            9 => next.skip_byte(LAST_VISIBILITY),
            _ => next.skip_tag(),
        }
    }

    #[tactic(auto, using(crate::proofs::Laws::walks), unfolding(model::specs::Formats::conflict_f, model::specs::Formats::field_f))]
    pub fn skip_conflict(self) -> Option<Reader<'a>>
        ensures { left result ≡ after conflict_f (rest self.entry) }
    {
        self.skip_byte(LAST_FIELD)?
            .skip_option_short_text()?
            .skip_field_value()?
            .skip_field_value()?
            .skip_field_value()
    }

    #[tactic(auto, using(crate::proofs::Laws::walks), unfolding(model::specs::Formats::refused_f, model::specs::Formats::field_f))]
    pub fn skip_refused(self) -> Option<Reader<'a>>
        ensures { left result ≡ after refused_f (rest self.entry) }
    {
        self.skip_byte(LAST_FIELD)?.skip_option_short_text()
    }

    #[tactic(auto, using(crate::proofs::Laws::lists), unfolding(model::specs::Formats::conflicts_f, model::specs::Limits::max_count))]
    pub fn skip_conflicts(self) -> Option<Reader<'a>>
        ensures { left result ≡ after conflicts_f (rest self.entry) }
    {
        let (count, mut next) = self.byte(MAX_COUNT)?;
        for _i in 0..count {
            next = next.skip_conflict()?;
        }
        Some(next)
    }

    #[tactic(auto, using(crate::proofs::Laws::lists), unfolding(model::specs::Formats::refusals_f, model::specs::Limits::max_count))]
    pub fn skip_refusals(self) -> Option<Reader<'a>>
        ensures { left result ≡ after refusals_f (rest self.entry) }
    {
        let (count, mut next) = self.byte(MAX_COUNT)?;
        for _i in 0..count {
            next = next.skip_refused()?;
        }
        Some(next)
    }

    #[tactic(auto, using(crate::proofs::Laws::cases), unfolding(model::specs::Formats::rejection_f))]
    pub fn skip_rejection(self) -> Option<Reader<'a>>
        ensures { left result ≡ after rejection_f (rest self.entry) }
    {
        let (case, next) = self.byte(3)?;
        match case {
            3 => next.skip_reason(),
            _ => Some(next),
        }
    }

    #[tactic(auto, using(crate::proofs::Laws::cases), unfolding(model::specs::Formats::notice_f))]
    pub fn skip_notice(self) -> Option<Reader<'a>>
        ensures { left result ≡ after notice_f (rest self.entry) }
    {
        let (case, next) = self.byte(5)?;
        match case {
            0 => Some(next),
            1 => next.skip_reason(),
            2 => next.skip_short_text()?.skip_conflicts()?.skip_refusals(),
            3 => next.skip_short_text()?.skip_rejection(),
            4 => next.skip_short_text(),
            _ => next.skip_resource_id()?.skip_resource_id(),
        }
    }

    #[tactic(auto, using(crate::proofs::Laws::cases), unfolding(model::specs::Formats::effect_f))]
    pub fn skip_effect(self) -> Option<Reader<'a>>
        ensures { left result ≡ after effect_f (rest self.entry) }
    {
        let (case, next) = self.byte(1)?;
        match case {
            0 => next.skip_number(U64)?.skip_request(),
            _ => next.skip_notice(),
        }
    }
}
