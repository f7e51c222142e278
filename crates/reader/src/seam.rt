// seam.rs: walks past the values of an outcome.
ghost use Rattle.std.specs.Prelude.{◌≡◌};
ghost use Rattle.format.specs.Format.{list};
ghost use Rattle.model.specs.Limits.{max_changes};
ghost use Rattle.model.specs.Formats.{change_f, next_f, page_f, list_from_f, request_f};
ghost use Rattle.reader.specs.Left.{rest, left, after};

use crate::Reader;

// changes of a page
pub const MAX_CHANGES: u8 = 8;

impl<'a> Reader<'a> {
    #[tactic(auto, using(crate::proofs::Laws::cases), unfolding(model::specs::Formats::change_f))]
    pub fn skip_change(self) -> Option<Reader<'a>>
        ensures { left result ≡ after change_f (rest self.entry) }
    {
        let (case, next) = self.byte(1)?;
        match case {
            0 => next
                .skip_resource_id()?
                .skip_short_text()?
                .skip_option_event(),
            _ => next.skip_resource_id(),
        }
    }

    #[tactic(auto, using(crate::proofs::Laws::lists), unfolding(model::specs::Limits::max_changes))]
    pub fn skip_changes(self) -> Option<Reader<'a>>
        ensures { left result ≡ after (list max_changes change_f) (rest self.entry) }
    {
        let (count, mut next) = self.byte(MAX_CHANGES)?;
        for _i in 0..count {
            next = next.skip_change()?;
        }
        Some(next)
    }

    #[tactic(auto, using(crate::proofs::Laws::cases), unfolding(model::specs::Formats::next_f))]
    pub fn skip_next_page(self) -> Option<Reader<'a>>
        ensures { left result ≡ after next_f (rest self.entry) }
    {
        let (_, next) = self.byte(1)?;
        next.skip_short_text()
    }

    #[tactic(auto, using(crate::proofs::Laws::walks), unfolding(model::specs::Formats::page_f))]
    pub fn skip_page(self) -> Option<Reader<'a>>
        ensures { left result ≡ after page_f (rest self.entry) }
    {
        self.skip_changes()?.skip_next_page()
    }

    #[tactic(auto, using(crate::proofs::Laws::cases), unfolding(model::specs::Formats::list_from_f))]
    pub fn skip_list_from(self) -> Option<Reader<'a>>
        ensures { left result ≡ after list_from_f (rest self.entry) }
    {
        let (case, next) = self.byte(2)?;
        match case {
            0 => Some(next),
            _ => next.skip_short_text(),
        }
    }

    #[tactic(auto, using(crate::proofs::Laws::cases), unfolding(model::specs::Formats::request_f))]
    pub fn skip_request(self) -> Option<Reader<'a>>
        ensures { left result ≡ after request_f (rest self.entry) }
    {
        let (case, next) = self.byte(5)?;
        match case {
            0 => next.skip_list_from(),
            1 | 2 => next.skip_resource_id(),
            3 => next.skip_resource_id()?.skip_event(),
            4 => next
                .skip_resource_id()?
                .skip_option_short_text()?
                .skip_event(),
            _ => next.skip_resource_id()?.skip_option_short_text(),
        }
    }
}
