// Bytes, texts, numbers and timestamps.
ghost use Rattle.std.specs.Prelude.{◌≡◌, suc, ◌≤◌, IfSome};
ghost use Rattle.format.specs.Format.{text, below, number, option, stamp};
ghost use Rattle.model.specs.Formats.{resource_id, event_id, reason, short_text, tag};
ghost use Rattle.reader.specs.Left.{rest, got, left, after};

use crate::Reader;

// The sizes, as Limits.antt of the model has them: a reader whose constant is not the model's number is not proved.

// bytes of a resource id, and of an event's `id`, `ical_uid` and `series_id`
pub const MAX_ID: usize = 32;

// bytes of a reason
pub const MAX_REASON: usize = 64;

// bytes of every other text
pub const MAX_TEXT: usize = 32;

// bytes of a tag, of a u64 and of a u32
pub const TAG: usize = 8;

pub const U64: usize = 8;

pub const U32: usize = 4;

impl<'a> Reader<'a> {
    // A byte of at most `most`.
    #[tactic(auto, unfolding(format::specs::Format::below))]
    pub fn byte(self, most: u8) -> Option<(u8, Reader<'a>)>
        ensures read { got (λ b. b) result ≡ (below (suc most)).dec (rest self.entry) }
        ensures bound { IfSome result (λ r. r.0 ≤ most) }
    {
        let (b, rest) = self.rest.split_first()?;
        if most < *b {
            return None;
        }
        Some((*b, Reader { rest }))
    }

    // A text of at most `limit` bytes, as that part of the frame.
    #[tactic(auto, unfolding(format::specs::Format::text))]
    pub fn text(self, limit: usize) -> Option<(&'a [u8], Reader<'a>)>
        ensures { got (λ t. t.now) result ≡ (text limit).dec (rest self.entry) }
    {
        let (length, rest) = self.rest.split_first()?;
        let length = usize::from(*length);
        if limit < length {
            return None;
        }
        let (bytes, rest) = rest.split_at_checked(length)?;
        if !format::is_text(bytes) {
            return None;
        }
        Some((bytes, Reader { rest }))
    }

    // A big-endian number of `w` bytes.
    pub fn number(self, w: usize) -> Option<(u64, Reader<'a>)>
        requires { (1 ≤ w) × (w ≤ 8) }
        ensures { got (λ n. n) result ≡ (number w).dec (rest self.entry) }
    {
        let (bytes, rest) = self.rest.split_at_checked(w)?;
        let mut value: u64 = 0;
        for b in bytes {
            value = value * 256 + u64::from(*b);
        }
        Some((value, Reader { rest }))
    }

    #[tactic(auto, unfolding(crate::specs::Left::after))]
    pub fn skip_byte(self, most: u8) -> Option<Reader<'a>>
        ensures { left result ≡ after (below (suc most)) (rest self.entry) }
    {
        let (_, next) = self.byte(most)?;
        Some(next)
    }

    #[tactic(auto, unfolding(crate::specs::Left::after))]
    pub fn skip_text(self, limit: usize) -> Option<Reader<'a>>
        ensures { left result ≡ after (text limit) (rest self.entry) }
    {
        let (_, next) = self.text(limit)?;
        Some(next)
    }

    #[tactic(auto, using(crate::proofs::Laws::walks))]
    pub fn skip_option_text(self, limit: usize) -> Option<Reader<'a>>
        ensures { left result ≡ after (option (text limit)) (rest self.entry) }
    {
        let (some, next) = self.byte(1)?;
        if some == 0 {
            Some(next)
        } else {
            next.skip_text(limit)
        }
    }

    #[tactic(auto, unfolding(crate::specs::Left::after))]
    pub fn skip_number(self, w: usize) -> Option<Reader<'a>>
        requires { (1 ≤ w) × (w ≤ 8) }
        ensures { left result ≡ after (number w) (rest self.entry) }
    {
        let (_, next) = self.number(w)?;
        Some(next)
    }

    #[tactic(auto, using(crate::proofs::Laws::walks))]
    pub fn skip_tag(self) -> Option<Reader<'a>>
        ensures { left result ≡ after tag (rest self.entry) }
    {
        self.skip_number(TAG)
    }

    #[tactic(auto, using(crate::proofs::Laws::walks))]
    pub fn skip_option_tag(self) -> Option<Reader<'a>>
        ensures { left result ≡ after (option tag) (rest self.entry) }
    {
        let (some, next) = self.byte(1)?;
        if some == 0 {
            Some(next)
        } else {
            next.skip_tag()
        }
    }

    #[tactic(auto, unfolding(model::specs::Limits::max_id))]
    pub fn skip_resource_id(self) -> Option<Reader<'a>>
        ensures { left result ≡ after resource_id (rest self.entry) }
    {
        self.skip_text(MAX_ID)
    }

    #[tactic(auto, using(crate::proofs::Laws::walks), unfolding(model::specs::Limits::max_id))]
    pub fn skip_option_id(self) -> Option<Reader<'a>>
        ensures { left result ≡ after (option event_id) (rest self.entry) }
    {
        let (some, next) = self.byte(1)?;
        if some == 0 {
            Some(next)
        } else {
            next.skip_text(MAX_ID)
        }
    }

    #[tactic(auto, unfolding(model::specs::Limits::max_reason))]
    pub fn skip_reason(self) -> Option<Reader<'a>>
        ensures { left result ≡ after reason (rest self.entry) }
    {
        self.skip_text(MAX_REASON)
    }

    #[tactic(auto, unfolding(model::specs::Limits::max_text))]
    pub fn skip_short_text(self) -> Option<Reader<'a>>
        ensures { left result ≡ after short_text (rest self.entry) }
    {
        self.skip_text(MAX_TEXT)
    }

    #[tactic(auto, using(crate::proofs::Laws::walks))]
    pub fn skip_option_short_text(self) -> Option<Reader<'a>>
        ensures { left result ≡ after (option short_text) (rest self.entry) }
    {
        let (some, next) = self.byte(1)?;
        if some == 0 {
            Some(next)
        } else {
            next.skip_short_text()
        }
    }
}
