// The kinds of lines.
use crate::split;

#[derive(Clone, Copy, PartialEq, Eq)]
pub enum Kind {
    Note,
    Walk,
    Expected,
    Frame,
    Mark,
    Check,
    All,
    Told,
    Sent,
    Written,
    Waits,
    InFlight,
    Record,
    Cursor,
    NoCursor,
    Refused,
}

// The kind of a line, by its first word.
pub fn of(line: &[u8]) -> Option<Kind> {
    let (word, _) = split::cut(line);
    match word {
        b"" if line.is_empty() => Some(Kind::Note),
        b"#" => Some(Kind::Note),
        b"walk" => Some(Kind::Walk),
        b"expected" => Some(Kind::Expected),
        b"frame" => Some(Kind::Frame),
        b"mark" => Some(Kind::Mark),
        b"check" => Some(Kind::Check),
        b"all" => Some(Kind::All),
        b"told" => Some(Kind::Told),
        b"sent" => Some(Kind::Sent),
        b"written" => Some(Kind::Written),
        b"waits" => Some(Kind::Waits),
        b"in_flight" => Some(Kind::InFlight),
        b"record" => Some(Kind::Record),
        b"cursor" => Some(Kind::Cursor),
        b"no_cursor" => Some(Kind::NoCursor),
        b"refused" => Some(Kind::Refused),
        _ => None,
    }
}
