//! A row of the visitors' book: one byte for the mood, three zeros, and a word.

ghost use Rattle.std.specs.Prelude.{◌≡◌, ℕ, Some, length};
ghost use Rattle.store_pattern.specs.Visitor.{visitor_of};

/// How a visitor left.
#[derive(Clone, Copy, Debug, PartialEq, Eq)]
pub enum Mood {
    Quiet,
    Cheerful,
    Cross,
}

/// A row of the book.
#[derive(Clone, Copy, Debug, PartialEq, Eq)]
pub struct Visitor {
    pub mood: Mood,
    /// The day of the visit.
    pub day: u32,
}

/// The eight bytes of a row.
#[tactic(auto, unfolding(crate::specs::Visitor::visitor_of))]
pub fn visitor_bytes(visitor: Visitor) -> [u8; 8]
    ensures { visitor_of result ≡ Some visitor }
{
    let mood = match visitor.mood {
        Mood::Quiet => 1,
        Mood::Cheerful => 2,
        Mood::Cross => 3,
    };
    let [a, b, c, d] = visitor.day.to_le_bytes();
    [mood, 0, 0, 0, a, b, c, d]
}

/// The row that eight bytes spell, if they spell one.
#[tactic(auto, unfolding(crate::specs::Visitor::visitor_of))]
pub fn visitor_in(bytes: [u8; 8]) -> Option<Visitor>
    ensures { result ≡ visitor_of bytes }
{
    let [kind, b, c, d, w, x, y, z] = bytes;
    if b != 0 || c != 0 || d != 0 {
        return None;
    }
    let mood = match kind {
        1 => Mood::Quiet,
        2 => Mood::Cheerful,
        3 => Mood::Cross,
        _ => return None,
    };
    let day = u32::from_le_bytes([w, x, y, z]);
    Some(Visitor { mood, day })
}
