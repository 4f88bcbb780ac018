// The named refusals of all calls, with their numbers and what each carries.
#![tactic(auto)]

ghost use Rattle.std.specs.Prelude.{◌≡◌, Some};
ghost use Rattle.refusal.specs.Refusal.{number_of, carried_array, text_of};

use std::fmt;

#[derive(Clone, Copy, Debug, PartialEq, Eq)]
pub enum Refusal {
    // 1: the image is too short or too long, or not of the header's total length.
    Length,
    // 2: a word of the image's header is wrong, or a count is above its limit.
    Header,
    // 3: a range is bad; the index of the first bad one.
    Range(usize),
    // 4: a profile entry is bad; the index of the first bad one.
    Entry(usize),
    // 5: the text is too long.
    TextLength,
    // 6: no well-formed UTF-8 sequence begins at this byte place, the first such; the length of the maximal subpart there.
    IllFormed { place: usize, len: usize },
    // 7: no token begins at this byte place, after the longest run of tokens.
    Characters(usize),
    // 8: more room is needed; the number of records.
    Room(usize),
    // 9: the number is no scalar value.
    NotScalar(usize),
    // 10: a forbidden change; the smallest code point with one.
    Change(usize),
    // 11: the profile sections are unequal.
    Profiles,
    // 12: the buffer for an image is too short; the bytes needed.
    Buffer(usize),
    // 13: a list of words is no multiple of its record's words, or a place lies past the text's end, or a start after an end.
    Shape,
    // 14: a direction mark parts what is one token without it; the byte place of the first such mark.
    Mark(usize),
}

impl Refusal {
    // The refusal's number.
    pub fn number(self) -> u32
        ensures { result ≡ number_of self }
    {
        match self {
            Refusal::Length => 1,
            Refusal::Header => 2,
            Refusal::Range(_) => 3,
            Refusal::Entry(_) => 4,
            Refusal::TextLength => 5,
            Refusal::IllFormed { .. } => 6,
            Refusal::Characters(_) => 7,
            Refusal::Room(_) => 8,
            Refusal::NotScalar(_) => 9,
            Refusal::Change(_) => 10,
            Refusal::Profiles => 11,
            Refusal::Buffer(_) => 12,
            Refusal::Shape => 13,
            Refusal::Mark(_) => 14,
        }
    }

    // The numbers that the refusal carries, in the table's order.
    pub fn carried(self) -> [Option<usize>; 2]
        ensures { result ≡ carried_array self }
    {
        match self {
            Refusal::Length
            | Refusal::Header
            | Refusal::TextLength
            | Refusal::Profiles
            | Refusal::Shape => [None, None],
            Refusal::Range(n)
            | Refusal::Entry(n)
            | Refusal::Characters(n)
            | Refusal::Room(n)
            | Refusal::NotScalar(n)
            | Refusal::Change(n)
            | Refusal::Buffer(n)
            | Refusal::Mark(n) => [Some(n), None],
            Refusal::IllFormed { place, len } => [Some(place), Some(len)],
        }
    }
}

// The refusal's number, then what it carries, with a space before each.
impl fmt::Display for Refusal {
    ghost output = { λ r. Some (text_of r) };

    fn fmt<W: fmt::Write>(&self, f: &mut fmt::Formatter<W>) -> fmt::Result {
        let number = self.number();
        match self.carried() {
            [Some(first), Some(second)] => write!(f, "{number} {first} {second}"),
            [Some(first), None] => write!(f, "{number} {first}"),
            _ => write!(f, "{number}"),
        }
    }
}
