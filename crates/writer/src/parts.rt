// What an image is written from: ranges in a list of words, and profile entries in two arrays.
ghost use Rattle.std.specs.Prelude.{◌≤◌};
ghost use Rattle.image.specs.Limits.{max_entries};
ghost use Rattle.image.specs.Ranges.{range_in};
ghost use Rattle.image.specs.Order.{entry_by};
ghost use Rattle.writer.specs.Write.{ranges_in, value_at};

use image::order::{Entry, Records};
use image::{MAX_ENTRIES, RANGE_WORDS, Range};

// The ranges of a list of words, three words each.
#[derive(Clone, Copy)]
pub struct WordRanges<'a> {
    pub words: &'a [u32],
}

impl<'a> Records for WordRanges<'a> {
    type Item = Range;

    ghost item = { λ s. range_in s.words.now };

    ghost size = { λ s. ranges_in s.words.now };

    fn len(&self) -> usize {
        self.words.len() / RANGE_WORDS
    }

    #[tactic(auto, unfolding(image::specs::Ranges::range_in))]
    fn get(&self, i: usize) -> Range {
        let at = RANGE_WORDS * i;
        Range {
            first: self.words[at],
            last: self.words[at + 1],
            class: self.words[at + 2],
        }
    }
}

// The first `used` entries of an array of code points and one of roles.
#[derive(Clone, Copy)]
pub struct Entries<'a> {
    pub points: &'a [u32; MAX_ENTRIES],
    pub roles: &'a [u32; MAX_ENTRIES],
    pub used: usize,
    ghost few: { used ≤ max_entries },
}

impl<'a> Records for Entries<'a> {
    type Item = Entry;

    ghost item = { λ s. entry_by (value_at s.points.now) (value_at s.roles.now) };

    ghost size = { λ s. s.used };

    fn len(&self) -> usize {
        self.used
    }

    fn get(&self, i: usize) -> Entry {
        Entry {
            point: self.points[i],
            role: self.roles[i],
        }
    }
}
