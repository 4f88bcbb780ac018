// The two lists of records of an accepted image, its ranges and its profile entries, as one is gone through like the other;
// and what the role of an entry does to its code point.
ghost use Rattle.std.specs.Prelude.{◌≡◌, ◌<◌};
ghost use Rattle.std.proofs.Math.Option.{none};
ghost use Rattle.image.specs.Header.{entry_count};
ghost use Rattle.image.specs.Profile.{point_at, role_at, after_role, is_medial, is_hashtag};
ghost use Rattle.image.specs.Check.{refusal_of};
ghost use Rattle.image.specs.Records.{entry_range, record_at, record_count};

use crate::order::{ImageEntries, Records};
use crate::{ClassImage, ENTRY_COUNT_AT, NONSTART, OTHER, RANGE_COUNT_AT, Range, START};

// The roles of profile entries. A code point of no entry has role 0. Numbers and no enum, as the classes are.
pub const START_ROLE: u32 = 1;

pub const NONSTART_ROLE: u32 = 2;

pub const MEDIAL_ROLE: u32 = 3;

pub const OTHER_ROLE: u32 = 4;

pub const HASHTAG_ROLE: u32 = 5;

// The two lists of records of an image.
#[derive(Clone, Copy, Debug, PartialEq, Eq)]
pub enum Section {
    Ranges,
    Entries,
}

impl ClassImage<'_> {
    // The number of records in a section.
    pub fn count_records(&self, section: Section) -> usize
        ensures count { result ≡ record_count self.now section }
        ensures accepted { refusal_of self.now ≡ none }
    {
        match section {
            Section::Ranges => crate::word(self.bytes, RANGE_COUNT_AT) as usize,
            Section::Entries => crate::word(self.bytes, ENTRY_COUNT_AT) as usize,
        }
    }

    // Profile entry i, as a range of its one code point with its role for the class.
    fn entry_at(&self, i: usize) -> Range
        requires { i < entry_count self.now }
        ensures { result ≡ entry_range (point_at self.now) (role_at self.now) i }
    {
        let entry = ImageEntries::of(self.bytes).get(i);
        Range {
            first: entry.point,
            last: entry.point,
            class: entry.role,
        }
    }

    // Record i of a section.
    pub fn record_at(&self, section: Section, i: usize) -> Range
        requires { i < record_count self.now section }
        ensures { result ≡ record_at self.now section i }
    {
        match section {
            Section::Ranges => crate::range_at(self.bytes, i),
            Section::Entries => self.entry_at(i),
        }
    }
}

// The class after the profile of a code point with a role and a class in the ranges.
#[tactic(auto, unfolding(crate::specs::Profile::after_role))]
pub fn after_role(role: u32, class: u32) -> u32
    ensures { result ≡ after_role role class }
{
    match role {
        START_ROLE => START,
        NONSTART_ROLE => NONSTART,
        OTHER_ROLE => OTHER,
        _ => class,
    }
}

// Whether a role marks a medial.
#[tactic(auto, unfolding(crate::specs::Profile::is_medial))]
pub fn is_medial(role: u32) -> bool
    ensures { result ≡ is_medial role }
{
    role == MEDIAL_ROLE
}

// Whether a role adds its code point to the hashtag Continue characters.
#[tactic(auto, unfolding(crate::specs::Profile::is_hashtag))]
pub fn is_hashtag(role: u32) -> bool
    ensures { result ≡ is_hashtag role }
{
    role == HASHTAG_ROLE
}
