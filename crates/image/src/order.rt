// Lists of records in their order, ranges or profile entries, from any source; and the search for the first bad record, one that
// is bad by itself or after the record before it.
ghost use Rattle.std.specs.Prelude.{◌≡◌, ℕ, ◌+◌, ◌*◌, ◌≤◌, ◌<◌, Bool, not, ◌||◌, ltb, length};
ghost use Rattle.image.specs.Limits.{entry_bytes, first_surrogate, last_surrogate};
ghost use Rattle.image.specs.Header.{range_count, entry_count, entries_at, image_end};
ghost use Rattle.image.specs.Ranges.{range_at, good_alone, follows};
ghost use Rattle.image.specs.Profile.{point_at, role_at, good_entry_alone};
ghost use Rattle.image.specs.Order.{entry_by, rises, good_record, first_bad};

use crate::{
    ENTRY_BYTES, ENTRY_COUNT_AT, FIRST_ROLE, FIRST_SURROGATE, HEADER_BYTES, LAST_CODE_POINT,
    LAST_ROLE, LAST_SURROGATE, OTHER, RANGE_BYTES, RANGE_COUNT_AT, ROLE_AT, Range, START,
};

// A record that is good by itself or bad, and that may stand after another or not.
pub trait Record: Copy {
    ghost good: { Self → Bool };

    ghost after: { Self → Self → Bool };

    fn is_good_alone(self) -> bool
        ensures { result ≡ good self };

    fn may_follow(self, before: Self) -> bool
        ensures { result ≡ after before self };
}

// A list of records.
pub trait Records {
    type Item: Record;

    ghost item: { Self → ℕ → Self.Item };

    ghost size: { Self → ℕ };

    fn len(&self) -> usize
        ensures { result ≡ size self.now };

    fn get(&self, i: usize) -> Self::Item
        requires { i < size self.now }
        ensures { result ≡ item self.now i };
}

// Whether record i of a list is good.
fn is_good<L: Records>(list: &L, i: usize) -> bool
    requires { i < L.size list.now }
    ensures { result ≡ good_record L.Item.good L.Item.after (L.item list.now) i }
{
    let r = list.get(i);
    r.is_good_alone() && (i == 0 || r.may_follow(list.get(i - 1)))
}

// The index of the first bad record of a list.
pub fn first_bad<L: Records>(list: &L) -> Option<usize>
    ensures { result ≡ first_bad L.Item.good L.Item.after (L.item list.now) (L.size list.now) }
{
    for i in 0..list.len() {
        if !is_good(list, i) {
            return Some(i);
        }
    }
    None
}

// Whether one of D800 to DFFF stands from `first` to `last`.
fn has_surrogate(first: u32, last: u32) -> bool
    ensures { result ≡ not (ltb last_surrogate first || ltb last first_surrogate) }
{
    first <= LAST_SURROGATE && FIRST_SURROGATE <= last
}

impl Record for Range {
    ghost good = { good_alone };

    ghost after = { follows };

    // The last one first: the loop took up to twice the time the other way round (docs/SPEED.md, "Checking an image").
    #[tactic(auto, unfolding(crate::specs::Ranges::good_alone))]
    fn is_good_alone(self) -> bool {
        self.last <= LAST_CODE_POINT
            && self.first <= self.last
            && !has_surrogate(self.first, self.last)
            && (START..=OTHER).contains(&self.class)
    }

    // It begins after the end of the range before, and doesn't touch its like.
    #[tactic(auto, unfolding(crate::specs::Ranges::follows))]
    fn may_follow(self, before: Range) -> bool {
        before.last < self.first && (self.class != before.class || before.last + 1 != self.first)
    }
}

// A profile entry: a code point and its role.
#[derive(Clone, Copy, Debug, PartialEq, Eq)]
pub struct Entry {
    pub point: u32,
    pub role: u32,
}

impl Record for Entry {
    ghost good = { λ e. good_entry_alone e.point e.role };

    ghost after = { rises };

    #[tactic(auto, unfolding(crate::specs::Profile::good_entry_alone))]
    fn is_good_alone(self) -> bool {
        utf8::is_scalar(self.point) && (FIRST_ROLE..=LAST_ROLE).contains(&self.role)
    }

    fn may_follow(self, before: Entry) -> bool {
        before.point < self.point
    }
}

// The first `count` ranges of an image.
#[derive(Clone, Copy)]
pub struct ImageRanges<'a> {
    pub image: &'a [u8],
    pub count: usize,
    ghost fits: { entries_at count ≤ length image.now },
}

impl<'a> Records for ImageRanges<'a> {
    type Item = Range;

    ghost item = { λ s. range_at s.image.now };

    ghost size = { λ s. s.count };

    fn len(&self) -> usize {
        self.count
    }

    fn get(&self, i: usize) -> Range {
        crate::range_at(self.image, i)
    }
}

// The first `count` profile entries of an image, which begin at byte `base`.
#[derive(Clone, Copy)]
pub struct ImageEntries<'a> {
    pub image: &'a [u8],
    pub base: usize,
    pub count: usize,
    ghost begins: { base ≡ entries_at (range_count image.now) },
    ghost fits: { base + entry_bytes * count ≤ length image.now },
}

impl<'a> ImageEntries<'a> {
    // All entries of an image that holds as many ranges and entries as its header says.
    pub fn of(image: &'a [u8]) -> ImageEntries<'a>
        requires { image_end (range_count image.now) (entry_count image.now) ≤ length image.now }
        ensures { (result.image.now ≡ image.now) × (result.count ≡ entry_count image.now) }
    {
        let n = crate::word(image, RANGE_COUNT_AT) as usize;
        ImageEntries {
            image,
            base: HEADER_BYTES + RANGE_BYTES * n,
            count: crate::word(image, ENTRY_COUNT_AT) as usize,
        }
    }
}

impl<'a> Records for ImageEntries<'a> {
    type Item = Entry;

    ghost item = { λ s. entry_by (point_at s.image.now) (role_at s.image.now) };

    ghost size = { λ s. s.count };

    fn len(&self) -> usize {
        self.count
    }

    fn get(&self, i: usize) -> Entry {
        let at = self.base + ENTRY_BYTES * i;
        Entry {
            point: crate::word(self.image, at),
            role: crate::word(self.image, at + ROLE_AT),
        }
    }
}
