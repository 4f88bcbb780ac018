// Two accepted images side by side, walked through together from code point 0 up, section by section.
ghost use Rattle.std.specs.Prelude.{◌≡◌, ◌+◌, ◌≤◌};
ghost use Rattle.image.specs.Limits.{last_code_point};
ghost use Rattle.image.specs.Records.{record_count};
ghost use Rattle.pair.specs.Walk.{Walk, AheadOf, Ready, OverlapOf, OverlapAt};

use image::records::Section;
use image::{ClassImage, LAST_CODE_POINT, UNASSIGNED};

// Code points from a given one to `last` that have one class in the ranges of an image, or one role in its entries; the place
// of what follows them, and the number of the section's records.
#[derive(Clone, Copy, Debug, PartialEq, Eq)]
pub struct Ahead {
    pub last: u32,
    pub class: u32,
    pub next: usize,
    pub records: usize,
}

// Code points from `first` to `last`, with what each of two images has there.
#[derive(Clone, Copy, Debug, PartialEq, Eq)]
pub struct Overlap {
    pub first: u32,
    pub last: u32,
    pub older: Ahead,
    pub newer: Ahead,
}

// What begins at code point x in a section of n records, where i is the place of x among them.
fn look_ahead(image: &ClassImage, section: Section, n: usize, i: usize, x: u32) -> Ahead
    requires walk { Walk image.now section i x }
    requires n_value { n ≡ record_count image.now section }
    requires x_le_last_code_point { x ≤ last_code_point }
    ensures { AheadOf image.now section x result }
{
    let rest = Ahead {
        last: LAST_CODE_POINT,
        class: UNASSIGNED,
        next: i,
        records: n,
    };
    if n <= i {
        return rest;
    }
    let r = image.record_at(section, i);
    if x < r.first {
        return Ahead {
            last: r.first - 1,
            ..rest
        };
    }
    Ahead {
        last: r.last,
        class: r.class,
        next: i + 1,
        records: n,
    }
}

// What begins at code point 0 in a section of an accepted image.
fn first_ahead(image: &ClassImage, section: Section) -> Ahead
    ensures { Ready image.now section 0 result }
{
    let n = image.count_records(section);
    look_ahead(image, section, n, 0, 0)
}

// What begins at code point x, where `a` began at x or before it: `a`, or what follows it where its last code point is passed.
fn advance(image: &ClassImage, section: Section, a: Ahead, x: u32) -> Ahead
    requires ready { Ready image.now section x a }
    requires x_le_last_code_point { x ≤ last_code_point }
    ensures { AheadOf image.now section x result }
{
    if a.last < x {
        return look_ahead(image, section, a.records, a.next, x);
    }
    a
}

// The overlaps of a section of two accepted images.
#[derive(Clone, Copy)]
pub struct Overlaps<'a> {
    pub older: &'a ClassImage<'a>,
    pub newer: &'a ClassImage<'a>,
    pub section: Section,
}

impl<'a> Overlaps<'a> {
    // What begins at code point x in both images, where `a` and `b` began at x or before it.
    // It ends where the first of the two does.
    fn at(self, a: Ahead, b: Ahead, x: u32) -> Overlap
        requires ready { Ready self.older.now self.section x a }
        requires ready_2 { Ready self.newer.now self.section x b }
        requires x_le_last_code_point { x ≤ last_code_point }
        ensures first_value { result.first ≡ x }
        ensures overlap { OverlapOf self.entry.older.now self.entry.newer.now self.entry.section result }
    {
        let c = advance(self.older, self.section, a, x);
        let d = advance(self.newer, self.section, b, x);
        Overlap {
            first: x,
            last: c.last.min(d.last),
            older: c,
            newer: d,
        }
    }

    // The overlap at code point 0.
    pub fn first(self) -> Overlap
        ensures first_value { result.first ≡ 0 }
        ensures overlap { OverlapOf self.entry.older.now self.entry.newer.now self.entry.section result }
    {
        let a = first_ahead(self.older, self.section);
        let b = first_ahead(self.newer, self.section);
        self.at(a, b, 0)
    }

    // The overlap after another, or none past the last code point.
    pub fn next(self, t: Overlap) -> Option<Overlap>
        requires { OverlapOf self.older.now self.newer.now self.section t }
        ensures { OverlapAt self.entry.older.now self.entry.newer.now self.entry.section (t.last + 1) result }
    {
        if t.last < LAST_CODE_POINT {
            return Some(self.at(t.older, t.newer, t.last + 1));
        }
        None
    }
}
