// The pair check of two class images: whether the newer differs from the older only by permitted changes.
#![tactic(auto)]

ghost use Rattle.std.specs.Prelude.{◌≡◌, ◌<◌, not};
ghost use Rattle.image.specs.Check.{refusal_of};
ghost use Rattle.pair.specs.Change.{is_continue_class, permitted};
ghost use Rattle.image.specs.Header.{entry_count};
ghost use Rattle.pair.specs.Pair.{forbidden_change, differs_at, same_profile, compared_of, pair_of};
ghost use Rattle.pair.specs.Judged.{both_by};

use image::records::Section;
use image::{ClassImage, NONSTART, OTHER, START, UNASSIGNED};
use refusal::Refusal;
use walk::Overlaps;

pub mod walk;

// A refusal of a call on two images, by what it is of.
#[derive(Clone, Copy, Debug, PartialEq, Eq)]
pub enum PairRefusal {
    // Of the older image, or of the newer: 1 to 4.
    Older(Refusal),
    Newer(Refusal),
    // Of the two together.
    Neither(Refusal),
}

// Whether a class number is that of Start or Nonstart.
#[tactic(auto, unfolding(crate::specs::Change::is_continue_class))]
fn is_continue(class: u32) -> bool
    ensures { result ≡ is_continue_class class }
{
    matches!(class, START | NONSTART)
}

// Whether a class may become another, by their numbers.
#[tactic(auto, unfolding(crate::specs::Change::permitted))]
pub fn is_permitted(older: u32, newer: u32) -> bool
    ensures { result ≡ permitted older newer }
{
    newer == older
        || match older {
            UNASSIGNED => is_continue(newer) || newer == OTHER,
            OTHER => is_continue(newer),
            NONSTART => newer == START,
            _ => false,
        }
}

// The smallest code point with a forbidden change.
fn first_forbidden(older: &ClassImage, newer: &ClassImage) -> Option<u32>
    ensures { result ≡ forbidden_change older.now newer.now }
{
    let overlaps = Overlaps {
        older,
        newer,
        section: Section::Ranges,
    };
    let mut next = Some(overlaps.first());
    // `while let`: an overlap tells the next. An iterator would need the list of them, which no definition has.
    while let Some(t) = next {
        if !is_permitted(t.older.class, t.newer.class) {
            return Some(t.first);
        }
        next = overlaps.next(t);
    }
    None
}

// Whether entry i of the profile sections of two accepted images is the same.
#[tactic(auto, unfolding(crate::specs::Pair::differs_at))]
fn is_same_entry(older: &ClassImage, newer: &ClassImage, i: usize) -> bool
    requires i_bound { (i < entry_count older.now) × (i < entry_count newer.now) }
    ensures { result ≡ not (differs_at older.now newer.now i) }
{
    let p = older.record_at(Section::Entries, i);
    let q = newer.record_at(Section::Entries, i);
    p.first == q.first && p.class == q.class
}

// Whether the profile sections of two accepted images are the same.
fn has_same_profile(older: &ClassImage, newer: &ClassImage) -> bool
    ensures { result ≡ same_profile older.now newer.now }
{
    let count = older.count_records(Section::Entries);
    newer.count_records(Section::Entries) == count
        && (0..count).all(|i| is_same_entry(older, newer, i))
}

// The pair check of two accepted images.
#[tactic(auto, unfolding(crate::specs::Pair::compared_of, crate::specs::Pair::forbidden_change))]
fn compare_accepted(older: &ClassImage, newer: &ClassImage) -> Result<(), PairRefusal>
    ensures { result ≡ compared_of older.now newer.now }
{
    if !has_same_profile(older, newer) {
        return Err(PairRefusal::Neither(Refusal::Profiles));
    }
    match first_forbidden(older, newer) {
        Some(x) => Err(PairRefusal::Neither(Refusal::Change(x as usize))),
        None => Ok(()),
    }
}

// Judges the older image wholly, then the newer, and gives both.
pub fn judge_both<'a, 'b>(
    older: &'a [u8],
    newer: &'b [u8],
) -> Result<(ClassImage<'a>, ClassImage<'b>), PairRefusal>
    ensures { result ≡ both_by older.now newer.now (refusal_of older.now) (refusal_of newer.now) }
{
    let older = ClassImage::open(older).map_err(PairRefusal::Older)?;
    let newer = ClassImage::open(newer).map_err(PairRefusal::Newer)?;
    Ok((older, newer))
}

// Whether the newer image differs from the older only by permitted changes.
#[tactic(auto, unfolding(crate::specs::Pair::pair_within))]
pub fn check_pair(older: &[u8], newer: &[u8]) -> Result<(), PairRefusal>
    ensures { result ≡ pair_of older.now newer.now }
{
    let (older, newer) = judge_both(older, newer)?;
    compare_accepted(&older, &newer)
}
