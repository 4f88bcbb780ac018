// The list of what changed between two class images: runs of scalar values whose class in the ranges differs, and profile
// entries that were added, removed or given another role.
#![tactic(auto)]

ghost use Rattle.std.specs.Prelude.{◌≡◌, ◌*◌, ◌≤◌, length, take};
ghost use Rattle.lists.specs.Laid.{laid};
ghost use Rattle.image.specs.declared.records.Section.TheVariants.{Ranges, Entries};
ghost use Rattle.changes.specs.Answer.{changes_of, change_words, change_size, list_words, listed_of, buffer_after, answer_of, runs_after, entries_after};
ghost use Rattle.changes.specs.Walked.{change_of, room_by};

use image::ClassImage;
use image::records::Section;
use pair::PairRefusal;
use pair::walk::{Overlap, Overlaps};
use refusal::Refusal;

// The words of a run and of an entry in their lists.
pub const RUN_WORDS: usize = 4;

pub const ENTRY_WORDS: usize = 3;

// How long the two lists are: the numbers of runs and of entries.
#[derive(Clone, Copy, Debug, PartialEq, Eq)]
pub struct Lists {
    pub runs: usize,
    pub entries: usize,
}

// The words of a change in the list of a section.
fn size_of(section: Section) -> usize
    ensures { result ≡ change_size section }
{
    match section {
        Section::Ranges => RUN_WORDS,
        Section::Entries => ENTRY_WORDS,
    }
}

// Writes a change at the front of a buffer.
fn put_change(out: &mut [u32], section: Section, t: Overlap)
    requires { change_size section ≤ length out.old }
    ensures { out.new ≡ laid out.old 0 (change_words section (change_of t)) }
{
    match section {
        Section::Ranges => {
            let words = [t.first, t.last, t.older.class, t.newer.class];
            out[..RUN_WORDS].copy_from_slice(&words);
        }
        Section::Entries => {
            let words = [t.first, t.older.class, t.newer.class];
            out[..ENTRY_WORDS].copy_from_slice(&words);
        }
    }
}

// The number of changes in a section of two accepted images. The first `room` of them are written at the front of a buffer.
// In line at each call, where the section is known, so that it isn't tested at each record (docs/SPEED.md, "Two images").
#[inline(always)]
fn list_section(overlaps: Overlaps, room: usize, out: &mut [u32]) -> usize
    requires { change_size overlaps.section * room ≤ length out.old }
    ensures value { result ≡ length (changes_of overlaps.entry.section overlaps.entry.older.now overlaps.entry.newer.now) }
    ensures out_after { out.new ≡ laid out.old 0 (list_words overlaps.entry.section (take room (changes_of overlaps.entry.section overlaps.entry.older.now overlaps.entry.newer.now))) }
{
    let size = size_of(overlaps.section);
    let mut count: usize = 0;
    let mut at: usize = 0;
    let mut next = Some(overlaps.first());
    // `while let`: an overlap tells the next. An iterator would need the list of them, which no definition has.
    while let Some(t) = next {
        if t.older.class != t.newer.class {
            if count < room {
                put_change(&mut out[at..], overlaps.section, t);
                at += size;
            }
            count += 1;
        }
        next = overlaps.next(t);
    }
    count
}

// Judges the room for the changes in a section. Room for one less than twice the records is always enough: then the changes
// are not counted.
#[inline(always)]
fn judge_room(overlaps: Overlaps, room: usize) -> Result<(), PairRefusal>
    ensures { result ≡ room_by room (length (changes_of overlaps.entry.section overlaps.entry.older.now overlaps.entry.newer.now)) }
{
    let n = overlaps.older.count_records(overlaps.section);
    let m = overlaps.newer.count_records(overlaps.section);
    if n + m <= room / 2 + room % 2 {
        return Ok(());
    }
    let count = list_section(overlaps, 0, &mut []);
    if room < count {
        return Err(PairRefusal::Neither(Refusal::Room(count)));
    }
    Ok(())
}

// The lists of the changes between two accepted images. The room for both is judged before anything is written.
#[tactic(auto, unfolding(crate::specs::Answer::listed_of))]
fn list_accepted(
    older: &ClassImage,
    newer: &ClassImage,
    runs: &mut [u32],
    entries: &mut [u32],
) -> Result<Lists, PairRefusal>
    ensures value { result ≡ listed_of older.now newer.now (length runs.old) (length entries.old) }
    ensures runs_after { runs.new ≡ buffer_after Ranges older.now newer.now result runs.old }
    ensures entries_after { entries.new ≡ buffer_after Entries older.now newer.now result entries.old }
{
    let runs_room = runs.len() / RUN_WORDS;
    let entries_room = entries.len() / ENTRY_WORDS;
    let class_overlaps = Overlaps {
        older,
        newer,
        section: Section::Ranges,
    };
    let role_overlaps = Overlaps {
        section: Section::Entries,
        ..class_overlaps
    };
    judge_room(class_overlaps, runs_room)?;
    judge_room(role_overlaps, entries_room)?;
    Ok(Lists {
        runs: list_section(class_overlaps, runs_room, runs),
        entries: list_section(role_overlaps, entries_room, entries),
    })
}

// The lists of the changes between two images: of runs first, last, older class, newer class; of profile entries code point,
// older role, newer role, 0 for none. A refused call leaves both buffers as they were.
#[tactic(auto, unfolding(crate::specs::Answer::answer_within, crate::specs::Answer::runs_after_within, crate::specs::Answer::entries_after_within))]
pub fn list_changes(
    older: &[u8],
    newer: &[u8],
    runs: &mut [u32],
    entries: &mut [u32],
) -> Result<Lists, PairRefusal>
    ensures value { result ≡ answer_of older.now newer.now (length runs.old) (length entries.old) }
    ensures runs_after { runs.new ≡ runs_after older.now newer.now runs.old entries.old }
    ensures entries_after { entries.new ≡ entries_after older.now newer.now runs.old entries.old }
{
    let (older, newer) = pair::judge_both(older, newer)?;
    list_accepted(&older, &newer, runs, entries)
}
