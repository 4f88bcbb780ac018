// What the change lister does with its input: an older image and right after it a newer one.
ghost use Rattle.std.specs.Prelude.{◌≡◌, List, ℕ, ◌*◌, ◌≤◌, ◌<◌, length, take};
ghost use Rattle.image.specs.Limits.{max_image};
ghost use Rattle.input.specs.Images.{answer_from, runs_from, entries_from, max_run_words, max_entry_words, whole_answer};

use changes::{ENTRY_WORDS, Lists, RUN_WORDS};
use image::{MAX_ENTRIES, MAX_IMAGE, MAX_RANGES};
use pair::PairRefusal;

// The most bytes of the input that are looked at: two of the largest images and one byte more.
pub const MAX_INPUT: usize = 2 * MAX_IMAGE + 1;

// The words that the most runs and the most entries need.
pub const MAX_RUN_WORDS: usize = RUN_WORDS * (2 * (MAX_RANGES + MAX_RANGES) - 1);

pub const MAX_ENTRY_WORDS: usize = ENTRY_WORDS * (MAX_ENTRIES + MAX_ENTRIES);

// The lists of the changes between the older image at the front of the input and the newer, which is all that follows.
pub fn list_input(input: &[u8], runs: &mut [u32], entries: &mut [u32]) -> Result<Lists, PairRefusal>
    ensures value { result ≡ answer_from input.now (length runs.old) (length entries.old) }
    ensures runs_after { runs.new ≡ runs_from input.now runs.old entries.old }
    ensures entries_after { entries.new ≡ entries_from input.now runs.old entries.old }
{
    let (older, newer) = crate::split_front(input);
    changes::list_changes(older, newer, runs, entries)
}

// The answer for the whole input, of which the first n bytes were read into a buffer: all, if they don't fill it.
// The buffer comes beside n, and not as the slice of what was read: the clause `by_index` speaks of the room in it.
pub fn list_read(
    buffer: &[u8],
    n: usize,
    runs: &mut [u32],
    entries: &mut [u32],
) -> Result<Lists, PairRefusal>
    requires n_in_bounds { n ≤ length buffer.now }
    requires max_image_in_bounds { (2 * max_image < length buffer.now) × ((length runs.old ≡ max_run_words) × (length entries.old ≡ max_entry_words)) }
    ensures value { result ≡ answer_from (take n buffer.now) (length runs.old) (length entries.old) }
    ensures by_index { (whole : List ℕ) → take (length buffer.now) whole ≡ take n buffer.now → result ≡ whole_answer whole }
    ensures runs_after { runs.new ≡ runs_from (take n buffer.now) runs.old entries.old }
    ensures entries_after { entries.new ≡ entries_from (take n buffer.now) runs.old entries.old }
{
    list_input(&buffer[..n], runs, entries)
}
