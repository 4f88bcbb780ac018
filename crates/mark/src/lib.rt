// Marking where a text's tokens start, while they are counted: the loop of `count`, with one store for each character. A start is 16 times
// the first byte, and traits of a character that begins such a token. The array may be too short for all: then the marks are made in
// pieces, and `done` is the number of the first token in it.
#![tactic(auto)]

ghost use Rattle.std.specs.Prelude.{◌≡◌, List, ℕ, ◌+◌, ◌-◌, ◌*◌, ◌≤◌, ◌<◌, length, set};
ghost use Rattle.blocks.specs.Blocks.{Cached, Learning};
ghost use Rattle.grammar.specs.Before.{max_text};
ghost use Rattle.turns.specs.Starts.{Started};
ghost use Rattle.count.specs.Counting.{LookedOn};
ghost use Rattle.count.specs.Turns.{count_states};
ghost use Rattle.count.specs.Rules.{traits_for};
ghost use Rattle.count.specs.Four.{SmallCells};
ghost use Rattle.mark.specs.Marking.{Marking, Marked, LearningOn, Putting, FourAt, count_four, four_put, margin};

use blocks::BLOCKS;
use count::{NO_ROW, ODD, ROW_STATES, Run, STATE_TRAITS, WAITING};
use image::ClassImage;
use refusal::Refusal;

// So many starts are left free, for the tokens that one character may complete and for the end of the last.
const MARGIN: usize = 4;

// A start.
fn start_at(at: usize, traits: usize) -> u32
    requires { (at ≤ max_text) × (traits < 16) }
    ensures { result ≡ 16 * at + traits }
{
    (16 * at + traits) as u32
}

// Puts the starts of four characters of ASCII, each as if a token began with it. The number of tokens that are complete after them.
fn put_four<'a>(
    cells: &'a [u8],
    text: &'a [u8],
    starts: &mut [u32],
    at: usize,
    row: usize,
    k: usize,
) -> usize
    requires small_cells { SmallCells cells.now }
    requires four_at { FourAt cells.now text.now at row }
    requires row_bound { (row < 16) × (at + 4 ≤ length text.now) × (length text.now ≤ max_text) × (k ≤ max_text) × (k + 4 < length starts.old) }
    ensures { (result ≡ count_four cells.now text.now at row k) × (starts.new ≡ four_put cells.now text.now starts.old at row k) }
{
    let t0 = count::ascii_cell(cells, text[at]);
    let t1 = count::ascii_cell(cells, text[at + 1]);
    let t2 = count::ascii_cell(cells, text[at + 2]);
    let t3 = count::ascii_cell(cells, text[at + 3]);
    let k1 = k + count::rule(row, t0);
    let k2 = k1 + count::rule(t0, t1);
    let k3 = k2 + count::rule(t1, t2);
    let k4 = k3 + count::rule(t2, t3);
    starts[k + 1] = start_at(at, t0);
    starts[k1 + 1] = start_at(at + 1, t1);
    starts[k2 + 1] = start_at(at + 2, t2);
    starts[k3 + 1] = start_at(at + 3, t3);
    k4
}

// Marks on as far as what characters do is known from the one before, and starts are free. Each character is marked as if a token began
// with it: where none begins, the next is marked over it. All lengths stand in one function: the loop's numbers stay in registers.
fn run_mark<'a>(
    image: &ClassImage,
    index: &'a [u8],
    cells: &'a [u8],
    text: &'a [u8],
    starts: &mut [u32],
    done: usize,
    run: Run,
) -> Run
    requires cached { Cached image.now index.now cells.now }
    requires text_len_bound { length text.now ≤ max_text }
    requires marking { Marking image.now text.now starts.old done run }
    ensures { Marking image.now text.now starts.new done result × (run.at ≤ result.at) × (run.count ≤ result.count) × (result.rows ≡ run.rows) × (length starts.new ≡ length starts.old) }
{
    image.recall();
    let mut row = count::row_of(run.state);
    if NO_ROW <= row {
        return run;
    }
    let end = count::known_end(text.len());
    let mut at = run.at;
    let mut k = run.count - done;
    let mut last = run.mid;
    // `while`: each round goes on by the length of a character, or of four.
    while at < end {
        if starts.len() <= k + 2 * MARGIN {
            break;
        }
        let a = text[at];
        if a < 0x80 {
            let four = count::four_steps(cells, text, at, row);
            if four < ODD {
                k = put_four(cells, text, starts, at, row, k);
                last = at + 3;
                row = count::ascii_cell(cells, text[last]);
                at += 4;
                continue;
            }
            let traits = cells[a as usize] as usize;
            let step = count::rule(row, traits);
            if ODD <= step {
                break;
            }
            starts[k + 1] = start_at(at, traits);
            k += step;
            row = traits;
            last = at;
            at += 1;
            continue;
        }
        if index.len() < BLOCKS {
            break;
        }
        let (traits, len) = if a < 0xE0 {
            (blocks::known::<2>(index, cells, text, at), 2)
        } else if a < 0xF0 {
            (blocks::known::<3>(index, cells, text, at), 3)
        } else {
            (blocks::known::<4>(index, cells, text, at), 4)
        };
        let step = count::rule(row, traits);
        if ODD <= step {
            break;
        }
        starts[k + 1] = start_at(at, traits);
        k += step;
        row = traits;
        last = at;
        at += len;
    }
    Run {
        at,
        state: count::rule(ROW_STATES, row) as u32,
        count: done + k,
        mid: last,
        ..run
    }
}

// Puts the start of a token that is under way in a state.
pub fn put_start(starts: &mut [u32], i: usize, at: usize, state: u32)
    requires { (i < length starts.old) × (at ≤ max_text) × (state < count_states) }
    ensures { starts.new ≡ set starts.old i (16 * at + traits_for state) }
{
    let traits = count::rule(STATE_TRAITS, state as usize);
    starts[i] = start_at(at, traits);
}

// The starts of the tokens that began while one character was read: of a medial that waited, and of the character.
fn put_starts(starts: &mut [u32], done: usize, run: Run, next: Run)
    requires putting { Putting starts.old done run next }
    ensures { ((s text : List ℕ) → Marking s text starts.old done run → LookedOn s text run next → Started s text starts.new done (next.count - done + 1)) × (length starts.new ≡ length starts.old) }
{
    // Tests in a row: which of the three it is depends on the state between two tests of the number.
    if next.count == run.count {
        return;
    }
    let k = run.count - done;
    if run.state < WAITING {
        put_start(starts, k + 1, run.at, next.state);
        return;
    }
    if next.count == run.count + 1 {
        put_start(starts, k + 1, run.mid, next.state);
        return;
    }
    put_start(starts, k + 1, run.mid, run.state - WAITING);
    put_start(starts, k + 2, run.at, next.state);
}

// Marks on, to the text's end or until starts run out.
pub fn mark_on<'a>(
    image: &ClassImage,
    index: &mut [u8],
    cells: &mut [u8],
    text: &'a [u8],
    starts: &mut [u32],
    done: usize,
    run: Run,
) -> Result<Run, Refusal>
    requires learning { Learning image.now index.old cells.old run.rows }
    requires text_len_bound { length text.now ≤ max_text }
    requires marking { Marking image.now text.now starts.old done run }
    ensures marked { Marked image.now text.now starts.new done result × (length starts.new ≡ length starts.old) }
    ensures learning_on { LearningOn image.now index.new cells.new result }
{
    image.recall();
    let mut run = run;
    // `while`: each round goes on as far as characters are known, and by one that is not.
    while run.at < text.len() {
        run = run_mark(image, index, cells, text, starts, done, run);
        if text.len() <= run.at {
            break;
        }
        if starts.len() <= run.count - done + MARGIN {
            break;
        }
        let next = count::look(image, cells, text, run)?;
        put_starts(starts, done, run, next);
        let rows = blocks::learn_at(index, cells, run.rows, text, run.at, next.memo);
        run = Run { rows, ..next };
    }
    Ok(run)
}

// Marks a text, which isn't empty, from its front.
pub fn mark_first<'a>(
    image: &ClassImage,
    index: &mut [u8],
    cells: &mut [u8],
    text: &'a [u8],
    starts: &mut [u32],
    rows: usize,
) -> Result<Run, Refusal>
    requires learning { Learning image.now index.old cells.old rows }
    requires text_nonzero { (0 < length text.now) × (length text.now ≤ max_text) }
    requires margin_in_bounds { margin < length starts.old }
    ensures marked { Marked image.now text.now starts.new 0 result × (length starts.new ≡ length starts.old) }
    ensures learning_on { LearningOn image.now index.new cells.new result }
{
    image.recall();
    let first = count::begin(text, rows);
    let next = count::look(image, cells, text, first)?;
    put_start(starts, 0, 0, next.state);
    let rows = blocks::learn_at(index, cells, rows, text, 0, next.memo);
    let run = Run { rows, ..next };
    mark_on(image, index, cells, text, starts, 0, run)
}
