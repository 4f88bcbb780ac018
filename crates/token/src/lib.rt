// The token calls: counting a text's tokens, writing their list, and taking one token at a place. A call whose name ends in `_checked`
// takes an image that was checked and accepted.
#![tactic(auto)]

ghost use Rattle.std.specs.Prelude.{◌≡◌, ◌≤◌, ◌<◌, length, leb};
ghost use Rattle.std.proofs.Math.Option.{none};
ghost use Rattle.lists.specs.Laid.{laid};
ghost use Rattle.blocks.specs.Blocks.{Blank, Learnt};
ghost use Rattle.grammar.specs.Record.{room_of, listed_words};
ghost use Rattle.grammar.specs.Before.{max_text, before_text};
ghost use Rattle.grammar.specs.Reading.{tokens_of, count_of, list_of, list_words};
ghost use Rattle.grammar.specs.Counted.{counted_by, count_through};
ghost use Rattle.mark.specs.Marking.{Marking};
ghost use Rattle.write.specs.Records.{Listing};
ghost use Rattle.token.specs.Taken.{taken_of};
ghost use Rattle.token.specs.Ended.{Ended};

use blocks::BLOCKS;
use count::{Run, WAITING};
use grammar::{MAX_TEXT, RECORD_WORDS};
use image::ClassImage;
use refusal::Refusal;
use turns::First;
use write::Written;

// Below so many bytes a text is short: what is known of its characters is not kept, since clearing the room for it takes longer.
const SHORT: usize = 96;

// The starts of a short text; each token has a byte.
const SHORT_STARTS: usize = 104;

// The starts of any other: a text with no more tokens is read once.
const STARTS: usize = 1152;

// The cells of 60 rows.
const CELLS: usize = 3840;

// A token: its kind as a record has it (`kind_number`), its first byte, and one past its last.
#[derive(Clone, Copy, Debug, PartialEq, Eq)]
pub struct Token {
    pub kind: u32,
    pub start: usize,
    pub end: usize,
}

// The number of a text's tokens under a checked image. The index and the cells come blank.
fn count_with<'a>(
    image: &ClassImage,
    index: &mut [u8],
    cells: &mut [u8],
    text: &'a [u8],
) -> Result<usize, Refusal>
    requires blank { Blank index.old × Blank cells.old × (128 ≤ length cells.old) }
    ensures { result ≡ count_through image.now text.now }
{
    let rows = blocks::begin(image, cells);
    let run = count::begin(text, rows);
    count::count_on(image, index, cells, text, run)
}

// The number of a text's tokens, where nothing before it is refused.
fn count_accepted(image: &ClassImage, text: &[u8]) -> Result<usize, Refusal>
    requires { before_text max_text image.now text.now ≡ none }
    ensures { result ≡ counted_by (count_of image.now text.now) }
{
    if text.len() < SHORT {
        let mut index = [0u8; 1];
        let mut cells = [0u8; 128];
        return count_with(image, &mut index, &mut cells, text);
    }
    let mut index = [0u8; BLOCKS];
    let mut cells = [0u8; CELLS];
    count_with(image, &mut index, &mut cells, text)
}

// The number of a text's tokens, under an image that was accepted.
pub fn count_checked(image: &ClassImage, text: &[u8]) -> Result<usize, Refusal>
    ensures { result ≡ counted_by (count_of image.now text.now) }
{
    grammar::judge_checked(image, text, MAX_TEXT)?;
    count_accepted(image, text)
}

// The number of a text's tokens.
pub fn count(image: &[u8], text: &[u8]) -> Result<usize, Refusal>
    ensures { result ≡ counted_by (count_of image.now text.now) }
{
    let image = grammar::judge_text(image, text, MAX_TEXT)?;
    count_accepted(&image, text)
}

// Whether so many words have room for the records of `count` tokens.
fn is_room(words: usize, count: usize) -> bool
    ensures { result ≡ leb count (room_of words) }
{
    count <= words / RECORD_WORDS
}

// Marks the text's end, in a run that has come there, and a medial before it that waits. How many tokens start from number `done` on.
fn end_starts<'a>(
    image: &ClassImage,
    text: &'a [u8],
    starts: &mut [u32],
    done: usize,
    run: Run,
) -> usize
    requires text_len_bound { length text.now ≤ max_text }
    requires marking { Marking image.now text.now starts.old done run }
    requires text_len_bound_2 { length text.now ≤ run.at }
    ensures ended { Ended image.now text.now starts.new done result }
    ensures upper_bound { (result < length starts.new) × (length starts.new ≡ length starts.old) }
{
    let n = run.count - done + 1;
    if run.state <= WAITING {
        mark::put_start(starts, n, text.len(), 0);
        return n;
    }
    mark::put_start(starts, n, run.mid, run.state - WAITING);
    mark::put_start(starts, n + 1, text.len(), 0);
    n + 1
}

// Writes the records of an accepted text's tokens: those that are marked, then those that are marked next, to the text's end.
fn write_all<'a>(
    image: &ClassImage,
    index: &mut [u8],
    cells: &mut [u8],
    text: &'a [u8],
    starts: &mut [u32],
    out: &mut [u32],
    total: usize,
    run: Run,
)
    requires learnt { Learnt image.now index.old cells.old }
    requires listing { Listing image.now text.now out.old total }
    requires marking { Marking image.now text.now starts.old 0 run }
    requires in_bounds { 8 ≤ length starts.old }
    ensures { out.new ≡ laid out.old 0 (listed_words text.now (tokens_of image.now text.now)) }
{
    let plain = write::are_plain(image, cells);
    let mut run = Run {
        rows: cells.len(),
        ..run
    };
    let mut done = 0;
    let mut from = Written { w: 0, line: 1 };
    // `while`: each round goes on to where the starts run out.
    while run.at < text.len() {
        let n = run.count - done;
        from = write::put_records(image, text, starts, plain, out, total, n, from);
        starts[0] = starts[n];
        done = run.count;
        let Ok(next) = mark::mark_on(image, index, cells, text, starts, done, run) else {
            return; // the text is accepted
        };
        run = next;
    }
    let n = end_starts(image, text, starts, done, run);
    let _last = write::put_records(image, text, starts, plain, out, total, n, from);
}

// The list of a text's tokens under a checked image. The index and the cells come blank. The text is marked as far as there are starts, then
// counted to its end; only then is anything written.
fn list_with<'a>(
    image: &ClassImage,
    index: &mut [u8],
    cells: &mut [u8],
    starts: &mut [u32],
    text: &'a [u8],
    out: &mut [u32],
) -> Result<usize, Refusal>
    requires blank { Blank index.old × Blank cells.old × (128 ≤ length cells.old) }
    requires text_len_bound { length text.now ≤ max_text }
    requires in_bounds { 8 ≤ length starts.old }
    ensures value { result ≡ counted_by (list_of image.now text.now (length out.old)) }
    ensures out_after { out.new ≡ list_words image.now text.now out.old }
{
    image.recall();
    if text.len() == 0 {
        return Ok(0);
    }
    let rows = blocks::begin(image, cells);
    let run = mark::mark_first(image, index, cells, text, starts, rows)?;
    let count = count::count_on(image, index, cells, text, run)?;
    if !is_room(out.len(), count) {
        return Err(Refusal::Room(count));
    }
    write_all(image, index, cells, text, starts, out, count, run);
    Ok(count)
}

// The list of a text's tokens, where nothing before it is refused.
fn list_accepted(image: &ClassImage, text: &[u8], out: &mut [u32]) -> Result<usize, Refusal>
    requires { before_text max_text image.now text.now ≡ none }
    ensures value { result ≡ counted_by (list_of image.now text.now (length out.old)) }
    ensures out_after { out.new ≡ list_words image.now text.now out.old }
{
    if text.len() < SHORT {
        let mut index = [0u8; 1];
        let mut cells = [0u8; 128];
        let mut starts = [0u32; SHORT_STARTS];
        return list_with(image, &mut index, &mut cells, &mut starts, text, out);
    }
    let mut index = [0u8; BLOCKS];
    let mut cells = [0u8; CELLS];
    let mut starts = [0u32; STARTS];
    list_with(image, &mut index, &mut cells, &mut starts, text, out)
}

// The list of a text's tokens, written whole, under an image that was accepted. After a refusal the buffer is as it was.
pub fn list_checked(image: &ClassImage, text: &[u8], out: &mut [u32]) -> Result<usize, Refusal>
    ensures value { result ≡ counted_by (list_of image.now text.now (length out.old)) }
    ensures out_after { out.new ≡ list_words image.now text.now out.old }
{
    grammar::judge_checked(image, text, MAX_TEXT)?;
    list_accepted(image, text, out)
}

// The list of a text's tokens, written whole. After a refusal the buffer is as it was.
pub fn list(image: &[u8], text: &[u8], out: &mut [u32]) -> Result<usize, Refusal>
    ensures value { result ≡ counted_by (list_of image.now text.now (length out.old)) }
    ensures out_after { out.new ≡ list_words image.now text.now out.old }
{
    let image = grammar::judge_text(image, text, MAX_TEXT)?;
    list_accepted(&image, text, out)
}

// The token at a place, where nothing before it is refused; `None` where the text ends there.
fn take_accepted(image: &ClassImage, text: &[u8], place: usize) -> Result<Option<Token>, Refusal>
    requires { before_text max_text image.now text.now ≡ none }
    ensures { result ≡ taken_of image.now text.now place }
{
    if text.len() < place {
        return Err(Refusal::Shape);
    }
    let mut table = [0u8; 128];
    character::fill_cells(image, 0, 0, &mut table);
    let first = turns::first_token(image, &table, &text[place..]);
    match first {
        First::Nothing => Ok(None),
        First::IllFormed => Err(grammar::refuse_at(text, place)),
        First::NoToken => Err(Refusal::Characters(place)),
        First::Token { kind, end } => Ok(Some(Token {
            kind,
            start: place,
            end: place + end,
        })),
    }
}

// The token at a place, under an image that was accepted.
pub fn take_checked(image: &ClassImage, text: &[u8], place: usize) -> Result<Option<Token>, Refusal>
    ensures { result ≡ taken_of image.now text.now place }
{
    grammar::judge_checked(image, text, MAX_TEXT)?;
    take_accepted(image, text, place)
}

// The token at a place.
pub fn take_token(image: &[u8], text: &[u8], place: usize) -> Result<Option<Token>, Refusal>
    ensures { result ≡ taken_of image.now text.now place }
{
    let image = grammar::judge_text(image, text, MAX_TEXT)?;
    take_accepted(&image, text, place)
}
