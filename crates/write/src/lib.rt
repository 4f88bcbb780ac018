// Writing the records of a text's tokens from where they start, token by token, once the text is known to be accepted.
#![tactic(auto)]

ghost use Rattle.std.specs.Prelude.{◌≡◌, true, not, ◌||◌, ◌+◌, ◌/◌, ◌≤◌, ◌<◌, eqb, length, EachIndex, slice_index};
ghost use Rattle.line.specs.Line.{LineAt};
ghost use Rattle.character.specs.Read.{TokenTableOf};
ghost use Rattle.grammar.specs.Before.{max_text};
ghost use Rattle.grammar.specs.Record.{record_size};
ghost use Rattle.write.specs.Records.{Apart, Plain, Spans, Listing, Piece, WrittenTo, Wrote};

use grammar::RECORD_WORDS;
use image::ClassImage;

// The kind of line ends, as a record has it.
const LINE_ENDS: u32 = 4;

const LINE_FEED: u8 = 0x0A;

// The first free word, and the line of the byte after the tokens that are written.
#[derive(Clone, Copy, Debug, PartialEq, Eq)]
pub struct Written {
    pub w: usize,
    pub line: u32,
}

// Whether a character of these traits stands in no token, or in those of its own kind of White alone, if it is a line end.
fn is_apart(traits: u8) -> bool
    ensures { result ≡ true → Apart traits }
{
    matches!(traits, 0 | 5 | 6)
}

// Whether characters of these traits are all so.
fn are_apart(cells: &[u8]) -> bool
    ensures { result ≡ true → EachIndex cells.now (λ k. Apart (slice_index cells.now k)) }
{
    cells.iter().all(|t| is_apart(*t))
}

// Whether line ends stand in no token but those of line ends: if so, no other token has to be looked through.
pub fn are_plain<'a>(image: &ClassImage, cells: &'a [u8]) -> bool
    requires token_table_of { TokenTableOf image.now cells.now }
    ensures { result ≡ true → Plain image.now }
{
    let mut next = [0u8; 1];
    character::fill_cells(image, 0x85, 0, &mut next);
    let mut separators = [0u8; 2];
    character::fill_cells(image, 0x2028, 0, &mut separators);
    are_apart(&cells[0x0A..=0x0D]) && are_apart(&next) && are_apart(&separators)
}

// The line after a token, by the line ends in it.
fn line_after(text: &[u8], start: usize, end: usize, line: u32) -> u32
    requires text_len_bound { length text.now ≤ max_text }
    requires line_at { LineAt text.now start line }
    requires spans { Spans text.now start end }
    ensures { LineAt text.now end result }
{
    if end - start == 1 && text[start] == LINE_FEED {
        return line + 1;
    }
    let mut at = start;
    let mut now = line;
    // `while`: each round goes on by the length of a character.
    while at < end {
        now += line::count_at(text, at);
        at += utf8::measure_known(text[at]);
    }
    now
}

// Whether a token of a kind has to be looked through for line ends.
fn may_end_lines(kind: u32, plain: bool) -> bool
    ensures { result ≡ (eqb kind 4 || not plain) }
{
    kind == LINE_ENDS || !plain
}

// Writes n records, from the starts of their tokens and of what comes after them. The rest of the buffer, from the first free word on, is
// handed on for each.
pub fn put_records<'a>(
    image: &ClassImage,
    text: &'a [u8],
    starts: &'a [u32],
    plain: bool,
    out: &mut [u32],
    total: usize,
    n: usize,
    from: Written,
) -> Written
    requires listing { Listing image.now text.now out.old total }
    requires plain { plain ≡ true → Plain image.now }
    requires piece { Piece image.now text.now starts.now (from.w / record_size) n total }
    requires n_in_bounds { n < length starts.now }
    requires written_to { WrittenTo image.now text.now (from.w / record_size) from }
    ensures written_to_2 { WrittenTo image.now text.now (from.w / record_size + n) result }
    ensures wrote { Wrote image.now text.now out.old out.new (from.w / record_size) n total × (length out.new ≡ length out.old) }
{
    image.recall();
    let mut w = from.w;
    let mut line = from.line;
    for k in 0..n {
        let code = starts[k] as usize;
        let start = code / 16;
        let end = starts[k + 1] as usize / 16;
        let kind = turns::state_after((code % 16) as u32);
        grammar::put_record(&mut out[w..], kind, start, end, line);
        w += RECORD_WORDS;
        if may_end_lines(kind, plain) {
            line = line_after(text, start, end, line);
        }
    }
    Written { w, line }
}
