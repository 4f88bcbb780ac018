// Hashtags in flowing text: the list of a text's hashtags under a class image. The call whose name ends in `_checked` takes an image that was
// checked and accepted.
#![tactic(auto)]

ghost use Rattle.std.specs.Prelude.{◌≡◌, Bool, true, false, not, ◌&&◌, ◌||◌, ◌+◌, ◌*◌, ◌%◌, ◌≤◌, ◌<◌, [], length, drop, leb, MatchOption, IfSome};
ghost use Rattle.std.proofs.Math.Option.{none};
ghost use Rattle.lists.specs.Laid.{laid};
ghost use Rattle.utf8.specs.Head.{step_of, IllHead};
ghost use Rattle.utf8.specs.Text.{characters_at, width_of, text_of};
ghost use Rattle.line.specs.Line.{LineAt};
ghost use Rattle.character.specs.Traits.{part_class};
ghost use Rattle.character.specs.Read.{TableOf};
ghost use Rattle.grammar.specs.Kinds.{is_continue};
ghost use Rattle.grammar.specs.Record.{record_size};
ghost use Rattle.grammar.specs.Counted.{counted_by};
ghost use Rattle.grammar.specs.Before.{max_text, before_text};
ghost use Rattle.hashtag.specs.Sign.{is_sign};
ghost use Rattle.hashtag.specs.Find.{run_of, hashtags_of};
ghost use Rattle.hashtag.specs.Listed.{spans_words, hashtag_list_of, hashtag_list_words, counted_through, closed_by};
ghost use Rattle.hashtag.specs.Seek.{continues_first, free_at, stop_for, StopsOf, Skipped, sum_of, LinesCounted, LinesCountedTo, Backed, sign_of, SignFound, Sought, hashtags_at};

use grammar::{MAX_TEXT, RECORD_WORDS};
use image::ClassImage;
use refusal::Refusal;

// The kind of a hashtag in its record: a word, as `hashtag_kind` has it.
pub const HASHTAG_KIND: u32 = 6;

// The signs that begin a hashtag.
const NUMBER_SIGN: u32 = 0x23;

const SMALL_NUMBER_SIGN: u32 = 0xFE5F;

const FULLWIDTH_NUMBER_SIGN: u32 = 0xFF03;

// The first byte of the last two.
const WIDE_SIGNS: u8 = 0xEF;

// What a table of bytes has where a search stops.
const STOP: u8 = line::LOOK;

// A sign that begins a hashtag: its first byte, and one past its last.
#[derive(Clone, Copy, Debug, PartialEq, Eq)]
pub struct Sign {
    pub at: usize,
    pub next: usize,
}

// A sign, and the line of its first byte.
#[derive(Clone, Copy, Debug, PartialEq, Eq)]
pub struct FoundSign {
    pub sign: Sign,
    pub line: u32,
}

// A place that a search has reached, and the line there.
#[derive(Clone, Copy, Debug, PartialEq, Eq)]
pub struct Reach {
    pub at: usize,
    pub line: u32,
}

// Whether a code point is a sign.
#[tactic(auto, unfolding(crate::specs::Sign::is_sign))]
fn is_sign(code: u32) -> bool
    ensures { result ≡ is_sign code }
{
    matches!(
        code,
        NUMBER_SIGN | SMALL_NUMBER_SIGN | FULLWIDTH_NUMBER_SIGN
    )
}

// Whether a character with these traits is hashtag Continue.
fn continues(code: u32, traits: u32) -> bool
    ensures { result ≡ (not (is_sign code) && (is_continue (part_class (traits % 8)) || leb 16 traits)) }
{
    // a sign never is, whatever its class or role
    !is_sign(code)
        && (character::HASHTAG <= traits || matches!(traits % 8, image::START | image::NONSTART))
}

// What a table of bytes has for a byte: STOP where a search stops, else how many line ends it passes over there. The first bytes of the signs
// stop it; in a text that is known to be well-formed those whose line end is to be looked at too, in another every byte that isn't a
// character by itself.
fn stop_at(b: usize, known: bool) -> u8
    ensures { result ≡ stop_for known b }
{
    if b == NUMBER_SIGN as usize || b == WIDE_SIGNS as usize {
        STOP
    } else if known {
        line::tell_end(b)
    } else if b < 0x80 {
        0
    } else {
        STOP
    }
}

// The table of bytes. Its fact, `StopsOf`, stands in the clauses of its users: a type with a `bool` parameter for `known` can have no ghost field yet
// (tried), and two types, one for each, are no plainer.
fn fill_stops(known: bool) -> [u8; 256]
    ensures { StopsOf known result }
{
    let mut stops = [STOP; 256];
    for (b, stop) in stops.iter_mut().enumerate() {
        *stop = stop_at(b, known);
    }
    stops
}

// What the table has for a byte. The table goes with the text as an argument, and is no field of `Reader`: the two passes have one each.
fn look(stops: &[u8; 256], b: u8) -> u8
    ensures { (known : Bool) → StopsOf known stops.now → result ≡ stop_for known b }
{
    stops[b as usize]
}

// The first place from a place on where a search stops, in a text that isn't known to be well-formed, or the text's end. It isn't one with
// `pass_bytes`, since it counts no line ends.
fn skip<'a>(stops: &'a [u8; 256], text: &'a [u8], from: usize) -> usize
    requires stops_of { StopsOf false stops.now }
    requires from_in_bounds { from ≤ length text.now }
    ensures { Skipped text.now from result }
{
    for at in from..text.len() {
        if STOP <= look(stops, text[at]) {
            return at;
        }
    }
    text.len()
}

// The sum of what the table has for four bytes. Written out: `map` and `sum` would be no shorter, and their sum would need its bound told.
fn look_four<'a>(stops: &'a [u8; 256], s: &'a [u8]) -> u8
    requires stops_of { StopsOf true stops.now }
    requires in_bounds { 4 ≤ length s.now }
    ensures { result ≡ sum_of s.now 0 4 }
{
    look(stops, s[0]) + look(stops, s[1]) + look(stops, s[2]) + look(stops, s[3])
}

// A place up to which a search in a text that is known to be well-formed stops nowhere, from a place on this line: four bytes at a time.
fn pass_fours<'a>(stops: &'a [u8; 256], text: &'a [u8], from: usize, first: u32) -> Reach
    requires stops_of { StopsOf true stops.now }
    requires from_in_bounds { (from ≤ length text.now) × (length text.now ≤ max_text) }
    requires first_bound { first ≤ 16 * max_text }
    ensures { LinesCounted text.now from first result }
{
    let mut at = from;
    let mut line = first;
    // a `while`, since it goes on by four bytes
    while 4 <= text.len() - at {
        let ends = look_four(stops, &text[at..]);
        if STOP <= ends {
            return Reach { at, line };
        }
        line += ends as u32;
        at += 4;
    }
    Reach { at, line }
}

// The first place from a place on this line where such a search stops, or the text's end.
fn pass_bytes<'a>(stops: &'a [u8; 256], text: &'a [u8], from: usize, first: u32) -> Reach
    requires stops_of { StopsOf true stops.now }
    requires from_in_bounds { (from ≤ length text.now) × (length text.now ≤ max_text) }
    requires first_bound { first ≤ 16 * max_text }
    ensures { LinesCountedTo text.now from first result }
{
    let mut line = first;
    for at in from..text.len() {
        let end = look(stops, text[at]);
        if STOP <= end {
            return Reach { at, line };
        }
        line += end as u32;
    }
    Reach {
        at: text.len(),
        line,
    }
}

// Whether the sequence at a place is that of a sign.
fn is_sign_at(text: &[u8], at: usize) -> bool
    requires { at < length text.now }
    ensures { result ≡ sign_of (step_of (drop at text.now)) }
{
    let b = text[at];
    b == NUMBER_SIGN as u8 || b == WIDE_SIGNS && is_sign((utf8::decode_packed(text, at) / 8) as u32)
}

// Where the character begins that ends at a place, not before another place; the same place where the two are the same.
fn step_back(text: &[u8], from: usize, to: usize) -> usize
    requires { (from ≤ to) × (to ≤ length text.now) }
    ensures { Backed text.now from to result }
{
    for at in (from..to).rev() {
        if !utf8::is_trail(text[at]) {
            return at;
        }
    }
    from
}

// A text, and a class image that was accepted, with the traits of ASCII under it.
#[derive(Clone, Copy)]
struct Reader<'a> {
    image: &'a ClassImage<'a>,
    table: &'a [u8; 128],
    text: &'a [u8],
    ghost table_of: { TableOf image.now table.now },
}

impl<'a> Reader<'a> {
    // Whether the character at a place is hashtag Continue; there may be none.
    fn continues_at(self, at: usize) -> bool
        ensures { result ≡ continues_first self.entry.image.now (characters_at self.entry.text.now at) }
    {
        self.image.recall();
        if self.text.len() <= at {
            return false;
        }
        let c = character::read(self.image, self.table, character::no_memo(), self.text, at);
        c.len != 0 && continues(c.code, c.traits)
    }

    // One past the run of hashtag Continue that begins at a place.
    fn find_run_end(self, from: usize) -> usize
        requires from_in_bounds { from ≤ length self.text.now }
        ensures { let r = self.entry in (result ≡ from + width_of (run_of r.image.now (characters_at r.text.now from))) × (result ≤ length r.text.now) }
    {
        self.image.recall();
        let mut memo = character::no_memo();
        let mut at = from;
        // a `while`, since characters differ in length
        while at < self.text.len() {
            let c = character::read(self.image, self.table, memo, self.text, at);
            if c.len == 0 || !continues(c.code, c.traits) {
                break;
            }
            memo = c.memo;
            at += c.len;
        }
        at
    }

    // Whether no hashtag Continue stands right before a place; the character there begins at `before`, or there is none and the two are the
    // same.
    fn is_free(self, before: usize, at: usize) -> bool
        ensures { result ≡ free_at self.entry.image.now self.entry.text.now before at }
    {
        at <= before || !self.continues_at(before)
    }

    // Whether a sign begins a hashtag: no hashtag Continue stands right before it, and one right after it.
    fn begins(self, before: usize, sign: Sign) -> bool
        ensures { let r = self.entry in result ≡ (free_at r.image.now r.text.now before sign.at && continues_first r.image.now (characters_at r.text.now sign.next)) }
    {
        self.is_free(before, sign.at) && self.continues_at(sign.next)
    }

    // The sign of the next hashtag from a place on, where no hashtag Continue stands right before that place; else the place where the
    // characters end. `before` is where the character right before `at` begins, or `at` itself where there is none.
    fn seek(self, stops: &[u8; 256], from: usize) -> Result<Sign, usize>
        requires stops_of { StopsOf false stops.now }
        requires from_in_bounds { from ≤ length self.text.now }
        ensures { Sought self.entry.image.now self.entry.text.now from result }
    {
        let mut before = from;
        let mut at = from;
        // a `while`, since characters differ in length
        while at < self.text.len() {
            let past = skip(stops, self.text, at);
            if at < past {
                before = past - 1;
                at = past;
                continue;
            }
            let len = utf8::measure(self.text, at);
            if len == 0 {
                return Err(at);
            }
            let sign = Sign { at, next: at + len };
            if is_sign_at(self.text, at) && self.begins(before, sign) {
                return Ok(sign);
            }
            before = at;
            at = sign.next;
        }
        Err(at)
    }

    // As `seek`, in a text that is well-formed from the place on, which has this line; None where no hashtag is left. Bytes at which it
    // doesn't stop are passed over, whatever character they are of.
    fn seek_known(self, stops: &[u8; 256], from: usize, mut line: u32) -> Option<FoundSign>
        requires stops_of { StopsOf true stops.now }
        requires text_len_bound { length self.text.now ≤ max_text }
        requires from_in_bounds { (from ≤ length self.text.now) × (text_of (drop from self.text.now) ≡ Ok tt) }
        requires line_at { LineAt self.text.now from line }
        ensures sought { let r = self.entry in MatchOption result (hashtags_at r.image.now r.text.now true from ≡ []) (λ f. SignFound r.image.now r.text.now from f.sign) }
        ensures line_at_2 { let t = self.entry.text.now in IfSome result (λ f. LineAt t f.sign.at f.line × LineAt t f.sign.next f.line) }
    {
        let mut at = from;
        // a `while`, since characters differ in length
        while at < self.text.len() {
            let near = pass_fours(stops, self.text, at, line);
            let stop = pass_bytes(stops, self.text, near.at, near.line);
            at = stop.at;
            line = stop.line;
            if self.text.len() <= at {
                return None;
            }
            let len = utf8::measure_known(self.text[at]);
            let sign = Sign { at, next: at + len };
            if is_sign_at(self.text, at) && self.begins(step_back(self.text, from, at), sign) {
                return Some(FoundSign { sign, line });
            }
            line += line::count_at(self.text, at);
            at = sign.next;
        }
        None
    }
}

// The answer where the characters end at a place: so many hashtags, or refusal 6 if the text goes on there.
fn close(text: &[u8], at: usize, count: usize) -> Result<usize, Refusal>
    requires at_in_bounds { at ≤ length text.now }
    requires ill_head { at < length text.now → IllHead (drop at text.now) }
    ensures { result ≡ closed_by at count (text_of (drop at text.now)) }
{
    if at < text.len() {
        return Err(grammar::refuse_at(text, at));
    }
    Ok(count)
}

// The number of hashtags.
fn count_hashtags<'a>(
    image: &ClassImage,
    table: &'a [u8; 128],
    text: &'a [u8],
) -> Result<usize, Refusal>
    requires table_of { TableOf image.now table.now }
    ensures { result ≡ counted_through image.now text.now }
{
    let stops = fill_stops(false);
    let reader = Reader { image, table, text };
    let mut count = 0;
    let mut at = 0;
    loop {
        match reader.seek(&stops, at) {
            Ok(sign) => {
                count += 1;
                at = sign.next;
            }
            Err(end) => return close(text, end, count),
        }
    }
}

// The words of all hashtags of a well-formed text.
fn write_hashtags<'a>(image: &ClassImage, table: &'a [u8; 128], text: &'a [u8], out: &mut [u32])
    requires table_of { TableOf image.now table.now }
    requires text_len_bound { length text.now ≤ max_text }
    requires text_value { text_of text.now ≡ Ok tt }
    requires text_in_bounds { record_size * length (hashtags_of image.now text.now) ≤ length out.old }
    ensures { out.new ≡ laid out.old 0 (spans_words text.now (hashtags_of image.now text.now)) }
{
    let stops = fill_stops(true);
    let reader = Reader { image, table, text };
    let mut w = 0;
    let mut at = 0;
    let mut line = 1;
    while let Some(found) = reader.seek_known(&stops, at, line) {
        let sign = found.sign;
        let end = reader.find_run_end(sign.next);
        grammar::put_record(&mut out[w..], HASHTAG_KIND, sign.at, end, found.line);
        w += RECORD_WORDS;
        at = sign.next;
        line = found.line;
    }
}

// The list of a text's hashtags, where nothing before it is refused.
fn list_accepted(image: &ClassImage, text: &[u8], out: &mut [u32]) -> Result<usize, Refusal>
    requires { before_text max_text image.now text.now ≡ none }
    ensures value { result ≡ counted_by (hashtag_list_of image.now text.now (length out.old)) }
    ensures out_after { out.new ≡ hashtag_list_words image.now text.now out.old }
{
    let table = character::fill_table(image);
    let count = count_hashtags(image, &table, text)?;
    if out.len() / RECORD_WORDS < count {
        return Err(Refusal::Room(count));
    }
    write_hashtags(image, &table, text, out);
    Ok(count)
}

// The list of a text's hashtags, written whole, under an image that was accepted. After a refusal the buffer is as it was.
pub fn list_checked(image: &ClassImage, text: &[u8], out: &mut [u32]) -> Result<usize, Refusal>
    ensures value { result ≡ counted_by (hashtag_list_of image.now text.now (length out.old)) }
    ensures out_after { out.new ≡ hashtag_list_words image.now text.now out.old }
{
    grammar::judge_checked(image, text, MAX_TEXT)?;
    list_accepted(image, text, out)
}

// The list of a text's hashtags, written whole. After a refusal the buffer is as it was.
pub fn list(image: &[u8], text: &[u8], out: &mut [u32]) -> Result<usize, Refusal>
    ensures value { result ≡ counted_by (hashtag_list_of image.now text.now (length out.old)) }
    ensures out_after { out.new ≡ hashtag_list_words image.now text.now out.old }
{
    let image = grammar::judge_text(image, text, MAX_TEXT)?;
    list_accepted(&image, text, out)
}
