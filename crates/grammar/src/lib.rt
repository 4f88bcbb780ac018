// Tokens: what is judged before a text, a record and its words, and the refusal where no token begins.
// What tokens are, and what the token calls answer, is in `specs/`.
#![tactic(auto)]

ghost use Rattle.std.specs.Prelude.{◌≡◌, ◌≤◌, length, drop};
ghost use Rattle.lists.specs.Laid.{laid};
ghost use Rattle.utf8.specs.Text.{text_of};
ghost use Rattle.image.specs.Opened.{opened_by, judgement_of};
ghost use Rattle.grammar.specs.Record.{record_size, token_words};
ghost use Rattle.grammar.specs.Before.{max_text, before_text};
ghost use Rattle.grammar.specs.Counted.{stop_refusal};

use image::ClassImage;
use refusal::Refusal;
use utf8::IllFormed;

// The most bytes that a text may have.
pub const MAX_TEXT: usize = 1048576;

// The words of a token's record, and of a hashtag's.
pub const RECORD_WORDS: usize = 4;

// Judges a text's length, under an image that was accepted.
pub fn judge_checked(image: &ClassImage, text: &[u8], most: usize) -> Result<(), Refusal>
    ensures { result ≡ judgement_of (before_text most image.now text.now) }
{
    image.recall();
    if most < text.len() {
        return Err(Refusal::TextLength);
    }
    Ok(())
}

// Judges what is given with a text, then its length: the image, or the refusal.
pub fn judge_text<'a>(image: &'a [u8], text: &[u8], most: usize) -> Result<ClassImage<'a>, Refusal>
    ensures { result ≡ opened_by image.now (before_text most image.now text.now) }
{
    let image = given::judge_given(image)?;
    judge_checked(&image, text, most)?;
    Ok(image)
}

// The refusal where no sequence or no token begins at a place: the text from there on is first checked as UTF-8.
pub fn refuse_at(text: &[u8], at: usize) -> Refusal
    requires { at ≤ length text.now }
    ensures { result ≡ stop_refusal at (text_of (drop at text.now)) }
{
    match utf8::check_text(&text[at..]) {
        Ok(()) => Refusal::Characters(at),
        Err(IllFormed { place, len }) => Refusal::IllFormed {
            place: at + place,
            len,
        },
    }
}

// The words of a record at the front of a part of the buffer.
pub fn put_record(out: &mut [u32], kind: u32, start: usize, end: usize, line: u32)
    requires start_le_max_text { (start ≤ max_text) × (end ≤ max_text) }
    requires record_size_in_bounds { record_size ≤ length out.old }
    ensures { out.new ≡ laid out.old 0 (token_words kind start end line) }
{
    out[0] = kind;
    out[1] = start as u32;
    out[2] = end as u32;
    out[3] = line;
}
