// What the token lister does with its input: an image and right after it a text.
ghost use Rattle.std.specs.Prelude.{◌≡◌, List, ℕ, ◌+◌, ◌*◌, ◌≤◌, ◌<◌, length, take};
ghost use Rattle.image.specs.Limits.{max_image};
ghost use Rattle.grammar.specs.Record.{record_size, listed_words};
ghost use Rattle.refusal.specs.Outcome.{outcome_map};
ghost use Rattle.grammar.specs.Reading.{laid_by};
ghost use Rattle.grammar.specs.Counted.{counted_by};
ghost use Rattle.input.specs.Script.{script_written, listed_from, script_words, max_script, whole_answer};

use image::MAX_IMAGE;
use refusal::Refusal;

// The most bytes of the text, and of all input that is looked at: the largest image, the longest text and one byte more.
pub const MAX_SCRIPT: usize = 8192;

pub const MAX_INPUT: usize = MAX_IMAGE + MAX_SCRIPT + 1;

// The words that the longest text's tokens can need.
pub const MAX_WORDS: usize = grammar::RECORD_WORDS * MAX_SCRIPT;

// The list of the tokens of a text of at most 8,192 bytes.
fn list_script(image: &[u8], text: &[u8], out: &mut [u32]) -> Result<usize, Refusal>
    ensures value { result ≡ counted_by (outcome_map length (script_written image.now text.now (length out.old))) }
    ensures out_after { out.new ≡ laid_by (listed_words text.now) out.old (script_written image.now text.now (length out.old)) }
{
    let image = grammar::judge_text(image, text, MAX_SCRIPT)?;
    token::list_checked(&image, text, out)
}

// The list of the tokens of the text that follows the image in the input.
pub fn list_input(input: &[u8], out: &mut [u32]) -> Result<usize, Refusal>
    ensures value { result ≡ counted_by (listed_from input.now (length out.old)) }
    ensures out_after { out.new ≡ script_words input.now out.old }
{
    let (image, text) = crate::split_front(input);
    list_script(image, text, out)
}

// The answer for the whole input, of which the first n bytes were read into a buffer: all, if they don't fill it.
// The buffer comes beside n, and not as the slice of what was read: the clause `by_index` speaks of the room in it.
pub fn list_read(buffer: &[u8], n: usize, out: &mut [u32]) -> Result<usize, Refusal>
    requires n_in_bounds { n ≤ length buffer.now }
    requires max_script_in_bounds { (max_image + max_script < length buffer.now) × (length out.old ≡ record_size * max_script) }
    ensures value { result ≡ counted_by (listed_from (take n buffer.now) (length out.old)) }
    ensures by_index { (whole : List ℕ) → take (length buffer.now) whole ≡ take n buffer.now → result ≡ whole_answer whole }
    ensures out_after { out.new ≡ script_words (take n buffer.now) out.old }
{
    list_input(&buffer[..n], out)
}
