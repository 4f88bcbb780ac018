// The functions of the static library, for callers in C and Rust: numbers, slices and arrays of a fixed length only.
// The result is 0 where the call gives no refusal, else the refusal's number. The values of the answer, or what the
// refusal carries, go into `answer`, with zeros past them. A function whose name ends in `_checked` is given an image that
// `luffinarc_check` or `luffinarc_read` accepted, with the same bytes.
#![tactic(auto)]

ghost use Rattle.std.specs.Prelude.{◌≡◌, length};
ghost use Rattle.std.proofs.Math.Option.{none};
ghost use Rattle.image.specs.Profile.{profile_by};
ghost use Rattle.image.specs.Check.{refusal_of, check_of, read_of, words_after};
ghost use Rattle.writer.specs.Write.{write_of, bytes_after};
ghost use Rattle.lookup.specs.Lookup.{lookup_of};
ghost use Rattle.pair.specs.Pair.{pair_of};
ghost use Rattle.changes.specs.Answer.{answer_of, runs_after, entries_after};
ghost use Rattle.grammar.specs.Reading.{count_of, list_of, list_words};
ghost use Rattle.grammar.specs.Counted.{counted_by};
ghost use Rattle.token.specs.Taken.{taken_of};
ghost use Rattle.hashtag.specs.Listed.{hashtag_list_of, hashtag_list_words};
ghost use Rattle.part.specs.Part.{part_of, part_bytes};
ghost use Rattle.reply.specs.Reply.{Tells};
ghost use Rattle.reply.specs.ImageReply.{TellsChecked, found_reply, written_reply, pair_reply, changes_reply};
ghost use Rattle.reply.specs.TokenReply.{counted_reply, taken_reply, part_reply, told_part};

use image::{ClassImage, MAX_ENTRIES};
use reply::Told;

// Checks an image. Answer: version, number of ranges, number of profile entries.
#[unsafe(no_mangle)]
pub extern "C" fn luffinarc_check(
    image: &[u8],
    points: &mut [u32; MAX_ENTRIES],
    roles: &mut [u32; MAX_ENTRIES],
    answer: &mut [u64; 4],
) -> u32
    ensures { TellsChecked (check_of image.now) points.old roles.old result answer.new points.new roles.new }
{
    match ClassImage::open(image) {
        Err(r) => r.tell(answer),
        Ok(image) => reply::tell_profile(&image, points, roles, answer),
    }
}

// Reads an image: its ranges go into `words`. Answer: version, number of ranges, number of profile entries.
#[unsafe(no_mangle)]
pub extern "C" fn luffinarc_read(
    image: &[u8],
    words: &mut [u32],
    points: &mut [u32; MAX_ENTRIES],
    roles: &mut [u32; MAX_ENTRIES],
    answer: &mut [u64; 4],
) -> u32
    ensures tells_checked { TellsChecked (read_of image.now (length words.old)) points.old roles.old result answer.new points.new roles.new }
    ensures words_after { words.new ≡ words_after image.now words.old }
{
    match image::read_ranges(image, words) {
        Err(r) => r.tell(answer),
        Ok(_) => reply::tell_profile(&ClassImage::of_accepted(image), points, roles, answer),
    }
}

// Writes the image with this version, these ranges and this profile. Answer: bytes of the image.
#[unsafe(no_mangle)]
pub extern "C" fn luffinarc_write<'a>(
    version: u32,
    words: &[u32],
    points: &'a [u32; MAX_ENTRIES],
    roles: &'a [u32; MAX_ENTRIES],
    used: usize,
    out: &mut [u8],
    answer: &mut [u64; 4],
) -> u32
    ensures tells { Tells (written_reply (write_of words.now (profile_by points.now roles.now used) (length out.old))) result answer.new }
    ensures out_after { out.new ≡ bytes_after version words.now (profile_by points.now roles.now used) out.old }
{
    writer::write_arrays(version, words, points, roles, used, out).tell(answer)
}

// The class of a number after the profile of an image. Answer: class, number of ranges looked at.
#[unsafe(no_mangle)]
pub extern "C" fn luffinarc_lookup(image: &[u8], number: u32, answer: &mut [u64; 4]) -> u32
    ensures { Tells (found_reply (lookup_of image.now number)) result answer.new }
{
    lookup::lookup(image, number).tell(answer)
}

// As `luffinarc_lookup`, in an image that was checked.
#[unsafe(no_mangle)]
pub extern "C" fn luffinarc_lookup_checked<'a>(
    image: &'a [u8],
    number: u32,
    answer: &mut [u64; 4],
) -> u32
    requires { refusal_of image.now ≡ none }
    ensures { Tells (found_reply (lookup_of image.now number)) result answer.new }
{
    let image = ClassImage::of_accepted(image);
    lookup::lookup_checked(&image, number).tell(answer)
}

// Whether the newer image differs from the older only by permitted changes. Answer: zeros. A refusal tells at index 2
// which image it is of: 1 the older, 2 the newer, 0 the pair.
#[unsafe(no_mangle)]
pub extern "C" fn luffinarc_pair(older: &[u8], newer: &[u8], answer: &mut [u64; 4]) -> u32
    ensures { Tells (pair_reply (pair_of older.now newer.now)) result answer.new }
{
    pair::check_pair(older, newer).tell(answer)
}

// Lists what changed between two images: runs of scalar values with another class in the ranges, four words each, and
// profile entries with another role, three words each. Answer: the numbers of runs and of entries. A refusal tells at
// index 2 which image it is of: 1 the older, 2 the newer, 0 neither.
#[unsafe(no_mangle)]
pub extern "C" fn luffinarc_changes(
    older: &[u8],
    newer: &[u8],
    runs: &mut [u32],
    entries: &mut [u32],
    answer: &mut [u64; 4],
) -> u32
    ensures tells { Tells (changes_reply (answer_of older.now newer.now (length runs.old) (length entries.old))) result answer.new }
    ensures runs_after { runs.new ≡ runs_after older.now newer.now runs.old entries.old }
    ensures entries_after { entries.new ≡ entries_after older.now newer.now runs.old entries.old }
{
    changes::list_changes(older, newer, runs, entries).tell(answer)
}

// Counts the tokens of a text. Answer: their number.
#[unsafe(no_mangle)]
pub extern "C" fn luffinarc_count<'a>(image: &'a [u8], text: &'a [u8], answer: &mut [u64; 4]) -> u32
    ensures { Tells (counted_reply (counted_by (count_of image.now text.now))) result answer.new }
{
    token::count(image, text).tell(answer)
}

// As `luffinarc_count`, under an image that was checked.
#[unsafe(no_mangle)]
pub extern "C" fn luffinarc_count_checked<'a>(
    image: &'a [u8],
    text: &'a [u8],
    answer: &mut [u64; 4],
) -> u32
    requires { refusal_of image.now ≡ none }
    ensures { Tells (counted_reply (counted_by (count_of image.now text.now))) result answer.new }
{
    let image = ClassImage::of_accepted(image);
    token::count_checked(&image, text).tell(answer)
}

// Writes the list of a text's tokens. Answer: their number.
#[unsafe(no_mangle)]
pub extern "C" fn luffinarc_list<'a>(
    image: &'a [u8],
    text: &'a [u8],
    words: &mut [u32],
    answer: &mut [u64; 4],
) -> u32
    ensures tells { Tells (counted_reply (counted_by (list_of image.now text.now (length words.old)))) result answer.new }
    ensures words_after { words.new ≡ list_words image.now text.now words.old }
{
    token::list(image, text, words).tell(answer)
}

// As `luffinarc_list`, under an image that was checked.
#[unsafe(no_mangle)]
pub extern "C" fn luffinarc_list_checked<'a>(
    image: &'a [u8],
    text: &'a [u8],
    words: &mut [u32],
    answer: &mut [u64; 4],
) -> u32
    requires { refusal_of image.now ≡ none }
    ensures tells { Tells (counted_reply (counted_by (list_of image.now text.now (length words.old)))) result answer.new }
    ensures words_after { words.new ≡ list_words image.now text.now words.old }
{
    let image = ClassImage::of_accepted(image);
    token::list_checked(&image, text, words).tell(answer)
}

// Takes one token at a place of a text. Answer: kind, first byte, one past the last byte. The result is 255 where the
// place is the text's end.
#[unsafe(no_mangle)]
pub extern "C" fn luffinarc_token<'a>(
    image: &'a [u8],
    text: &'a [u8],
    place: usize,
    answer: &mut [u64; 4],
) -> u32
    ensures { Tells (taken_reply (taken_of image.now text.now place)) result answer.new }
{
    token::take_token(image, text, place).tell(answer)
}

// As `luffinarc_token`, under an image that was checked.
#[unsafe(no_mangle)]
pub extern "C" fn luffinarc_token_checked<'a>(
    image: &'a [u8],
    text: &'a [u8],
    place: usize,
    answer: &mut [u64; 4],
) -> u32
    requires { refusal_of image.now ≡ none }
    ensures { Tells (taken_reply (taken_of image.now text.now place)) result answer.new }
{
    let image = ClassImage::of_accepted(image);
    token::take_checked(&image, text, place).tell(answer)
}

// Writes the list of a text's hashtags. Answer: their number.
#[unsafe(no_mangle)]
pub extern "C" fn luffinarc_hashtags<'a>(
    image: &'a [u8],
    text: &'a [u8],
    words: &mut [u32],
    answer: &mut [u64; 4],
) -> u32
    ensures tells { Tells (counted_reply (counted_by (hashtag_list_of image.now text.now (length words.old)))) result answer.new }
    ensures words_after { words.new ≡ hashtag_list_words image.now text.now words.old }
{
    hashtag::list(image, text, words).tell(answer)
}

// As `luffinarc_hashtags`, under an image that was checked.
#[unsafe(no_mangle)]
pub extern "C" fn luffinarc_hashtags_checked<'a>(
    image: &'a [u8],
    text: &'a [u8],
    words: &mut [u32],
    answer: &mut [u64; 4],
) -> u32
    requires { refusal_of image.now ≡ none }
    ensures tells { Tells (counted_reply (counted_by (hashtag_list_of image.now text.now (length words.old)))) result answer.new }
    ensures words_after { words.new ≡ hashtag_list_words image.now text.now words.old }
{
    let image = ClassImage::of_accepted(image);
    hashtag::list_checked(&image, text, words).tell(answer)
}

// Hands back the part of a text from `start` to `end`. Answer: its first byte and its number of bytes.
#[unsafe(no_mangle)]
pub extern "C" fn luffinarc_part(
    text: &[u8],
    start: usize,
    end: usize,
    answer: &mut [u64; 4],
) -> u32
    ensures tells { Tells (part_reply (part_of text.now start end) start) result answer.new }
    ensures answer_after { told_part text.now answer.new ≡ part_bytes text.now start end }
{
    reply::tell_part(text, start, end, answer)
}
