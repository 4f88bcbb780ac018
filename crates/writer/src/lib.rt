// Writing a class image.
#![tactic(auto)]

ghost use Rattle.std.specs.Prelude.{◌≡◌, ◌+◌, ◌*◌, ◌%◌, ◌≤◌, ◌<◌, length};
ghost use Rattle.lists.specs.Laid.{laid};
ghost use Rattle.lists.specs.Each.{each};
ghost use Rattle.image.specs.Word.{bytes_of};
ghost use Rattle.image.specs.Limits.{max_ranges, word_bytes, entry_bytes, words_per_range};
ghost use Rattle.image.specs.Ranges.{range_in};
ghost use Rattle.image.specs.Profile.{profile_by};
ghost use Rattle.image.specs.Header.{image_end};
ghost use Rattle.image.specs.Image.{entry_words, bytes_of_all, image_of};
ghost use Rattle.writer.specs.Write.{ranges_in, write_of, bytes_after};

use image::order::first_bad;
use image::{
    ENTRY_BYTES, FORMAT, HEADER_BYTES, MAX_ENTRIES, MAX_RANGES, Profile, RANGE_BYTES, RANGE_WORDS,
    WORD_BYTES,
};
use parts::{Entries, WordRanges};
use refusal::Refusal;

mod parts;

// Writes a number's four bytes at the front of `out`.
#[tactic(auto, unfolding(image::specs::Word::bytes_of))]
fn put_word(out: &mut [u8], w: u32)
    requires { word_bytes ≤ length out.old }
    ensures { out.new ≡ laid out.old 0 (bytes_of w) }
{
    out[..WORD_BYTES].copy_from_slice(&w.to_le_bytes());
}

// Writes the bytes of numbers, one after the other, at the front of `out`.
fn put_words(out: &mut [u8], words: &[u32])
    requires { word_bytes * length words.now ≤ length out.old }
    ensures { out.new ≡ laid out.old 0 (bytes_of_all words.now) }
{
    for (i, w) in words.iter().enumerate() {
        put_word(&mut out[WORD_BYTES * i..], *w);
    }
}

// Writes the bytes of profile entries at the front of `out`.
fn put_entries(out: &mut [u8], entries: &Entries)
    requires { entry_bytes * entries.now.used ≤ length out.old }
    ensures { out.new ≡ laid out.old 0 (bytes_of_all (each (entry_words (profile_by entries.now.points.now entries.now.roles.now entries.now.used)) entries.now.used)) }
{
    for i in 0..entries.used {
        let entry = [entries.points[i], entries.roles[i]];
        put_words(&mut out[ENTRY_BYTES * i..], &entry);
    }
}

// Writes the image with these ranges and these profile entries at the front of `out`.
fn put_image(version: u32, words: &[u32], entries: &Entries, out: &mut [u8])
    requires { (length words.now % words_per_range ≡ 0) × (ranges_in words.now ≤ max_ranges) × (image_end (ranges_in words.now) entries.now.used ≤ length out.old) }
    ensures { out.new ≡ laid out.old 0 (image_of version (range_in words.now) (ranges_in words.now) (profile_by entries.now.points.now entries.now.roles.now entries.now.used)) }
{
    let n = words.len() / RANGE_WORDS;
    let at = HEADER_BYTES + RANGE_BYTES * n;
    let end = at + ENTRY_BYTES * entries.used;
    let head = [
        FORMAT,
        version,
        end as u32,
        n as u32,
        HEADER_BYTES as u32,
        entries.used as u32,
        at as u32,
        0,
    ];
    put_words(out, &head);
    put_words(&mut out[HEADER_BYTES..], words);
    put_entries(&mut out[at..], entries);
}

// The bytes of the image, or the refusal, for a buffer of `room` bytes.
fn judge_parts<'a>(
    words: &[u32],
    points: &'a [u32; MAX_ENTRIES],
    roles: &'a [u32; MAX_ENTRIES],
    used: usize,
    room: usize,
) -> Result<usize, Refusal>
    ensures { result ≡ write_of words.now (profile_by points.now roles.now used) room }
{
    if words.len() % RANGE_WORDS != 0 {
        return Err(Refusal::Shape);
    }
    let n = words.len() / RANGE_WORDS;
    if MAX_RANGES < n || MAX_ENTRIES < used {
        return Err(Refusal::Header);
    }
    if let Some(i) = first_bad(&WordRanges { words }) {
        return Err(Refusal::Range(i));
    }
    let len = HEADER_BYTES + RANGE_BYTES * n + ENTRY_BYTES * used;
    let entries = Entries {
        points,
        roles,
        used,
    };
    if let Some(j) = first_bad(&entries) {
        return Err(Refusal::Entry(j));
    }
    if room < len {
        return Err(Refusal::Buffer(len));
    }
    Ok(len)
}

// Writes the image with this version, these ranges and the first `used` profile entries at the front of `out`, or leaves
// `out` as it was.
pub fn write_arrays<'a>(
    version: u32,
    words: &[u32],
    points: &'a [u32; MAX_ENTRIES],
    roles: &'a [u32; MAX_ENTRIES],
    used: usize,
    out: &mut [u8],
) -> Result<usize, Refusal>
    ensures { (result ≡ write_of words.now (profile_by points.now roles.now used) (length out.old)) × (out.new ≡ bytes_after version words.now (profile_by points.now roles.now used) out.old) }
{
    let len = judge_parts(words, points, roles, used, out.len())?;
    let entries = Entries {
        points,
        roles,
        used,
    };
    put_image(version, words, &entries, out);
    Ok(len)
}

// As `write_arrays`, of a profile record.
pub fn write(
    version: u32,
    words: &[u32],
    profile: Profile,
    out: &mut [u8],
) -> Result<usize, Refusal>
    ensures { (result ≡ write_of words.now profile (length out.old)) × (out.new ≡ bytes_after version words.now profile out.old) }
{
    write_arrays(
        version,
        words,
        &profile.points,
        &profile.roles,
        profile.used,
        out,
    )
}
