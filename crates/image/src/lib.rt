// Class images: checking an image, and reading its ranges and its profile.
#![tactic(auto)]

ghost use Rattle.std.specs.Prelude.{◌≡◌, true, not, ◌&&◌, ℕ, ◌+◌, ◌*◌, ◌≤◌, eqb, length};
ghost use Rattle.std.proofs.Math.Option.{none};
ghost use Rattle.lists.specs.Laid.{laid};
ghost use Rattle.lists.specs.Each.{each};
ghost use Rattle.image.specs.Word.{word_at};
ghost use Rattle.image.specs.Limits.{max_ranges, max_entries, word_bytes, header_bytes, range_bytes, words_per_range};
ghost use Rattle.image.specs.Header.{total_of, range_offset, entry_offset, entries_at, image_end, length_right, header_right};
ghost use Rattle.image.specs.Ranges.{range_at, range_words};
ghost use Rattle.image.specs.Profile.{profile_of};
ghost use Rattle.image.specs.Check.{refusal_of, accepted_of, refused_by, check_of, read_of, words_after};
ghost use Rattle.image.specs.Opened.{opened_by, summary_of};

use order::{ImageEntries, ImageRanges, Records, first_bad};
use refusal::Refusal;
use std::marker::Model;

pub mod order;
pub mod records;

// The most ranges and profile entries that an image may have.
pub const MAX_RANGES: usize = 4096;

pub const MAX_ENTRIES: usize = 512;

// The bytes of a number, of the header, of a range and of a profile entry, and the words of a range.
pub const WORD_BYTES: usize = 4;

pub const HEADER_BYTES: usize = 32;

pub const RANGE_BYTES: usize = 12;

pub const ENTRY_BYTES: usize = 8;

pub const RANGE_WORDS: usize = 3;

// The most bytes that an image may have.
pub const MAX_IMAGE: usize = HEADER_BYTES + RANGE_BYTES * MAX_RANGES + ENTRY_BYTES * MAX_ENTRIES;

// The one format, and the byte places of the header's numbers.
pub const FORMAT: u32 = 1;

pub const FORMAT_AT: usize = 0;

pub const VERSION_AT: usize = 4;

pub const TOTAL_AT: usize = 8;

pub const RANGE_COUNT_AT: usize = 12;

pub const RANGE_OFFSET_AT: usize = 16;

pub const ENTRY_COUNT_AT: usize = 20;

pub const ENTRY_OFFSET_AT: usize = 24;

pub const ZERO_AT: usize = 28;

// Where the later numbers of a range stand, and the role of an entry, counted from the record's first byte.
const LAST_AT: usize = 4;

const CLASS_AT: usize = 8;

pub const ROLE_AT: usize = 4;

// The classes by their numbers. A code point in no range is unassigned. Numbers and no enum, since the bytes of an image may hold any, and the
// definitions (`class_of`, `lookup_of`, `list_words`) and C speak of numbers.
pub const UNASSIGNED: u32 = 0;

pub const START: u32 = 1;

pub const NONSTART: u32 = 2;

pub const SYNTAX: u32 = 3;

pub const WHITE: u32 = 4;

pub const OTHER: u32 = 5;

// The first role and the last.
const FIRST_ROLE: u32 = 1;

const LAST_ROLE: u32 = 5;

// The last code point, and the surrogates.
pub const LAST_CODE_POINT: u32 = 0x10FFFF;

const FIRST_SURROGATE: u32 = 0xD800;

const LAST_SURROGATE: u32 = 0xDFFF;

// Code points from `first` to `last` with one class.
#[derive(Clone, Copy, Debug, PartialEq, Eq)]
pub struct Range {
    pub first: u32,
    pub last: u32,
    pub class: u32,
}

// A checked profile: the first `used` entries of each array. Entries past them read as zero. Arrays with a length beside: a project form
// (docs/DECISIONS.md, "Forms"), in fixed memory, and `profile_of` says so.
#[derive(Drop)]
pub struct Profile {
    pub points: [u32; MAX_ENTRIES],
    pub roles: [u32; MAX_ENTRIES],
    pub used: usize,
}

// What the header of an accepted image tells.
#[derive(Clone, Copy, Debug, PartialEq, Eq)]
pub struct Summary {
    pub version: u32,
    pub ranges: usize,
}

// An answer, and the profile of an accepted image; beside a refusal an empty one, as `refused_by` promises.
#[derive(Drop)]
pub struct Checked {
    pub answer: Result<Summary, Refusal>,
    pub profile: Profile,
}

// The bytes of an image that was accepted. Contracts see the bytes.
#[derive(Drop)]
pub struct ClassImage<'a> {
    bytes: &'a [u8],
}

impl<'a> Model for ClassImage<'a> {
    ghost use Rattle.std.specs.Prelude.{◌≡◌, List, ℕ};
    ghost use Rattle.std.proofs.Math.Option.{none};
    ghost use Rattle.image.specs.Check.{refusal_of};

    ghost Value = { List ℕ };

    ghost view = { λ s. s.bytes.now };

    ghost invariant = { λ s. refusal_of s.bytes.now ≡ none };
}

impl<'a> ClassImage<'a> {
    // The image of these bytes, or why not: refusals 1 to 4.
    pub fn open(bytes: &'a [u8]) -> Result<ClassImage<'a>, Refusal>
        ensures { result ≡ opened_by bytes.now (refusal_of bytes.now) }
    {
        let _summary = judge(bytes)?;
        Ok(ClassImage { bytes })
    }

    // The image of bytes that were accepted before.
    pub fn of_accepted(bytes: &'a [u8]) -> ClassImage<'a>
        requires { refusal_of bytes.now ≡ none }
        ensures { result ≡ bytes.now }
    {
        ClassImage { bytes }
    }

    pub fn bytes(&self) -> &'a [u8]
        ensures bytes { result.now ≡ self.now }
        ensures accepted { refusal_of self.now ≡ none }
    {
        self.bytes // all of them
    }

    // Writes the profile into two arrays, with zeros past its entries, and gives their number.
    pub fn put_profile(
        &self,
        points: &mut [u32; MAX_ENTRIES],
        roles: &mut [u32; MAX_ENTRIES],
    ) -> usize
        ensures value { result ≡ (profile_of self.now).used }
        ensures points_after { points.new ≡ (profile_of self.now).points }
        ensures roles_after { roles.new ≡ (profile_of self.now).roles }
    {
        let entries = ImageEntries::of(self.bytes);
        *points = [0u32; MAX_ENTRIES];
        *roles = [0u32; MAX_ENTRIES];
        for i in 0..entries.count {
            let entry = entries.get(i);
            points[i] = entry.point;
            roles[i] = entry.role;
        }
        entries.count
    }

    // Tells a proof that the image is accepted. It does nothing.
    pub fn recall(&self)
        ensures { refusal_of self.now ≡ none }
    {
        let _ = &self.bytes;
    }

    // What the header tells.
    pub fn summary(&self) -> Summary
        ensures { result ≡ summary_of self.now }
    {
        Summary {
            version: word(self.bytes, VERSION_AT),
            ranges: word(self.bytes, RANGE_COUNT_AT) as usize,
        }
    }
}

// The number at byte i.
#[tactic(auto, unfolding(crate::specs::Word::word_at))]
pub fn word(s: &[u8], i: usize) -> u32
    requires { i + word_bytes ≤ length s.now }
    ensures { result ≡ word_at s.now i }
{
    u32::from_le_bytes([s[i], s[i + 1], s[i + 2], s[i + 3]])
}

// Range i of an image.
#[tactic(auto, unfolding(crate::specs::Ranges::range_at))]
pub fn range_at(s: &[u8], i: usize) -> Range
    requires { header_bytes + range_bytes * i + range_bytes ≤ length s.now }
    ensures { result ≡ range_at s.now i }
{
    let at = HEADER_BYTES + RANGE_BYTES * i;
    Range {
        first: word(s, at),
        last: word(s, at + LAST_AT),
        class: word(s, at + CLASS_AT),
    }
}

// Whether the length is within its limits and that of the header: not refusal 1.
#[tactic(auto, unfolding(crate::specs::Header::length_within))]
fn is_length_right(image: &[u8]) -> bool
    ensures { result ≡ length_right image.now }
{
    (HEADER_BYTES..=MAX_IMAGE).contains(&image.len())
        && word(image, TOTAL_AT) as usize == image.len()
}

// Whether the offsets and the total length are those of n ranges and m entries.
fn are_offsets_right(image: &[u8], n: usize, m: usize) -> bool
    requires { (header_bytes ≤ length image.now) × (n ≤ max_ranges) × (m ≤ max_entries) }
    ensures { result ≡ (eqb (range_offset image.now) header_bytes && (eqb (entry_offset image.now) (entries_at n) && eqb (total_of image.now) (image_end n m))) }
{
    let entries = HEADER_BYTES + RANGE_BYTES * n;
    word(image, RANGE_OFFSET_AT) as usize == HEADER_BYTES
        && word(image, ENTRY_OFFSET_AT) as usize == entries
        && word(image, TOTAL_AT) as usize == entries + ENTRY_BYTES * m
}

// Whether the header is right: not refusal 2. The counts are compared with their limits before they are multiplied.
#[tactic(auto, unfolding(crate::specs::Header::header_within))]
fn is_header_right(image: &[u8]) -> bool
    requires { header_bytes ≤ length image.now }
    ensures { result ≡ header_right image.now }
{
    let n = word(image, RANGE_COUNT_AT) as usize;
    let m = word(image, ENTRY_COUNT_AT) as usize;
    word(image, FORMAT_AT) == FORMAT
        && word(image, ZERO_AT) == 0
        && n <= MAX_RANGES
        && m <= MAX_ENTRIES
        && are_offsets_right(image, n, m)
}

// The answer of a refusal, with an empty profile.
fn refuse(r: Refusal) -> Checked
    ensures { result ≡ refused_by r }
{
    Checked {
        answer: Err(r),
        profile: Profile {
            points: [0u32; MAX_ENTRIES],
            roles: [0u32; MAX_ENTRIES],
            used: 0,
        },
    }
}

// The answer for an accepted image, with its profile.
fn accept(image: &ClassImage) -> Checked
    ensures { result ≡ accepted_of image.now }
{
    let mut points = [0u32; MAX_ENTRIES];
    let mut roles = [0u32; MAX_ENTRIES];
    let used = image.put_profile(&mut points, &mut roles);
    Checked {
        answer: Ok(image.summary()),
        profile: Profile {
            points,
            roles,
            used,
        },
    }
}

// Checks the ranges and the profile of an image whose length and header are right.
fn judge_records(image: &[u8]) -> Result<Summary, Refusal>
    requires { (length_right image.now ≡ true) × (header_right image.now ≡ true) }
    ensures { result ≡ (check_of image.now).answer }
{
    let n = word(image, RANGE_COUNT_AT) as usize;
    if let Some(i) = first_bad(&ImageRanges { image, count: n }) {
        return Err(Refusal::Range(i));
    }
    if let Some(j) = first_bad(&ImageEntries::of(image)) {
        return Err(Refusal::Entry(j));
    }
    Ok(Summary {
        version: word(image, VERSION_AT),
        ranges: n,
    })
}

// The answer of the check, without the profile.
pub fn judge(image: &[u8]) -> Result<Summary, Refusal>
    ensures { result ≡ (check_of image.now).answer }
{
    if !is_length_right(image) {
        return Err(Refusal::Length);
    }
    if !is_header_right(image) {
        return Err(Refusal::Header);
    }
    judge_records(image)
}

// Checks an image and reads its profile.
pub fn check(image: &[u8]) -> Checked
    ensures { result ≡ check_of image.now }
{
    match ClassImage::open(image) {
        Err(r) => refuse(r),
        Ok(image) => accept(&image),
    }
}

// Writes one range, three words, at the front of a buffer.
fn put_range(out: &mut [u32], r: Range)
    requires { words_per_range ≤ length out.old }
    ensures { out.new ≡ laid out.old 0 (range_words r) }
{
    out[..RANGE_WORDS].copy_from_slice(&[r.first, r.last, r.class]);
}

// Writes the n ranges of an image at the front of a buffer.
fn write_ranges(image: &[u8], n: usize, out: &mut [u32])
    requires { (entries_at n ≤ length image.now) × (words_per_range * n ≤ length out.old) }
    ensures { out.new ≡ laid out.old 0 (each (λ (i : ℕ). range_words (range_at image.now i)) n) }
{
    for i in 0..n {
        put_range(&mut out[RANGE_WORDS * i..], range_at(image, i));
    }
}

// Checks an image and reads its ranges into a buffer. A refused call leaves the buffer as it was.
pub fn read_ranges(image: &[u8], out: &mut [u32]) -> Result<Summary, Refusal>
    ensures value { result ≡ (read_of image.now (length out.old)).answer }
    ensures out_after { out.new ≡ words_after image.now out.old }
{
    let summary = judge(image)?;
    if out.len() / RANGE_WORDS < summary.ranges {
        return Err(Refusal::Room(summary.ranges));
    }
    write_ranges(image, summary.ranges, out);
    Ok(summary)
}

// As `read_ranges`, and reads the profile.
pub fn read(image: &[u8], out: &mut [u32]) -> Checked
    ensures { (result ≡ read_of image.now (length out.old)) × (out.new ≡ words_after image.now out.old) }
{
    match read_ranges(image, out) {
        Err(r) => refuse(r),
        Ok(_) => accept(&ClassImage::of_accepted(image)),
    }
}
