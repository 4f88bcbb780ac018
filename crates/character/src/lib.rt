// The characters of a text with their classes: a table for ASCII, and a memo of the last stretch of code points.
#![tactic(auto)]

ghost use Rattle.std.specs.Prelude.{◌≡◌, List, ℕ, ◌+◌, ◌-◌, ◌/◌, ◌%◌, ◌≤◌, ◌<◌, length, ◌&&◌, leb};
ghost use Rattle.image.specs.Profile.{is_medial, is_hashtag};
ghost use Rattle.image.specs.Records.{record_at, record_count};
ghost use Rattle.image.specs.declared.records.Section.TheVariants.{Ranges, Entries};
ghost use Rattle.image.specs.Placed.{Passed, Placed};
ghost use Rattle.grammar.specs.White.{is_mark, white_of};
ghost use Rattle.lists.specs.Filled.{Filled};
ghost use Rattle.character.specs.Traits.{white_part, medial_part, hashtag_part, token_traits, traits_of};
ghost use Rattle.character.specs.Stretch.{StretchOf, WhiteStretchOf, Shared};
ghost use Rattle.character.specs.Read.{MemoOf, MemoAt, TableOf, TokenTableOf, Settled, ascii_character, ReadAs, ReadTokenAs};

use image::records::Section;
use image::{ClassImage, Range, WHITE};
use line::{CARRIAGE_RETURN, LINE_FEED};

// In traits the number of White is that of blanks, and line ends and marks have one each.
const LINE_ENDS: u32 = 6;

const MARKS: u32 = 7;

const LEFT_TO_RIGHT_MARK: u32 = 0x200E;

const RIGHT_TO_LEFT_MARK: u32 = 0x200F;

// What traits have more for a medial, and for role 5. Traits are one number, no struct: a byte of the tables, and a column of those of turns
// (docs/SPEED.md, "Traits").
const MEDIAL: u32 = 8;

pub const HASHTAG: u32 = 16;

// Code points from `first` to `last` that have the same traits: the class after the profile and kind of White, `MEDIAL` more for a
// medial, and `HASHTAG` more for role 5. No `image::Range`: traits are no class, and `MemoOf`, a promise of `no_memo`, speaks of them.
#[derive(Clone, Copy, Debug, PartialEq, Eq)]
pub struct Memo {
    pub first: u32,
    pub last: u32,
    pub traits: u32,
}

// The character at a place: its length in bytes, its code point and traits, and the memo for the next one. Length 0: ill-formed.
// No Option: `ReadAs` and `ReadTokenAs`, promises of `read` and `read_for_tokens`, speak of `len`.
#[derive(Clone, Copy, Debug, PartialEq, Eq)]
pub struct Character {
    pub len: usize,
    pub code: u32,
    pub traits: u32,
    pub memo: Memo,
}

// A memo of no code point, from 1 to 0: `MemoOf` holds of it under every image.
pub fn no_memo() -> Memo
    ensures { (s : List ℕ) → MemoOf s result }
{
    Memo {
        first: 1,
        last: 0,
        traits: 0,
    }
}

// Whether a code point is a direction mark.
fn is_mark(code: u32) -> bool
    ensures { result ≡ is_mark code }
{
    code == LEFT_TO_RIGHT_MARK || code == RIGHT_TO_LEFT_MARK
}

// What traits have for the kind of White of a code point.
fn white_part(x: u32) -> u32
    ensures { result ≡ white_part (white_of x) }
{
    if line::is_line_end(x) {
        LINE_ENDS
    } else if is_mark(x) {
        MARKS
    } else {
        WHITE
    }
}

// The code points around `x` that have its kind of White, and what traits have for it: the line ends of ASCII together, any other alone.
fn white_stretch(x: u32) -> Range
    ensures { WhiteStretchOf x result }
{
    if x <= CARRIAGE_RETURN && line::is_line_end(x) {
        Range {
            first: LINE_FEED,
            last: CARRIAGE_RETURN,
            class: LINE_ENDS,
        }
    } else {
        Range {
            first: x,
            last: x,
            class: white_part(x),
        }
    }
}

// The part of two stretches that they share, with the class of the second.
fn share(a: Range, b: Range) -> Range
    ensures { Shared a b result }
{
    Range {
        first: a.first.max(b.first),
        last: a.last.min(b.last),
        class: b.class,
    }
}

// The traits of a code point with a role, whose class after the profile is told by `part`.
fn join_traits(role: u32, part: u32) -> u32
    requires { part ≤ 7 }
    ensures { result ≡ part + medial_part (is_medial role) + hashtag_part (is_hashtag role) }
{
    if image::records::is_medial(role) {
        part + MEDIAL
    } else if image::records::is_hashtag(role) {
        part + HASHTAG
    } else {
        part
    }
}

// What the token rules know, of a code point's traits: the class, the kind of White, and whether it is a medial.
pub fn token_traits(traits: u32) -> u32
    ensures { result ≡ traits % 16 }
{
    traits % 16
}

// The first number after record i - 1 of a section, where that record ends before x.
fn gap_start(image: &ClassImage, section: Section, i: usize, x: u32) -> u32
    requires passed { Passed (record_at image.now section) (record_count image.now section) i x }
    ensures { (result ≤ x) × (0 < i → (record_at image.now section (i - 1)).last < result) }
{
    if i == 0 {
        0
    } else {
        image.record_at(section, i - 1).last + 1
    }
}

// The stretch of x in a section, of which the place of x is i.
fn stretch_at(image: &ClassImage, section: Section, i: usize, x: u32) -> Range
    requires placed { Placed (record_at image.now section) (record_count image.now section) i x }
    ensures { StretchOf image.now section x result }
{
    let last = if image.count_records(section) <= i {
        u32::MAX
    } else {
        let r = image.record_at(section, i);
        if r.first <= x {
            return r;
        }
        r.first - 1
    };
    Range {
        first: gap_start(image, section, i, x),
        last,
        class: 0,
    }
}

// The place of x in a section of an accepted image, by halving. A loop: std halves slices, and the records are no slice.
fn place_of(image: &ClassImage, section: Section, x: u32) -> usize
    ensures { Placed (record_at image.now section) (record_count image.now section) result x }
{
    let mut lo = 0;
    let mut hi = image.count_records(section);
    while lo < hi {
        let mid = (lo + hi) / 2;
        let r = image.record_at(section, mid);
        if r.last < x {
            lo = mid + 1;
        } else {
            hi = mid;
        }
    }
    lo
}

// The place of x in a section, from one on that x has passed.
fn next_place(image: &ClassImage, section: Section, from: usize, x: u32) -> usize
    requires passed { Passed (record_at image.now section) (record_count image.now section) from x }
    ensures { Placed (record_at image.now section) (record_count image.now section) result x }
{
    let count = image.count_records(section);
    (from..count)
        .find(|i| x <= image.record_at(section, *i).last)
        .unwrap_or(count)
}

// The stretch of x in a section of an accepted image.
fn find_stretch(image: &ClassImage, section: Section, x: u32) -> Range
    ensures { StretchOf image.now section x result }
{
    let i = place_of(image, section, x);
    stretch_at(image, section, i, x)
}

// The code points around `x` that have its class in the ranges, its role and, where it is White after the profile, its kind of White: what
// its stretches of both sections share.
fn memo_of(image: &ClassImage, class: Range, role: Range, x: u32) -> Memo
    requires stretch_of { StretchOf image.now Ranges x class }
    requires stretch_of_2 { StretchOf image.now Entries x role }
    ensures { MemoAt image.now x result }
{
    image.recall();
    let both = share(class, role);
    let after = image::records::after_role(role.class, class.class);
    let part = if after == WHITE {
        share(both, white_stretch(x))
    } else {
        Range {
            class: after,
            ..both
        }
    };
    Memo {
        first: part.first,
        last: part.last,
        traits: join_traits(role.class, part.class),
    }
}

// The same by a search for both stretches.
fn search(image: &ClassImage, x: u32) -> Memo
    ensures { MemoAt image.now x result }
{
    let class = find_stretch(image, Section::Ranges, x);
    let role = find_stretch(image, Section::Entries, x);
    memo_of(image, class, role, x)
}

// Whether `x` is in the memo.
fn is_known(memo: Memo, x: u32) -> bool
    ensures { result ≡ (leb memo.first x && leb x memo.last) }
{
    (memo.first..=memo.last).contains(&x)
}

// A place that `x` has passed in a section: the first one for 0, without a search.
fn passed_place(image: &ClassImage, section: Section, x: u32) -> usize
    ensures { Passed (record_at image.now section) (record_count image.now section) result x }
{
    if x == 0 {
        0
    } else {
        place_of(image, section, x)
    }
}

// The traits of the code points from `base` on, as many as `out` has room for: a search in each section, then a walk from stretch to stretch.
pub fn fill_part(image: &ClassImage, base: u32, out: &mut [u8])
    requires out_bound { base + length out.old ≤ 0x110000 }
    ensures { Filled (length out.old) (λ (j : ℕ). traits_of image.now (base + j)) out.new (length out.old) }
{
    image.recall();
    let mut range = passed_place(image, Section::Ranges, base);
    let mut entry = passed_place(image, Section::Entries, base);
    let mut memo = no_memo();
    for (i, cell) in out.iter_mut().enumerate() {
        let x = base + i as u32;
        if !is_known(memo, x) {
            range = next_place(image, Section::Ranges, range, x);
            entry = next_place(image, Section::Entries, entry, x);
            let class = stretch_at(image, Section::Ranges, range, x);
            let role = stretch_at(image, Section::Entries, entry, x);
            memo = memo_of(image, class, role, x);
        }
        *cell = memo.traits as u8;
    }
}

// The traits of the ASCII code points.
pub fn fill_table(image: &ClassImage) -> [u8; 128]
    ensures { TableOf image.now result }
{
    let mut table = [0u8; 128];
    fill_part(image, 0, &mut table);
    table
}

// What the token rules know of the code points from `base` on, as many as `out` has room for, each with `tag` more.
pub fn fill_cells(image: &ClassImage, base: u32, tag: u8, out: &mut [u8])
    requires out_bound { base + length out.old ≤ 0x110000 }
    requires tag_bound { tag ≤ 64 }
    ensures { Filled (length out.old) (λ (j : ℕ). tag + token_traits image.now (base + j)) out.new (length out.old) }
{
    image.recall();
    fill_part(image, base, out);
    for cell in out.iter_mut() {
        *cell = tag + *cell % 16;
    }
}

// The character of a packed sequence: 8 times its code point, and its length.
fn settle(image: &ClassImage, memo: Memo, packed: usize) -> Character
    requires memo_of { MemoOf image.now memo }
    requires packed_bound { packed / 8 < 0x110000 }
    ensures { Settled image.now packed result }
{
    let code = (packed / 8) as u32;
    let memo = if is_known(memo, code) {
        memo
    } else {
        search(image, code)
    };
    Character {
        len: packed % 8,
        code,
        traits: memo.traits,
        memo,
    }
}

// The character of `text` at a place before its end, by decoding it.
pub fn read_decoded(image: &ClassImage, memo: Memo, text: &[u8], at: usize) -> Character
    requires memo_of { MemoOf image.now memo }
    requires at_in_bounds { at < length text.now }
    ensures { ReadAs image.now text.now at result }
{
    let packed = utf8::decode_packed(text, at);
    settle(image, memo, packed)
}

// The character of an ASCII byte with these traits.
fn ascii(b: u8, traits: u8, memo: Memo) -> Character
    ensures { result ≡ ascii_character b traits memo }
{
    Character {
        len: 1,
        code: b as u32,
        traits: traits as u32,
        memo,
    }
}

// The character of `text` at a place before its end: ASCII by the table.
pub fn read(image: &ClassImage, table: &[u8; 128], memo: Memo, text: &[u8], at: usize) -> Character
    requires table_of { TableOf image.now table.now }
    requires memo_of { MemoOf image.now memo }
    requires at_in_bounds { at < length text.now }
    ensures { ReadAs image.now text.now at result }
{
    let b = text[at];
    if b < 0x80 {
        ascii(b, table[b as usize], memo)
    } else {
        read_decoded(image, memo, text, at)
    }
}

// The same with what the token rules know in place of all traits. The table holds just that: no mask costs time where a text is ASCII.
pub fn read_for_tokens(
    image: &ClassImage,
    table: &[u8],
    memo: Memo,
    text: &[u8],
    at: usize,
) -> Character
    requires token_table_of { TokenTableOf image.now table.now }
    requires memo_of { MemoOf image.now memo }
    requires at_in_bounds { at < length text.now }
    ensures { ReadTokenAs image.now text.now at result }
{
    image.recall();
    let b = text[at];
    if b < 0x80 {
        return ascii(b, table[b as usize], memo);
    }
    let c = read_decoded(image, memo, text, at);
    Character {
        traits: token_traits(c.traits),
        ..c
    }
}
