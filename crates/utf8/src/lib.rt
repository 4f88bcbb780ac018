// UTF-8 of the Unicode Standard, Table 3-7: the sequence at the head of a text, and the first ill-formed place.
#![tactic(auto)]

ghost use Rattle.std.specs.Prelude.{◌≡◌, ◌+◌, ◌*◌, ◌%◌, ◌≤◌, ◌<◌, length, drop};
ghost use Rattle.utf8.specs.Scalar.{is_scalar};
ghost use Rattle.utf8.specs.Table.{◌to◌, inside};
ghost use Rattle.utf8.specs.Subpart.{subpart_of};
ghost use Rattle.utf8.specs.Head.{step_of, IllHead};
ghost use Rattle.utf8.specs.Lead.{lead_after, lead_of, whole_length, byte_fits, packed, length_of, is_trail, known_length};
ghost use Rattle.utf8.specs.Text.{text_of};

// The lowest and the highest of a range of bytes, both in it.
#[derive(Clone, Copy, Debug, PartialEq, Eq)]
struct Bounds {
    low: u8,
    high: u8,
}

// What a first byte decides: the length of the sequence (0, as the definition `lead_of` has it: it begins none), and the range of the second,
// third and fourth byte. Where the sequence has no such byte the range is ANY, and nothing looks at it.
#[derive(Clone, Copy, Debug, PartialEq, Eq)]
struct Lead {
    len: u8,
    second: Bounds,
    third: Bounds,
    fourth: Bounds,
}

const ANY: Bounds = Bounds {
    low: 0x80,
    high: 0xBF,
};

// What stands at the head of a slice. An enum of its own, since there are three answers.
#[derive(Clone, Copy, Debug, PartialEq, Eq)]
pub enum Step {
    // A well-formed sequence of `len` bytes, and its code point.
    Scalar { code: u32, len: usize },
    // Bytes that begin no well-formed sequence, and the length of the maximal subpart there.
    IllFormed { len: usize },
    // Nothing.
    End,
}

// The first place of a text at which no well-formed sequence begins, and the length of the maximal subpart there.
#[derive(Clone, Copy, Debug, PartialEq, Eq)]
pub struct IllFormed {
    pub place: usize,
    pub len: usize,
}

// Whether a number is a Unicode scalar value.
#[tactic(auto, unfolding(crate::specs::Scalar::is_scalar))]
pub fn is_scalar(x: u32) -> bool
    ensures { result ≡ is_scalar x }
{
    matches!(x, 0..=0xD7FF | 0xE000..=0x10FFFF)
}

impl Bounds {
    // Whether a byte is in the range.
    fn has(self, b: u8) -> bool
        ensures { result ≡ inside self b }
    {
        (self.low..=self.high).contains(&b)
    }
}

// The range from one byte to another.
fn to(low: u8, high: u8) -> Bounds
    ensures { result ≡ low to high }
{
    Bounds { low, high }
}

// What is decided by a first byte that these ranges follow.
fn row<const N: usize>(trail: [Bounds; N]) -> Lead
    requires { N ≤ 3 }
    ensures { result ≡ lead_after trail.entry }
{
    Lead {
        len: N as u8 + 1,
        second: trail.get(0).copied().unwrap_or(ANY),
        third: trail.get(1).copied().unwrap_or(ANY),
        fourth: trail.get(2).copied().unwrap_or(ANY),
    }
}

// Table 3-7, row by row: the first byte, and the lowest and highest of the second, third and fourth.
fn read_lead(b: u8) -> Lead
    ensures { result ≡ lead_of b }
{
    match b {
        0x00..=0x7F => row([]),
        0xC2..=0xDF => row([to(0x80, 0xBF)]),
        0xE0 => row([to(0xA0, 0xBF), to(0x80, 0xBF)]),
        0xE1..=0xEC => row([to(0x80, 0xBF), to(0x80, 0xBF)]),
        0xED => row([to(0x80, 0x9F), to(0x80, 0xBF)]),
        0xEE..=0xEF => row([to(0x80, 0xBF), to(0x80, 0xBF)]),
        0xF0 => row([to(0x90, 0xBF), to(0x80, 0xBF), to(0x80, 0xBF)]),
        0xF1..=0xF3 => row([to(0x80, 0xBF), to(0x80, 0xBF), to(0x80, 0xBF)]),
        0xF4 => row([to(0x80, 0x8F), to(0x80, 0xBF), to(0x80, 0xBF)]),
        _ => Lead { len: 0, ..row([]) },
    }
}

// The bits of a byte after the first (Table 3-6), behind those before them.
fn join(code: usize, b: u8) -> usize
    requires { code < 0x10000 }
    ensures { result ≡ code * 64 + b % 64 }
{
    code * 64 + b as usize % 64
}

// Whether byte `i` of `s` is there and in the range.
#[tactic(auto, unfolding(crate::specs::Lead::byte_fits))]
fn fits(s: &[u8], i: usize, range: Bounds) -> bool
    ensures { result ≡ byte_fits range s.now i }
{
    i < s.len() && range.has(s[i])
}

// The sequence at the head of `s` as one number; 0 where none begins.
fn pack(s: &[u8]) -> usize
    ensures { result ≡ packed (step_of s.now) }
{
    if s.is_empty() {
        return 0;
    }
    let lead = read_lead(s[0]);
    let a = s[0] as usize;
    if lead.len == 0 {
        return 0;
    }
    if lead.len == 1 {
        return a * 8 + 1;
    }
    if !fits(s, 1, lead.second) {
        return 0;
    }
    let b = s[1];
    if lead.len == 2 {
        return join(a % 32, b) * 8 + 2;
    }
    if !fits(s, 2, lead.third) {
        return 0;
    }
    let c = s[2];
    if lead.len == 3 {
        return join(join(a % 16, b), c) * 8 + 3;
    }
    if !fits(s, 3, lead.fourth) {
        return 0;
    }
    join(join(join(a % 8, b), c), s[3]) * 8 + 4
}

// The sequence at a place of `s` as one number: 8 times its code point, and its length; 0 where none begins. 0 stands for None because callers
// take the number apart as it is: of none the length and the code point are 0, and that is what they test.
pub fn decode_packed(s: &[u8], at: usize) -> usize
    requires { at ≤ length s.now }
    ensures { result ≡ packed (step_of (drop at s.now)) }
{
    pack(&s[at..])
}

// The length of a sequence at the head of `s`, with these ranges of the bytes after the first; 0 where one is missing or out of its range.
// The number of bytes is tested first, for speed.
fn measure_row<const N: usize>(s: &[u8], trail: [Bounds; N]) -> usize
    requires { (N ≤ 3) × (0 < length s.now) }
    ensures { result ≡ whole_length trail.entry s.now }
{
    if s.len() <= N {
        return 0;
    }
    for i in 0..N {
        if !fits(s, i + 1, trail[i]) {
            return 0;
        }
    }
    N + 1
}

// The length of the sequence at the head of `s`, which isn't empty; 0 where none begins. An arm for each length, for speed.
fn measure_head(s: &[u8]) -> usize
    requires { 0 < length s.now }
    ensures { result ≡ length_of (step_of s.now) }
{
    let lead = read_lead(s[0]);
    match lead.len {
        0 => 0,
        1 => 1,
        2 => measure_row(s, [lead.second]),
        3 => measure_row(s, [lead.second, lead.third]),
        _ => measure_row(s, [lead.second, lead.third, lead.fourth]),
    }
}

// The length of the sequence at a place of `s` before its end; 0 where none begins, and no None, since the definition `length_of` says 0.
pub fn measure(s: &[u8], at: usize) -> usize
    requires { at < length s.now }
    ensures { result ≡ length_of (step_of (drop at s.now)) }
{
    measure_head(&s[at..])
}

// The length of a well-formed sequence, by its first byte alone.
#[tactic(auto, unfolding(crate::specs::Lead::known_length))]
pub fn measure_known(b: u8) -> usize
    ensures { result ≡ known_length b }
{
    match b {
        ..=0x7F => 1,
        ..=0xDF => 2,
        ..=0xEF => 3,
        _ => 4,
    }
}

// Whether a byte only follows others in a sequence: in every row of Table 3-7 the last byte is one of these.
pub fn is_trail(b: u8) -> bool
    ensures { result ≡ is_trail b }
{
    matches!(b, 0x80..=0xBF)
}

// The length of the maximal subpart at the head of `s`, where no sequence begins.
fn measure_subpart(s: &[u8]) -> usize
    requires { IllHead s.now }
    ensures { result ≡ subpart_of s.now }
{
    let lead = read_lead(s[0]);
    if lead.len == 0 {
        return 1; // no row has the first byte
    }
    if !fits(s, 1, lead.second) {
        return 1;
    }
    if !fits(s, 2, lead.third) {
        return 2; // the third doesn't fit
    }
    3
}

// The sequence at the head of `s`.
pub fn decode(s: &[u8]) -> Step
    ensures { result ≡ step_of s.now }
{
    if s.is_empty() {
        return Step::End;
    }
    let d = pack(s);
    match d % 8 {
        0 => Step::IllFormed {
            len: measure_subpart(s),
        },
        len => Step::Scalar {
            code: (d / 8) as u32,
            len,
        },
    }
}

// Whether `s` is well-formed.
pub fn check_text(s: &[u8]) -> Result<(), IllFormed>
    ensures { result ≡ text_of s.now }
{
    let mut at = 0;
    // A `while`, since a step is as long as the sequence there.
    while at < s.len() {
        if s[at] < 0x80 {
            at += 1;
            continue;
        }
        let len = decode_packed(s, at) % 8;
        if len == 0 {
            return Err(IllFormed {
                place: at,
                len: measure_subpart(&s[at..]),
            });
        }
        at += len;
    }
    Ok(())
}
