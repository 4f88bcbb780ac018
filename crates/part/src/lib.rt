// A token's bytes, handed back as that part of the caller's own text.
#![tactic(auto)]

ghost use Rattle.std.specs.Prelude.{◌≡◌};
ghost use Rattle.part.specs.Part.{part_of, part_bytes, outcome_by};

use refusal::Refusal;

// The part of a text from `start` to `end`; `Shape` where the start is after the end or the end past the text's end.
pub fn part_of(text: &[u8], start: usize, end: usize) -> Result<&[u8], Refusal>
    ensures { outcome_by result ≡ part_of text.now start end }
{
    text.get(start..end).ok_or(Refusal::Shape)
}

// The part; the empty part where that is refused.
pub fn bytes(text: &[u8], start: usize, end: usize) -> &[u8]
    ensures { result.now ≡ part_bytes text.now start end }
{
    match part_of(text, start, end) {
        Ok(part) => part,
        Err(_) => &text[..0],
    }
}
