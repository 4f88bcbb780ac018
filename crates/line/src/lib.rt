// The lines of a text: where they end, by code points.
#![tactic(auto)]

ghost use Rattle.std.specs.Prelude.{◌≡◌, ◌<◌, length};
ghost use Rattle.utf8.specs.Text.{characters_at};
ghost use Rattle.line.specs.Line.{is_line_end, feed_first, ends_line, one};
ghost use Rattle.line.specs.Ends.{end_of, end_at};

pub const LINE_FEED: u32 = 0x0A;

pub const CARRIAGE_RETURN: u32 = 0x0D;

const NEXT_LINE: u32 = 0x85;

const LINE_SEPARATOR: u32 = 0x2028;

const PARAGRAPH_SEPARATOR: u32 = 0x2029;

// Their first bytes.
const FEED_BYTE: usize = LINE_FEED as usize;

const RETURN_BYTE: usize = CARRIAGE_RETURN as usize;

const FIRST_OF_TWO: usize = 0xC2;

const FIRST_OF_THREE: usize = 0xE2;

// What a first byte tells where the code point is to be looked at: more than some bytes that tell of a line end add up to.
pub const LOOK: u8 = 8;

// Whether a code point ends a line.
pub fn is_line_end(code: u32) -> bool
    ensures { result ≡ is_line_end code }
{
    matches!(
        code,
        LINE_FEED..=CARRIAGE_RETURN | NEXT_LINE | LINE_SEPARATOR | PARAGRAPH_SEPARATOR
    )
}

// Whether LINE FEED stands at a place.
fn is_feed_at(text: &[u8], at: usize) -> bool
    ensures { result ≡ feed_first (characters_at text.now at) }
{
    at < text.len() && text[at] == LINE_FEED as u8
}

// 1 where a line ends with a code point that the text from `next` on follows, else 0.
pub fn count_end(text: &[u8], code: u32, next: usize) -> u32
    ensures { result ≡ one (ends_line code (characters_at text.now next)) }
{
    if code == CARRIAGE_RETURN && is_feed_at(text, next) {
        return 0; // the line ends with the LINE FEED
    }
    is_line_end(code) as u32
}

// What the first byte of a character tells: no line ends with it, 0; one does, 1; else LOOK.
#[tactic(auto, unfolding(crate::specs::Ends::end_of))]
pub fn tell_end(b: usize) -> u8
    ensures { result ≡ end_of b }
{
    match b {
        FEED_BYTE..RETURN_BYTE => 1,
        RETURN_BYTE | FIRST_OF_TWO | FIRST_OF_THREE => LOOK,
        _ => 0,
    }
}

// The same of the character at a place; 0 where there is none.
pub fn count_at(text: &[u8], at: usize) -> u32
    requires { at < length text.now }
    ensures { result ≡ end_at text.now at }
{
    let packed = utf8::decode_packed(text, at);
    let len = packed % 8;
    if len == 0 {
        return 0;
    }
    count_end(text, (packed / 8) as u32, at + len)
}
