// The one-pass reader of tokens under a checked image: its turns, and the first token; `count` counts them, `write` writes them. Each goes
// through the text by one step: the state and the next character give the turn.
#![tactic(auto)]

ghost use Rattle.std.specs.Prelude.{◌≡◌, ◌<◌};
ghost use Rattle.character.specs.Read.{TokenTableOf};
ghost use Rattle.turns.specs.Turns.{states, waiting_of, turn_of, after_of};
ghost use Rattle.turns.specs.First.{first_of, pending_first};

use image::ClassImage;

// The state of a reader: nothing yet; a token of this kind, 1 to 5; an identifier with a medial after it that waits for the next character:
// WAITING, and the kind of token that the medial itself begins. States and turns are numbers, no enums: they are rows of TURNS and what it
// holds, as `find_turn` and `state_after` promise.
const NOTHING: u32 = 0;

const IDENTIFIER: u32 = 1;

pub const WAITING: u32 = 6;

// What a character does, by the state and its traits. No token is complete, since the one under way goes on or the first begins: GOES_ON.
// The one under way is complete, and another begins: 1. A medial waits: WAITS. The one that waits is settled, and the character has
// another turn after that: SETTLES. No token begins: any other.
pub static TURNS: [u8; 192] = *b"\
\x04\x00\x04\x00\x00\x04\x00\x00\x04\x00\x04\x00\x00\x04\x00\x00\
\x04\x00\x00\x01\x01\x04\x01\x01\x02\x00\x00\x02\x02\x02\x02\x02\
\x04\x01\x04\x01\x01\x04\x01\x01\x04\x01\x04\x01\x01\x04\x01\x01\
\x04\x01\x04\x01\x00\x04\x01\x01\x04\x01\x04\x01\x00\x04\x01\x01\
\x04\x01\x04\x01\x01\x04\x00\x01\x04\x01\x04\x01\x01\x04\x00\x01\
\x04\x01\x04\x01\x01\x04\x01\x00\x04\x01\x04\x01\x01\x04\x01\x00\
\x03\x00\x00\x03\x03\x03\x03\x03\x03\x00\x00\x03\x03\x03\x03\x03\
\x03\x00\x00\x03\x03\x03\x03\x03\x03\x00\x00\x03\x03\x03\x03\x03\
\x03\x00\x00\x03\x03\x03\x03\x03\x03\x00\x00\x03\x03\x03\x03\x03\
\x03\x00\x00\x03\x03\x03\x03\x03\x03\x00\x00\x03\x03\x03\x03\x03\
\x03\x00\x00\x03\x03\x03\x03\x03\x03\x00\x00\x03\x03\x03\x03\x03\
\x03\x00\x00\x03\x03\x03\x03\x03\x03\x00\x00\x03\x03\x03\x03\x03\
";

const GOES_ON: usize = 0;

pub const WAITS: usize = 2;

pub const SETTLES: usize = 3;

// The state after a character, by its traits, where a token goes on or begins.
pub static AFTER: [u32; 16] = [0, 1, 1, 2, 3, 0, 4, 5, 0, 1, 1, 2, 3, 0, 4, 5];

// The state after a medial that waits, by its traits.
pub static WAITING_AFTER: [u32; 16] = [6, 7, 6, 8, 9, 6, 10, 11, 6, 7, 6, 8, 9, 6, 10, 11];

// What stands at the front of a text. An enum of its own, since there are four answers.
#[derive(Clone, Copy, Debug, PartialEq, Eq)]
pub enum First {
    // Nothing: the text is empty.
    Nothing,
    // No well-formed UTF-8 sequence.
    IllFormed,
    // A character that begins no token.
    NoToken,
    // A token of this kind that ends before this byte.
    Token { kind: u32, end: usize },
}

// What a character of these traits does in a state.
pub fn find_turn(state: u32, traits: u32) -> usize
    requires { (state < states) × (traits < 16) }
    ensures { result ≡ turn_of state traits }
{
    TURNS[(state * 16 + traits) as usize] as usize
}

// The state after a character, where a token goes on or begins.
pub fn state_after(traits: u32) -> u32
    requires { traits < 16 }
    ensures { result ≡ after_of traits }
{
    AFTER[traits as usize]
}

// The state after a medial that waits.
pub fn waiting_after(traits: u32) -> u32
    requires { traits < 16 }
    ensures { result ≡ waiting_of traits }
{
    WAITING_AFTER[traits as usize]
}

// The first token, where it is complete at a place.
fn end_first(state: u32, mid: usize, at: usize) -> First
    ensures { result ≡ pending_first state mid at }
{
    match state {
        NOTHING => First::NoToken,
        IDENTIFIER..WAITING => First::Token {
            kind: state,
            end: at,
        },
        _ => First::Token {
            kind: IDENTIFIER,
            end: mid,
        },
    }
}

// The first token of a text.
pub fn first_token<'a>(image: &ClassImage, table: &'a [u8], text: &'a [u8]) -> First
    requires token_table_of { TokenTableOf image.now table.now }
    ensures { result ≡ first_of image.now text.now }
{
    image.recall();
    let mut memo = character::no_memo();
    let mut state = NOTHING;
    let mut mid = 0;
    let mut at = 0;
    // `while`: each round goes on by the length of a character.
    while at < text.len() {
        let c = character::read_for_tokens(image, table, memo, text, at);
        if c.len == 0 {
            return if at == 0 {
                First::IllFormed
            } else {
                end_first(state, mid, at)
            };
        }
        match find_turn(state, c.traits) {
            GOES_ON => state = state_after(c.traits),
            WAITS => {
                state = waiting_after(c.traits);
                mid = at;
            }
            _ => return end_first(state, mid, at),
        }
        memo = c.memo;
        at += c.len;
    }
    if at == 0 {
        First::Nothing
    } else {
        end_first(state, mid, at)
    }
}
