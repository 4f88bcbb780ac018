// Replies: how the result and the answer array of an exported call tell what the call gave.
// The result is 0 where the call gives no refusal, else the refusal's number. The values of the answer, or what the
// refusal carries, go into `answer`, with zeros past them.
#![tactic(auto)]

ghost use Rattle.std.specs.Prelude.{◌≡◌, [], ◌∷◌};
ghost use Rattle.image.specs.Check.{accepted_of};
ghost use Rattle.part.specs.Part.{part_of, part_bytes};
ghost use Rattle.reply.specs.Reply.{Reply, Tells, gives, refuses_of, refuses, reply_by, number_reply, unit_reply};
ghost use Rattle.reply.specs.ImageReply.{TellsChecked, probe_reply, refuses_pair, lists_reply};
ghost use Rattle.reply.specs.TokenReply.{token_reply, part_reply, told_part};

use changes::Lists;
use image::{ClassImage, MAX_ENTRIES, Summary};
use lookup::Probe;
use pair::PairRefusal;
use refusal::Refusal;
use token::Token;

// The result where a place is the text's end.
const DONE: u32 = 255;

// Fills the answer array.
fn put(answer: &mut [u64; 4], a: u64, b: u64, c: u64, d: u64)
    ensures { answer.new ≡ a ∷ b ∷ c ∷ d ∷ [] }
{
    *answer = [a, b, c, d];
}

// Tells an answer of these values, 0 where there is none.
fn give(a: u64, b: u64, c: u64, answer: &mut [u64; 4]) -> u32
    ensures { Tells (gives a b c) result answer.new }
{
    put(answer, a, b, c, 0);
    0
}

// Tells a refusal, and which image it is of, where a call has two.
fn refuse(r: Refusal, which: u64, answer: &mut [u64; 4]) -> u32
    ensures { Tells (refuses_of which r) result answer.new }
{
    let [first, second] = r.carried().map(|n| n.unwrap_or(0) as u64);
    put(answer, first, second, which, 0);
    r.number()
}

// What a call can give or refuse with, told by a result and the answer array.
pub trait Told {
    ghost reply: { Self → Reply };

    fn tell(self, answer: &mut [u64; 4]) -> u32
        ensures { Tells (reply self) result answer.new };
}

// What a call gives, or its refusal.
impl<T: Told, E: Told> Told for Result<T, E> {
    ghost reply = { reply_by T.reply E.reply };

    fn tell(self, answer: &mut [u64; 4]) -> u32 {
        match self {
            Ok(given) => given.tell(answer),
            Err(refused) => refused.tell(answer),
        }
    }
}

// A refusal of a call on one image.
impl Told for Refusal {
    ghost reply = { refuses };

    fn tell(self, answer: &mut [u64; 4]) -> u32 {
        refuse(self, 0, answer)
    }
}

// A refusal of a call on two images, with which of them it is of.
impl Told for PairRefusal {
    ghost reply = { refuses_pair };

    fn tell(self, answer: &mut [u64; 4]) -> u32 {
        match self {
            PairRefusal::Older(r) => refuse(r, 1, answer),
            PairRefusal::Newer(r) => refuse(r, 2, answer),
            PairRefusal::Neither(r) => refuse(r, 0, answer),
        }
    }
}

// What the pair check permits.
impl Told for () {
    ghost reply = { unit_reply };

    fn tell(self, answer: &mut [u64; 4]) -> u32 {
        give(0, 0, 0, answer)
    }
}

// The bytes of an image that was written, or how many tokens or hashtags there are.
impl Told for usize {
    ghost reply = { number_reply };

    fn tell(self, answer: &mut [u64; 4]) -> u32 {
        give(self as u64, 0, 0, answer)
    }
}

// What a lookup found.
impl Told for Probe {
    ghost reply = { probe_reply };

    fn tell(self, answer: &mut [u64; 4]) -> u32 {
        give(self.class as u64, self.count as u64, 0, answer)
    }
}

// How many runs and entries changed.
impl Told for Lists {
    ghost reply = { lists_reply };

    fn tell(self, answer: &mut [u64; 4]) -> u32 {
        give(self.runs as u64, self.entries as u64, 0, answer)
    }
}

// The token at a place, or none at the text's end.
impl Told for Option<Token> {
    ghost reply = { token_reply };

    fn tell(self, answer: &mut [u64; 4]) -> u32 {
        match self {
            Some(t) => give(t.kind as u64, t.start as u64, t.end as u64, answer),
            None => {
                put(answer, 0, 0, 0, 0);
                DONE
            }
        }
    }
}

// Tells the version, the number of ranges and the profile of an accepted image.
pub fn tell_profile(
    image: &ClassImage,
    points: &mut [u32; MAX_ENTRIES],
    roles: &mut [u32; MAX_ENTRIES],
    answer: &mut [u64; 4],
) -> u32
    ensures { TellsChecked (accepted_of image.now) points.old roles.old result answer.new points.new roles.new }
{
    let Summary { version, ranges } = image.summary();
    let used = image.put_profile(points, roles);
    give(version as u64, ranges as u64, used as u64, answer)
}

// Tells the part of a text from `start` to `end`: its first byte, and its number of bytes.
pub fn tell_part(text: &[u8], start: usize, end: usize, answer: &mut [u64; 4]) -> u32
    ensures tells { Tells (part_reply (part_of text.now start end) start) result answer.new }
    ensures answer_after { told_part text.now answer.new ≡ part_bytes text.now start end }
{
    match part::part_of(text, start, end) {
        Ok(part) => give(start as u64, part.len() as u64, 0, answer),
        Err(r) => r.tell(answer),
    }
}
