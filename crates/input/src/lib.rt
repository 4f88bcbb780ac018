// What the programs do with their input: `script` an image and a text, `images` two images. Here: where an image at the front ends, and the reading itself.
#![tactic(auto)]

ghost use Rattle.std.specs.Prelude.{◌≡◌, ◌<◌, ◌≤◌, length, take, IfOk};
ghost use Rattle.std.specs.Io.KnownBytes.{Consumes, IsAtEnd};
ghost use Rattle.input.specs.Front.{whole_end, front_in, after_in};

use image::{HEADER_BYTES, MAX_IMAGE, TOTAL_AT};
use std::io::{self, Read};

pub mod images;
pub mod script;

// Where the image at the front of the input ends, if it comes whole.
pub fn find_end(input: &[u8]) -> Option<usize>
    ensures { result ≡ whole_end input.now }
{
    if input.len() < HEADER_BYTES {
        return None;
    }
    let total = image::word(input, TOTAL_AT) as usize;
    if total < HEADER_BYTES || MAX_IMAGE < total || input.len() < total {
        return None;
    }
    Some(total)
}

// The image at the front of the input and all that follows it. An image that doesn't come whole is taken as empty, which
// refuses it with 1.
pub fn split_front(input: &[u8]) -> (&[u8], &[u8])
    ensures image { result.0.now ≡ front_in input.now }
    ensures rest { result.1.now ≡ after_in input.now }
{
    input.split_at(find_end(input).unwrap_or(0))
}

// Reads until the buffer is full or the input ends, and returns how many bytes it put at the buffer's start.
// A loop over reads, since no method of `Read` fills as much of a buffer as there is input: `read_exact` fails at the end.
pub fn read_full<R: Read>(source: &mut R, buffer: &mut [u8]) -> io::Result<usize>
    ensures bound { IfOk result (λ n. n ≤ length buffer.new) }
    // What the source gave stands at the buffer's start ..
    ensures bytes { IfOk result (λ n. Consumes (R.remaining source.old) (R.remaining source.new) (take n buffer.new)) }
    // .. and where room is left, it has no more.
    ensures end { IfOk result (λ n. n < length buffer.new → IsAtEnd (R.remaining source.new)) }
{
    let mut n = 0;
    while n < buffer.len() {
        let more = source.read(&mut buffer[n..])?;
        if more == 0 {
            break;
        }
        n += more;
    }
    Ok(n)
}
