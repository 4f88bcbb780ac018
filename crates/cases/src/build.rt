// Class images made by hand: M and M2 of docs/CASES.md, these with another byte, and images of many ranges.
ghost use Rattle.std.specs.Prelude.{◌+◌, ◌<◌, ◌≤◌, length};

pub const VERSION: u32 = 1048576;

// The sizes of M and of M2, by which they are named here, and a place at which both have the byte 0, the last of the header.
pub const M: usize = 100;

pub const M2: usize = 112;

pub const ZERO: usize = 31;

// Puts x into the word k of an image, if the image has that word.
pub fn put(image: &mut [u8], k: usize, x: u32)
    requires { k < 0x100000 }
{
    if let Some(word) = image.get_mut(4 * k..4 * k + 4) {
        word.copy_from_slice(&x.to_le_bytes());
    }
}

// Puts words into an image from its word k on.
fn put_words(image: &mut [u8], k: usize, words: &[u32])
    requires { k + length words.now ≤ 0x100000 }
{
    for (i, x) in words.iter().enumerate() {
        put(image, k + i, *x);
    }
}

fn put_m(image: &mut [u8]) {
    put_words(image, 0, &[1, VERSION, 100, 5, 32, 1, 92]);
    put_words(image, 8, &[0x20, 0x20, 4, 0x2E, 0x2E, 3, 0x30, 0x39, 2]);
    put_words(image, 17, &[0x41, 0x5A, 1, 0x61, 0x7A, 1, 0x2E, 3]);
}

// Puts E9 Start into M, which makes it M2.
fn put_m2(image: &mut [u8]) {
    put_words(image, 2, &[112, 6]);
    put(image, 6, 104);
    put_words(image, 23, &[0xE9, 0xE9, 1, 0x2E, 3]);
}

// M with another byte at one place.
pub fn changed(at: usize, byte: u8) -> [u8; M]
    requires { at < 100 }
{
    let mut image = [0u8; M];
    put_m(&mut image);
    image[at] = byte;
    image
}

// M or M2, by its size, with another byte at one place; past M stand zeros.
pub fn made(size: usize, at: usize, byte: u8) -> [u8; M2]
    requires { at < 112 }
{
    let mut image = [0u8; M2];
    put_m(&mut image);
    if size == M2 {
        put_m2(&mut image);
    }
    image[at] = byte;
    image
}

// An image with n good ranges of one code point each, a gap between them, and no profile entries.
pub fn put_many(image: &mut [u8], n: u16) {
    let size = 32 + 12 * u32::from(n);
    put_words(image, 0, &[1, 7, size, u32::from(n), 32, 0, size]);
    for i in 0..n {
        let point = 2 * u32::from(i) + 1;
        put_words(image, 8 + 3 * usize::from(i), &[point, point, 1]);
    }
}
