// Encodes every scalar value by Table 3-6 and decodes it again.
ghost use Rattle.std.specs.Prelude.{◌≤◌, ◌≡◌};
ghost use Rattle.utf8.specs.Encoding.{encoding};

use std::io;
use utf8::Step;

// Table 3-6, row by row: the bytes of a scalar value, at the buffer's start.
fn encode(x: u32, buffer: &mut [u8; 4]) -> &[u8]
    requires { x ≤ 0x10FFFF }
    ensures { result.now ≡ encoding x }
{
    let last = (0x80 + x % 0x40) as u8;
    let middle = (0x80 + x / 0x40 % 0x40) as u8;
    if x < 0x80 {
        *buffer = [x as u8, 0, 0, 0];
        &buffer[..1]
    } else if x < 0x800 {
        *buffer = [(0xC0 + x / 0x40) as u8, last, 0, 0];
        &buffer[..2]
    } else if x < 0x10000 {
        *buffer = [(0xE0 + x / 0x1000) as u8, middle, last, 0];
        &buffer[..3]
    } else {
        let second = (0x80 + x / 0x1000 % 0x40) as u8;
        *buffer = [(0xF0 + x / 0x40000) as u8, second, middle, last];
        &buffer[..4]
    }
}

// Whether this is a scalar value that is decoded again with its length.
fn comes_back(x: u32) -> bool
    requires { x ≤ 0x10FFFF }
{
    let mut buffer = [0; 4];
    let encoded = encode(x, &mut buffer).len();
    utf8::is_scalar(x)
        && matches!(utf8::decode(&buffer), Step::Scalar { code, len } if code == x && len == encoded)
}

pub fn run(rt: &impl Print) -> io::Result<()> {
    let back = (0..0x110000).filter(|x| comes_back(*x)).count();
    println!(rt; "{back} scalar values come back")
}
