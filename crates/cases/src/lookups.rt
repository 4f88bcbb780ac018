// Looks code points up in image M of docs/CASES.md, and in M with another byte, some of which are refused.
ghost use Rattle.std.specs.Prelude.{◌<◌};

use crate::build::ZERO;
use lookup::Probe;
use std::io;

// The answer of a lookup of x in M with a byte at a place.
fn show(rt: &impl Print, at: usize, byte: u8, x: u32) -> io::Result<()>
    requires { at < 100 }
{
    let image = crate::build::changed(at, byte);
    match lookup::lookup(&image, x) {
        Err(r) => println!(rt; "{x:04x}: refused {r}"),
        Ok(Probe { class, count }) => println!(rt; "{x:04x}: class {class} looked at {count}"),
    }
}

pub fn run(rt: &impl Print) -> io::Result<()> {
    for x in [0x20, 0x2E, 0x7A, 0x35, 0x2F, 0xE9, 0xD800, 0x110000] {
        show(rt, ZERO, 0, x)?;
    }
    // A bad length, header, range and entry; the other roles of 2E.
    show(rt, 8, 99, 0x20)?;
    show(rt, 0, 2, 0x20)?;
    show(rt, 52, 6, 0x20)?;
    show(rt, 52, 6, 0xD800)?;
    show(rt, 96, 6, 0x20)?;
    show(rt, 96, 4, 0x2E)?;
    show(rt, 96, 5, 0x2E)
}
