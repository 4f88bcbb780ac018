// Runs the pair check on images M and M2 of docs/CASES.md, and on images made of them by changing a byte.
ghost use Rattle.std.specs.Prelude.{◌<◌, ◌≤◌};

use crate::build::{M, M2, ZERO};
use pair::PairRefusal;
use std::io;

fn print_pair(rt: &impl Print, p: Result<(), PairRefusal>) -> io::Result<()> {
    match p {
        Err(PairRefusal::Older(r)) => println!(rt; "older refused {r}"),
        Err(PairRefusal::Newer(r)) => println!(rt; "newer refused {r}"),
        Err(PairRefusal::Neither(r)) => println!(rt; "refused {r}"),
        Ok(()) => println!(rt; "yes"),
    }
}

// The answer for the first `size` bytes of M or M2 with a byte at a place, and those of another such image.
fn show(
    rt: &impl Print,
    size: usize,
    at: usize,
    byte: u8,
    size2: usize,
    at2: usize,
    byte2: u8,
) -> io::Result<()>
    requires size_bound { (size ≤ 112) × (at < 112) }
    requires size2_bound { (size2 ≤ 112) × (at2 < 112) }
{
    let older = crate::build::made(size, at, byte);
    let newer = crate::build::made(size2, at2, byte2);
    print_pair(rt, pair::check_pair(&older[..size], &newer[..size2]))
}

pub fn run(rt: &impl Print) -> io::Result<()> {
    // M and M2; another version; E9 Other instead of Start; 30 to 39 Start instead of Nonstart; 20 Syntax instead of White.
    show(rt, M, ZERO, 0, M2, ZERO, 0)?;
    show(rt, M2, ZERO, 0, M, ZERO, 0)?;
    show(rt, M, ZERO, 0, M, 4, 1)?;
    show(rt, M, ZERO, 0, M2, 100, 5)?;
    show(rt, M2, 100, 5, M, ZERO, 0)?;
    show(rt, M2, 100, 5, M2, ZERO, 0)?;
    show(rt, M2, ZERO, 0, M2, 100, 5)?;
    show(rt, M, ZERO, 0, M, 64, 1)?;
    show(rt, M, 64, 1, M, ZERO, 0)?;
    show(rt, M2, ZERO, 0, M, 40, 3)?;
    // Another role, and another code point, of the profile entry.
    show(rt, M, ZERO, 0, M, 96, 1)?;
    show(rt, M, 92, 45, M2, ZERO, 0)?;
    show(rt, M, 92, 45, M2, 104, 45)?;
    // A bad length, header, range and profile entry, of the older image and of the newer.
    show(rt, M - 1, ZERO, 0, M, 0, 2)?;
    show(rt, M, 52, 6, M - 1, ZERO, 0)?;
    show(rt, M, ZERO, 0, M, 0, 2)?;
    show(rt, M, ZERO, 0, M, 52, 6)?;
    show(rt, M2, ZERO, 0, M, 96, 6)?;
    show(rt, M2, ZERO, 0, M - 1, ZERO, 0)
}
