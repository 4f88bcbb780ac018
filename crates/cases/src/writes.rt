// Writes image M of docs/CASES.md, reads it back, and gives the writer what it refuses.
ghost use Rattle.std.specs.Prelude.{◌<◌, ◌≤◌};

use crate::build::{VERSION, ZERO};
use image::{MAX_ENTRIES, Profile, Summary};
use refusal::Refusal;
use std::io;

// What a buffer holds before the writer gets it.
const BEFORE: u8 = 0xAA;

// The words of M's ranges, with another one at a place.
fn changed(at: usize, word: u32) -> [u32; 15]
    requires { at < 15 }
{
    let mut words = [0u32; 15];
    image::read(&crate::build::changed(ZERO, 0), &mut words);
    words[at] = word;
    words
}

// A profile that says it has `used` entries, with its first entry; past it stands a role that there isn't.
fn profile(used: usize, point: u32, role: u32) -> Profile {
    let mut points = [0u32; MAX_ENTRIES];
    let mut roles = [0u32; MAX_ENTRIES];
    points[0] = point;
    roles[0] = role;
    roles[1] = 9;
    Profile {
        points,
        roles,
        used,
    }
}

fn print_answer(rt: &impl Print, a: Result<usize, Refusal>) -> io::Result<()> {
    match a {
        Err(r) => print!(rt; "refused {r}"),
        Ok(len) => print!(rt; "image of {len} bytes"),
    }
}

// What the writer answers with a buffer of so many bytes, and whether the buffer is still as it was before.
fn show<const ROOM: usize>(rt: &impl Print, what: &str, words: &[u32], p: Profile) -> io::Result<()>
    requires { ROOM ≤ 104 }
{
    let mut out = [BEFORE; ROOM];
    let a = writer::write(VERSION, words, p, &mut out);
    print!(rt; "{what}: ")?;
    print_answer(rt, a)?;
    if out.iter().all(|b| *b == BEFORE) {
        print!(rt; ", buffer unchanged")?;
    }
    println!(rt; "")
}

// What is read from an image: the version, the numbers of ranges and entries, the first entry and the ranges.
fn show_read(rt: &impl Print, image: &[u8]) -> io::Result<()> {
    let mut words = [0u32; 18];
    let k = image::read(image, &mut words);
    match k.answer {
        Err(r) => print!(rt; "refused {r}")?,
        Ok(Summary { version, ranges }) => {
            print!(rt; "version {version}, ranges {ranges}")?;
        }
    }
    let Profile {
        points,
        roles,
        used,
    } = k.profile;
    let (point, role) = (points[0], roles[0]);
    println!(rt; ", entries {used}: {point:04x} role {role}")?;
    let (ranges, _) = words.as_chunks::<3>();
    for [first, last, class] in ranges {
        println!(rt; "{first:04x} {last:04x} {class:04x}")?;
    }
    Ok(())
}

// M in a longer buffer, and what is read from M.
fn show_written(rt: &impl Print) -> io::Result<()> {
    let mut out = [BEFORE; 104];
    let a = writer::write(VERSION, &changed(0, 0x20), profile(1, 0x2E, 3), &mut out);
    print_answer(rt, a)?;
    println!(rt; "")?;
    let (words, _) = out.as_chunks::<4>();
    for [a, b, c, d] in words {
        println!(rt; "{a:02x} {b:02x} {c:02x} {d:02x}")?;
    }
    let mut image = [BEFORE; 100];
    let _ = writer::write(VERSION, &changed(0, 0x20), profile(1, 0x2E, 3), &mut image);
    show_read(rt, &image)
}

// What is refused with a buffer that is long enough for M, and with one that is a byte too short.
fn show_refused(rt: &impl Print) -> io::Result<()> {
    let m = changed(0, 0x20);
    show::<104>(rt, "14 words", &[0u32; 14], profile(1, 0x2E, 3))?;
    show::<104>(rt, "513 entries", &m, profile(513, 0x2E, 3))?;
    show::<104>(rt, "4097 ranges", &[0u32; 12291], profile(1, 0x2E, 3))?;
    show::<104>(rt, "class 6", &changed(5, 6), profile(1, 0x2E, 3))?;
    let inside = changed(3, 0x20);
    show::<104>(
        rt,
        "a range inside the one before",
        &inside,
        profile(1, 0x2E, 3),
    )?;
    show::<104>(rt, "role 6", &m, profile(1, 0x2E, 6))?;
    show::<104>(rt, "no scalar value", &m, profile(1, 0xD800, 3))?;
    show::<99>(rt, "99 bytes", &m, profile(1, 0x2E, 3))
}

// Which refusal comes first, and what is not looked at.
fn show_order(rt: &impl Print) -> io::Result<()> {
    let m = changed(0, 0x20);
    show::<99>(
        rt,
        "14 words and 513 entries",
        &[0u32; 14],
        profile(513, 0x2E, 3),
    )?;
    show::<99>(
        rt,
        "513 entries and class 6",
        &changed(5, 6),
        profile(513, 0x2E, 3),
    )?;
    show::<99>(
        rt,
        "class 6 and role 6",
        &changed(5, 6),
        profile(1, 0x2E, 6),
    )?;
    show::<0>(rt, "role 6 and no bytes", &m, profile(1, 0x2E, 6))?;
    show::<100>(rt, "role 9 past the used length", &m, profile(1, 0x2E, 3))?;
    show::<32>(rt, "no ranges and no entries", &[], profile(0, 0x2E, 3))
}

pub fn run(rt: &impl Print) -> io::Result<()> {
    show_written(rt)?;
    show_refused(rt)?;
    show_order(rt)
}
