// Checks and reads class images, small and of the most ranges: each answer, one line each.
use crate::build;
use image::{Checked, Profile, Summary};
use std::io;

// Version, number of ranges, number of profile entries, the first entry.
fn show(rt: &impl Print, name: &str, k: Checked) -> io::Result<()> {
    match k.answer {
        Err(r) => println!(rt; "{name}: refused {r}"),
        Ok(Summary { version, ranges }) => {
            let Profile {
                points,
                roles,
                used,
            } = k.profile;
            let (point, role) = (points[0], roles[0]);
            println!(rt; "{name}: accepted {version} {ranges} {used} {point} {role}")
        }
    }
}

fn run_m(rt: &impl Print) -> io::Result<()> {
    let mut image = build::changed(build::ZERO, 0);
    show(rt, "M", image::check(&image))?;
    build::put(&mut image, 3, 357913942);
    show(rt, "12n = 2^32 + 8, total length 100", image::check(&image))?;
    build::put(&mut image, 2, 48);
    show(rt, "12n = 2^32 + 8, total length 48", image::check(&image))
}

// The answer, then the first word of the buffer, the last code point of the last range, and the last word.
fn show_read(rt: &impl Print, name: &str, image: &[u8], out: &mut [u32]) -> io::Result<()> {
    show(rt, name, image::read(image, out))?;
    print!(rt; "words:")?;
    for word in [out.first(), out.get(12286), out.last()]
        .into_iter()
        .flatten()
    {
        print!(rt; " {word}")?;
    }
    println!(rt; "")
}

fn run_most(rt: &impl Print) -> io::Result<()> {
    let mut image = [0u8; 49184];
    build::put_many(&mut image, 4096);
    show(rt, "4,096 ranges", image::check(&image))?;
    show_read(rt, "room for 4,096", &image, &mut [9; 12288])?;
    show_read(rt, "one word less", &image, &mut [9; 12287])?;
    show_read(rt, "one word more", &image, &mut [9; 12289])
}

fn run_too_many(rt: &impl Print) -> io::Result<()> {
    let mut image = [0u8; 49196];
    build::put_many(&mut image, 4097);
    show(rt, "4,097 ranges", image::check(&image))
}

pub fn run(rt: &impl Print) -> io::Result<()> {
    run_m(rt)?;
    run_most(rt)?;
    run_too_many(rt)
}
