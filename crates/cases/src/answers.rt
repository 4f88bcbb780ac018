// What the two listers print, for answers of every sort.
use changes::Lists;
use pair::PairRefusal;
use printing::answers::{print_change_listing, print_listing};
use refusal::Refusal;
use std::io;

// Tokens of each kind, with the largest places and line.
fn show_tokens(rt: &impl Print) -> io::Result<()> {
    print_listing(rt, Ok(0), &[])?;
    print_listing(rt, Ok(2), &[1, 0, 5, 1, 2, 5, 6, 1])?;
    print_listing(rt, Ok(2), &[3, 6, 8, 1, 4, 8, 10, 1])?;
    print_listing(rt, Ok(1), &[5, 4294967293, 4294967294, 4294967295])
}

// Each refusal with what it carries, a number past 32 bits among them.
fn show_refusals(rt: &impl Print) -> io::Result<()> {
    let refusals = [
        Refusal::Length,
        Refusal::Header,
        Refusal::Range(4095),
        Refusal::Entry(511),
        Refusal::TextLength,
        Refusal::IllFormed {
            place: 8191,
            len: 3,
        },
        Refusal::Characters(0),
        Refusal::Room(4294967297),
        Refusal::NotScalar(0xD800),
        Refusal::Change(0x10FFFF),
        Refusal::Profiles,
        Refusal::Buffer(53280),
        Refusal::Shape,
        Refusal::Mark(7),
    ];
    for r in refusals {
        print_listing(rt, Err(r), &[])?;
    }
    Ok(())
}

// Runs and entries, none or some; refusals of the older image, of the newer and of neither.
fn show_changes(rt: &impl Print) -> io::Result<()> {
    let none = Lists {
        runs: 0,
        entries: 0,
    };
    print_change_listing(rt, Ok(none), &[], &[])?;
    let both = Lists {
        runs: 2,
        entries: 1,
    };
    print_change_listing(rt, Ok(both), &[65, 90, 0, 1, 233, 233, 1, 2], &[46, 3, 4])?;
    let entries = Lists {
        runs: 0,
        entries: 2,
    };
    print_change_listing(rt, Ok(entries), &[], &[45, 0, 1, 1114111, 5, 0])?;
    let older = PairRefusal::Older(Refusal::Header);
    print_change_listing(rt, Err(older), &[], &[])?;
    let newer = PairRefusal::Newer(Refusal::Range(7));
    print_change_listing(rt, Err(newer), &[], &[])?;
    let neither = PairRefusal::Neither(Refusal::Room(9));
    print_change_listing(rt, Err(neither), &[], &[])
}

pub fn run(rt: &impl Print) -> io::Result<()> {
    show_tokens(rt)?;
    show_refusals(rt)?;
    show_changes(rt)
}
