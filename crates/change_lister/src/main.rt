// The change lister: reads an older image and right after it a newer one from standard input, and prints what changed or the refusal.
#![tactic(auto)]

use input::images::{MAX_ENTRY_WORDS, MAX_INPUT, MAX_RUN_WORDS};
use std::io;

fn main(rt: HostRuntime) -> io::Result<()> {
    let mut input = [0u8; MAX_INPUT];
    let n = input::read_full(&mut rt.stdin(), &mut input)?;
    let mut runs = [0u32; MAX_RUN_WORDS];
    let mut entries = [0u32; MAX_ENTRY_WORDS];
    let answer = input::images::list_read(&input, n, &mut runs, &mut entries);
    printing::answers::print_change_listing(&rt, answer, &runs, &entries)
}
