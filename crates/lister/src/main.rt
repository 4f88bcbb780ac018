// The token lister: reads an image and right after it a text from standard input, and prints the text's tokens or the refusal.
#![tactic(auto)]

use input::script::{MAX_INPUT, MAX_WORDS};
use std::io;

fn main(rt: HostRuntime) -> io::Result<()> {
    let mut input = [0u8; MAX_INPUT];
    let n = input::read_full(&mut rt.stdin(), &mut input)?;
    let mut words = [0u32; MAX_WORDS];
    let answer = input::script::list_read(&input, n, &mut words);
    printing::answers::print_listing(&rt, answer, &words)
}
