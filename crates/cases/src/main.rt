// Runs the calls on the cases of docs/CASES.md and at the edges of its rules, and prints answers as the listers do.
#![tactic(auto)]

use std::io;

mod answers;
mod build;
mod checks;
mod encodings;
mod lookups;
mod pairs;
mod sequences;
mod writes;

fn main(rt: HostRuntime) -> io::Result<()> {
    sequences::run(&rt)?;
    encodings::run(&rt)?;
    checks::run(&rt)?;
    lookups::run(&rt)?;
    writes::run(&rt)?;
    pairs::run(&rt)?;
    answers::run(&rt)
}
