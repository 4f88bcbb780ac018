// What the two listers print: the lines of an answer, by the words that it comes with.
ghost use Rattle.printing.specs.Fits.{TokensFit, ChangesFit};

use changes::{ENTRY_WORDS, Lists, RUN_WORDS};
use grammar::RECORD_WORDS;
use pair::PairRefusal;
use refusal::Refusal;
use std::io;

// The name of a kind of tokens, by its number in a list; blanks have 3.
fn name_of(kind: u32) -> &'static str {
    match kind {
        1 => "identifier",
        2 => "syntax",
        4 => "lineend",
        5 => "mark",
        _ => "whitespace",
    }
}

// The lines of the tokens, by their words, after one that counts them.
fn print_tokens(rt: &impl Print, words: &[u32]) -> io::Result<()> {
    let (tokens, _) = words.as_chunks::<RECORD_WORDS>();
    println!(rt; "tokens {}", tokens.len())?;
    for [kind, start, end, line] in tokens {
        println!(rt; "{} {start} {end} {line}", name_of(*kind))?;
    }
    Ok(())
}

// The token lister's answer.
pub fn print_listing(
    rt: &impl Print,
    answer: Result<usize, Refusal>,
    words: &[u32],
) -> io::Result<()>
    requires { TokensFit answer words.now }
{
    match answer {
        Err(r) => println!(rt; "refused {r}"),
        Ok(count) => print_tokens(rt, &words[..RECORD_WORDS * count]),
    }
}

// The lines of the runs and of the entries, by their words, after one that counts them.
fn print_changes(rt: &impl Print, runs: &[u32], entries: &[u32]) -> io::Result<()> {
    let (runs, _) = runs.as_chunks::<RUN_WORDS>();
    let (entries, _) = entries.as_chunks::<ENTRY_WORDS>();
    println!(rt; "changes {} {}", runs.len(), entries.len())?;
    for [first, last, older, newer] in runs {
        println!(rt; "class {first} {last} {older} {newer}")?;
    }
    for [point, older, newer] in entries {
        println!(rt; "role {point} {older} {newer}")?;
    }
    Ok(())
}

// The change lister's answer.
pub fn print_change_listing(
    rt: &impl Print,
    answer: Result<Lists, PairRefusal>,
    runs: &[u32],
    entries: &[u32],
) -> io::Result<()>
    requires { ChangesFit answer runs.now entries.now }
{
    match answer {
        Err(PairRefusal::Older(r)) => println!(rt; "refused older {r}"),
        Err(PairRefusal::Newer(r)) => println!(rt; "refused newer {r}"),
        Err(PairRefusal::Neither(r)) => println!(rt; "refused {r}"),
        Ok(lists) => print_changes(
            rt,
            &runs[..RUN_WORDS * lists.runs],
            &entries[..ENTRY_WORDS * lists.entries],
        ),
    }
}
