// Runs `utf8` on the first and last sequence of each row of Table 3-7, on the sequences just outside each row, and on ill-formed texts.
use refusal::Refusal;
use std::io;
use utf8::{IllFormed, Step};

// What stands at the head, and whether the text is well-formed, or the refusal that its first ill-formed place gives.
fn show(rt: &impl Print, s: &[u8]) -> io::Result<()> {
    for b in s {
        print!(rt; "{b:02x} ")?;
    }
    match utf8::decode(s) {
        Step::Scalar { code, len } => print!(rt; "scalar {code:04x} length {len}")?,
        Step::IllFormed { len } => print!(rt; "ill-formed length {len}")?,
        Step::End => print!(rt; "end")?,
    }
    match utf8::check_text(s) {
        Ok(()) => println!(rt; ", text well-formed"),
        Err(IllFormed { place, len }) => {
            println!(rt; ", text refused {}", Refusal::IllFormed { place, len })
        }
    }
}

// Each sequence of a list, in which a space stands between two.
fn show_each(rt: &impl Print, list: &[u8]) -> io::Result<()> {
    for s in list.split(|b| *b == b' ') {
        show(rt, s)?;
    }
    Ok(())
}

pub fn run(rt: &impl Print) -> io::Result<()> {
    // Rows of one and two bytes, and just outside them.
    show_each(
        rt,
        b" \x00 \x7F \x80 \xC0\x80 \xC1\xBF \xC2\x7F \xC2\x80 \xDF\xBF \xDF\xC0 \xC2",
    )?;
    // Rows of three bytes, and just outside them.
    show_each(
        rt,
        b"\xE0\x9F\xBF \xE0\xA0\x7F \xE0\xA0\x80 \xE0\xBF\xBF \xE0\xBF\xC0 \xE1\x7F\x80 \xE1\x80\x80",
    )?;
    show_each(
        rt,
        b"\xEC\xBF\xBF \xEC\xC0\x80 \xED\x7F\x80 \xED\x80\x80 \xED\x9F\xBF \xED\xA0\x80 \xEE\x7F\xBF",
    )?;
    show_each(rt, b"\xEE\x80\x80 \xEF\xBF\xBF \xEF\xC0\x80 \xE2\x82")?;
    // Rows of four bytes, and just outside them.
    show_each(
        rt,
        b"\xF0\x8F\xBF\xBF \xF0\x90\x80\x80 \xF0\xBF\xBF\xBF \xF0\xC0\x80\x80 \xF1\x7F\x80\x80",
    )?;
    show_each(
        rt,
        b"\xF1\x80\x80\x80 \xF1\x80\x7F\x80 \xF3\xBF\xBF\xBF \xF3\xBF\xBF\xC0 \xF4\x80\x80\x80",
    )?;
    show_each(
        rt,
        b"\xF4\x8F\xBF\xBF \xF4\x90\x80\x80 \xF5\x80\x80\x80 \xFF\xBF\xBF\xBF \xF0\x90\x80",
    )?;
    // Maximal subparts of one, two and three bytes, at the end and before a byte that does not go on.
    show_each(
        rt,
        b"\xC0 \xC0\xA9 \xFF \xE0\x80 \xED\xA0 \xF0\x8F \xF4\x90 \xE2\x82A \xE1\x80\xE1 \xF0\x9F",
    )?;
    show_each(rt, b"\xF0\x9F\x98 \xF0\x9F\x98A")?;
    // Texts whose ill-formed place is not the first.
    show_each(
        rt,
        b"setting a\xC3\xA9\xE2\x82 a\xED\xA0\x80 \xF0\x9E\xA4\x80\xC4\x85\xFFb 0123456789abcdef\xC0\x80",
    )
}
