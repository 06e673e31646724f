// Lines without bars that ask nothing. How words are written is said in `lib.rt`.
//
//     our key KEY                  says which key is ours in the lines that follow
//
// Any other is a heading.
use crate::printing::say;
use crate::text::Text;
use rows::FIRST_KEY;
use std::io;

// Ours until a line says another: k2.
pub const OUR_KEY: u32 = FIRST_KEY + 2;

/// Prints a line that is a heading, or sets our key for the lines that follow.
pub fn heading(line: Text<'_>, our_key: &mut u32) {
    let mut text = line;
    if text.passes(b"our key ") {
        *our_key = text.first_word();
        return;
    }
    say(text.cell());
    say(b"\n");
}

/// Prints to any handle a line that is a heading, or sets our key for the lines that follow. Fails where the handle does.
pub fn heading_to(rt: &impl Print, line: Text<'_>, our_key: &mut u32) -> io::Result<()> {
    let mut text = line;
    if text.passes(b"our key ") {
        *our_key = text.first_word();
        return Ok(());
    }
    rt.write_all(text.cell())?;
    println!(rt;)
}
