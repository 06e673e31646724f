// What the programs print: text and numbers on standard output.
use std::fmt;

/// Standard output. Each piece of text is a write of its own. A write that fails is passed over, and what comes behind it is written all the same.
#[derive(Clone, Copy, Debug)]
pub struct Output;

impl fmt::Write for Output {
    fn write_str(&mut self, text: &str) -> fmt::Result {
        say(text.as_bytes());
        Ok(())
    }
}

/// Prints bytes that need not be text.
pub fn say(text: &[u8]) {
    let _ = io::write_all(1, text);
}

/// Prints a value.
pub fn print<D: fmt::Display + Drop>(value: D) {
    let _ = fmt::Write::write(&mut Output, value);
}
