// The text that the programs read their cases from, and what they print with.
//
// A case is a line of cells, with a bar between them: `a name|1 0|3 0`. The first cell is a name, the others are words. A word is written in
// decimal, or as a key: `k1` is 2147483649. `5*14` is the word 5 fourteen times, and `(5 1 0)*14` the three words fourteen times. A word with
// dots in such a group is one higher each time: `(1 0 7..)*3` is 1 0 7, 1 0 8, 1 0 9.
#![tactic(auto)]

pub mod headings;
pub mod input;
pub mod printing;
pub mod replies;
pub mod storing;
#[cfg(test)]
mod tests;
pub mod text;
