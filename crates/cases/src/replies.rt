// What a call replied, in words: a refusal, an area's untouched rest, the set in an answer area that was full of fives before.
use crate::printing::print;
use engine::Answer;
use policy::codes::Verdict;
use refusals::Refused;
use std::{fmt, io};

/// Words, with a space before each.
#[derive(Clone, Copy, Debug)]
pub struct Spaced<'a>(pub &'a [u32]);

impl fmt::Display for Spaced<'_> {
    fn fmt<W: fmt::Write>(&self, f: &mut fmt::Formatter<W>) -> fmt::Result {
        for word in self.0 {
            write!(f, " {word}")?;
        }
        Ok(())
    }
}

/// Whether the rest of an area that was full of one word is as it was.
#[derive(Clone, Copy, Debug)]
pub struct Rest<'a> {
    pub words: &'a [u32],
    pub was: u32,
}

impl fmt::Display for Rest<'_> {
    fn fmt<W: fmt::Write>(&self, f: &mut fmt::Formatter<W>) -> fmt::Result {
        let was = self.was;
        // All are looked at, also behind one that differs: so the compiler compares four at a time.
        let stays = self
            .words
            .iter()
            .fold(true, |stays, word| stays & (*word == was));
        if stays {
            write!(f, ", the rest stays")
        } else {
            write!(f, ", THE REST IS TOUCHED")
        }
    }
}

/// The set at the front of an answer area that was full of fives: its form, its count, its rows if they are few, and whether the rest of the area
/// stays.
#[derive(Clone, Copy, Debug)]
pub struct SetIn<'a>(pub &'a [u32]);

impl fmt::Display for SetIn<'_> {
    fn fmt<W: fmt::Write>(&self, f: &mut fmt::Formatter<W>) -> fmt::Result {
        let answer = self.0;
        if answer.len() < 642 {
            return Ok(());
        }
        let form = if answer[0] == 0 { "only " } else { "all but " };
        let count = answer[1];
        write!(f, "{form}{count}")?;
        if count <= 128 {
            let (rows, words) = answer[2..].split_at(5 * count as usize);
            if count <= 4 {
                let rows = Spaced(rows);
                write!(f, ":{rows}")?;
            }
            let rest = Rest { words, was: 5 };
            write!(f, "{rest}")?;
        }
        Ok(())
    }
}

/// The refusal of a call that reads a policy or a query.
#[derive(Clone, Copy, Debug)]
pub struct RefusedCall(pub Refused);

impl fmt::Display for RefusedCall {
    fn fmt<W: fmt::Write>(&self, f: &mut fmt::Formatter<W>) -> fmt::Result {
        let number = u32::from(self.0.refusal);
        let part = u32::from(self.0.part);
        write!(f, "refused {number}, part {part}")
    }
}

fn verdict_text(verdict: Verdict) -> &'static str {
    match verdict {
        Verdict::Exact => "exact, ",
        Verdict::Lower => "lower, ",
        Verdict::Upper => "upper, ",
    }
}

/// Prints the reply to a query, whose answer area was full of fives before.
pub fn say_reply(reply: Result<Answer, Refused>, area: &[u32]) {
    match reply {
        Ok(answer) => {
            print(format_args!(
                "{}{} draws, {}",
                verdict_text(answer.verdict),
                answer.draws,
                SetIn(area)
            ));
        }
        Err(refused) => {
            print(format_args!(
                "{}{}",
                RefusedCall(refused),
                Rest {
                    words: area,
                    was: 5
                }
            ));
        }
    }
}

/// Prints to any handle the reply to a query, whose answer area was full of fives before. Fails where the handle does.
pub fn print_reply(
    rt: &impl Print,
    reply: Result<Answer, Refused>,
    area: &[u32],
) -> io::Result<()> {
    match reply {
        Ok(Answer { verdict, draws }) => {
            let set = SetIn(area);
            let verdict = verdict_text(verdict);
            print!(rt; "{verdict}{draws} draws, {set}")
        }
        Err(refused) => {
            let rest = Rest {
                words: area,
                was: 5,
            };
            let refused = RefusedCall(refused);
            print!(rt; "{refused}{rest}")
        }
    }
}
