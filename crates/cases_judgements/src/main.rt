// Judges the policies and queries of its input and prints what it found. A line of input is a name, a policy and a query, with a bar between
// them. With a part number after one more bar the words of that part are printed instead. A line without bars says which key is ours, or is a
// heading (`cases::headings`). How words are written is said in the crate `cases`. Each line of `stdout` was checked by
// hand.
#![tactic(auto)]

use cases::headings::{OUR_KEY, heading};
use cases::input::{LONGEST, read_into};
use cases::printing::{print, say};
use cases::replies::{RefusedCall, Spaced};
use cases::text::Text;
use judging::judge;
use policy::codes::Verdict;
use policy_table::parts::part;
use refusals::Refused;

fn print_judgement(judgement: Result<Verdict, Refused>) {
    match judgement {
        Ok(verdict) => print(format_args!("verdict {}", u32::from(verdict))),
        Err(refused) => print(RefusedCall(refused)),
    }
}

// Prints what a line asks behind its first bar: the part whose number stands behind a third bar, or a judgement if there is none.
fn answer(mut text: Text<'_>, our_key: u32) {
    let mut policy = [0; 8193];
    let policy = text.words(&mut policy);
    text.skip();
    let mut query = [0; 1025];
    let query = text.words(&mut query);
    if text.passes(b"|") {
        let number = text.first_word();
        print(format_args!("words{}", Spaced(part(policy, query, number))));
    } else {
        print_judgement(judge(policy, query, our_key));
    }
}

fn line(line: Text<'_>, our_key: &mut u32) {
    let mut text = line;
    let name = text.cell();
    if !text.passes(b"|") {
        return heading(line, our_key);
    }
    say(name);
    say(b": ");
    answer(text, *our_key);
    say(b"\n");
}

fn main() {
    let mut room = [0; LONGEST];
    let input = read_into(&mut room);
    let mut our_key = OUR_KEY;
    for text in Text::new(input).lines() {
        line(text, &mut our_key);
    }
}
