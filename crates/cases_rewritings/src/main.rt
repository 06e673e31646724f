// Rewrites the external policies of its input into areas full of another word, and prints what it found. Each line of `stdout` was checked by
// hand. How words are written is said in the crate `cases`. A line is one of these:
//
//     NAME|POLICY|LENGTH           rewrites the policy into an area of so many words, and prints the output's length, and its words if they are few
//     NAME|POLICY|LENGTH|WORDS     the same, and prints whether the output is these words
//
// A line without bars says which key is ours, or is a heading (`cases::headings`); where k2 is another's key, k7 is ours, which no case has as an
// issuer.
#![tactic(auto)]

use cases::headings::{OUR_KEY, heading};
use cases::input::{LONGEST, read_into};
use cases::printing::{print, say};
use cases::replies::{RefusedCall, Rest, Spaced};
use cases::text::Text;
use policy_rewriting::rewrite;

// Longer outputs are not printed.
const FEW: usize = 60;

// Prints the output at the front of an area that was full of 99s, and whether it is the words behind a bar, if one is here.
fn print_output(mut text: Text<'_>, area: &[u32], count: usize) {
    print(format_args!("{count} words"));
    if area.len() < count {
        return;
    }
    let (output, words) = area.split_at(count);
    if count <= FEW {
        print(format_args!(":{}", Spaced(output)));
    }
    if text.passes(b"|") {
        let mut expected = [0; 8193];
        if output == text.words(&mut expected) {
            print(", those of the line");
        } else {
            print(", NOT THOSE OF THE LINE");
        }
    }
    print(Rest { words, was: 99 });
}

// Rewrites the policy behind a line's first bar into as many words of an area as the line says, and prints what came of it.
fn rewrite_in(mut text: Text<'_>, our_key: u32) {
    let mut policy = [0; 8193];
    let policy = text.words(&mut policy);
    text.skip();
    let lent = text.first_word() as usize;
    let _ = text.cell();
    let mut area = [99u32; 8300];
    let end = lent.min(area.len());
    match rewrite(policy, our_key, &mut area[..end]) {
        Ok(count) => print_output(text, &area, count),
        Err(refused) => {
            print(format_args!(
                "{}{}",
                RefusedCall(refused),
                Rest {
                    words: &area,
                    was: 99
                }
            ));
        }
    }
}

fn line(line: Text<'_>, our_key: &mut u32) {
    let mut text = line;
    let name = text.cell();
    if !text.passes(b"|") {
        return heading(line, our_key);
    }
    say(name);
    say(b": ");
    rewrite_in(text, *our_key);
    say(b"\n");
}

fn main() {
    let mut room = [0; LONGEST];
    let input = read_into(&mut room);
    let mut our_key = OUR_KEY;
    for text in Text::new(input).lines() {
        line(text, &mut our_key);
    }
}
