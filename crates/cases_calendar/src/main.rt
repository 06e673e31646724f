// Converts the dates and the minutes of its input, and prints what it found. Each line of `stdout` was checked by hand.
// How words are written is said in the crate `cases`. A line is one of these:
//
//     NAME|minutes YEAR MONTH DAY HOUR MINUTE      prints the minutes of the date
//     NAME|date MINUTES                            prints the date of the minutes: year, month, day, hour, minute
//
// A line without bars is a heading.
#![tactic(auto)]

use calendar::{Date, Minute};
use cases::input::{LONGEST, read_into};
use cases::printing::{print, say};
use cases::replies::Spaced;
use cases::text::Text;
use refusals::Refusal;

fn print_refusal(refusal: Refusal) {
    print(format_args!(": refused {}", u32::from(refusal)));
}

// The date whose five numbers stand here. A number that is missing is 0.
fn date_in(mut text: Text<'_>) -> Date {
    let mut words = [0; 5];
    text.words_over(&mut words);
    let [year, month, day, hour, minute] = words;
    Date {
        year,
        month,
        day,
        hour,
        minute,
    }
}

// Prints what a line asks behind its bar.
fn convert(mut text: Text<'_>) {
    if text.passes(b"m") {
        return match Minute::try_from(date_in(text)) {
            Ok(Minute(minutes)) => print(format_args!(": {minutes}")),
            Err(refusal) => print_refusal(refusal),
        };
    }
    match Date::try_from(Minute(text.first_word())) {
        Ok(
            Date {
                year,
                month,
                day,
                hour,
                minute,
            },
        ) => print(format_args!(":{}", Spaced(&[year, month, day, hour, minute]))),
        Err(refusal) => print_refusal(refusal),
    }
}

fn line(mut text: Text<'_>) {
    say(text.cell());
    if text.passes(b"|") {
        convert(text);
    }
    say(b"\n");
}

fn main() {
    let mut room = [0; LONGEST];
    let input = read_into(&mut room);
    for text in Text::new(input).lines() {
        line(text);
    }
}
