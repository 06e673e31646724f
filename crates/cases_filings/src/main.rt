// Files into real stores what the lines of its input say, and prints what it found. Each line of `stdout` was checked by
// hand. How words are written is said in the crate `cases`. A line is one of these:
//
//     NAME|WORDS                   files the words as a certificate, and prints the reply with the count that the store has then
//     NAME|WORDS|LENGTH            the same with a store of so many words, not 16001
//     NAME|link WORDS              files the words as a link, and prints the reply with the count that the link store has then
//     NAME|link WORDS|LENGTH       the same with a link store of so many words, not 1281
//     words FROM END               prints these words of the store, ten to a line
//     words of links FROM END      prints these words of the link store, five to a line
//     part KEY NAME POLARITY       prints one name's part of the store, ten words to a line
//
// `file`, `store`, `link` and `links` lines keep the stores (`cases::storing`). Any other line is printed.
#![tactic(auto)]

ghost use Rattle.std.specs.Prelude.{◌<◌};

use cases::input::{LONGEST, read_into};
use cases::printing::{print, say};
use cases::storing::keep;
use cases::text::Text;
use certificates::{LINK_WORDS, RECORD_WORDS};
use store::{Certificates, Filing, Kind, Links, certificates_of, file_record};

fn print_filing(filing: Filing) {
    match filing {
        Filing::Filed => print(": Filed"),
        Filing::Held => print(": Held"),
        Filing::Refused(refusal) => print(format_args!(": Refused {}", u32::from(refusal))),
    }
}

// Files the words that stand here, no more than there is room for, into as many words of the store as the line says, or `usual`, and prints the reply
// with the count that the store has then.
fn try_record<K: Kind>(mut text: Text<'_>, room: &mut [u32], store: &mut [u32], usual: usize) {
    let record = text.words(room);
    let lent = if text.passes(b"|") {
        text.first_word() as usize
    } else {
        usual
    };
    let end = lent.min(store.len());
    let store = &mut store[..end];
    print_filing(file_record::<K>(store, record));
    if let Some(count) = store.first() {
        print(format_args!(", count {count}"));
    }
}

// Prints the words, so many to a line.
fn show(words: &[u32], width: usize)
    requires { 0 < width }
{
    for (i, word) in words.iter().enumerate() {
        let gap = if (i + 1) % width == 0 { "\n" } else { " " };
        print(format_args!("{word}{gap}"));
    }
}

// Prints the words of the store from the first place that stands here to the second.
fn show_between(mut text: Text<'_>, store: &[u32], width: usize)
    requires { 0 < width }
{
    let mut ends = [0; 2];
    text.words_over(&mut ends);
    let [from, end] = ends;
    let end = (end as usize).min(store.len());
    let from = (from as usize).min(end);
    show(&store[from..end], width);
}

// Does what a line without bars says.
fn act(line: Text<'_>, store: &mut [u32], links: &mut [u32]) {
    if keep(line, store, links) {
        return;
    }
    let mut text = line;
    if text.passes(b"words of links ") {
        show_between(text, links, LINK_WORDS);
    } else if text.passes(b"words ") {
        show_between(text, store, RECORD_WORDS);
    } else if text.passes(b"part ") {
        let mut name = [0; 3];
        text.words_over(&mut name);
        let [key, number, polarity] = name;
        show(certificates_of(store, key, number, polarity), RECORD_WORDS);
    } else {
        say(text.cell());
        say(b"\n");
    }
}

fn line(line: Text<'_>, store: &mut [u32], links: &mut [u32]) {
    let mut text = line;
    let name = text.cell();
    if !text.passes(b"|") {
        return act(line, store, links);
    }
    say(name);
    // A word more is read than the record has.
    if text.passes(b"link") {
        try_record::<Links>(text, &mut [0; LINK_WORDS + 1], links, 1281);
    } else {
        try_record::<Certificates>(text, &mut [0; RECORD_WORDS + 1], store, 16001);
    }
    say(b"\n");
}

fn main() {
    let mut room = [0; LONGEST];
    let input = read_into(&mut room);
    let mut store = [77u32; 16002];
    let mut links = [77u32; 1282];
    for text in Text::new(input).lines() {
        line(text, &mut store, &mut links);
    }
}
