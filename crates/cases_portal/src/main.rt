// Asks the engine what the lines of its input ask, by real calls on areas full of other words, and prints what it replied. Each line of `stdout`
// was checked by hand. How words are written is said in the crate `cases`. A line is one of these:
//
//     NAME|POLICY|QUERY            asks the query under the policy, over the store and the links as they are, with our key and the minute set last
//     NAME|POLICY|QUERY|AREAS      the same with an answer, a definition, a scratch area and a link store of so many words, not 642 10272 16384 1281
//     minute N                     sets the minute, which is 0 at the start
//
// `file`, `store`, `link` and `links` lines keep the stores (`cases::storing`); there are no links at the start. Any other line says which key is
// ours, or is a heading (`cases::headings`); where k2 is another's key, k7 is ours, which no case has as an issuer.
#![tactic(auto)]

use cases::headings::{OUR_KEY, heading};
use cases::input::{LONGEST, read_into};
use cases::printing::say;
use cases::replies::say_reply;
use cases::storing::keep;
use cases::text::Text;
use engine::query;

// What lines set for those that follow.
#[derive(Clone, Copy, Debug)]
struct Setting {
    our_key: u32,
    minute: u32,
}

// Asks what stands behind a line's first bar, with areas and a link store of the lengths that the line gives, and prints the reply.
fn ask(mut text: Text<'_>, store: &[u32], links: &[u32], setting: &Setting) {
    let mut policy = [0; 8193];
    let policy = text.words(&mut policy);
    text.skip();
    let mut words = [0; 1025];
    let words = text.words(&mut words);
    let mut lengths = [642, 10272, 16384, 1281];
    if text.passes(b"|") {
        text.words_over(&mut lengths);
    }
    let [
        answer_length,
        definitions_length,
        scratch_length,
        links_length,
    ] = lengths.map(|n| n as usize);
    let mut answer = [5u32; 1000];
    let mut definitions = [6u32; 11000];
    let mut scratch = [7u32; 17000];
    let answer_end = answer_length.min(answer.len());
    let definitions_end = definitions_length.min(definitions.len());
    let scratch_end = scratch_length.min(scratch.len());
    let reply = query(
        policy,
        words,
        setting.our_key,
        setting.minute,
        store,
        &links[..links_length.min(links.len())],
        &mut answer[..answer_end],
        &mut definitions[..definitions_end],
        &mut scratch[..scratch_end],
    );
    say_reply(reply, &answer[..answer_end]);
}

// Does what a line without bars says.
fn act(line: Text<'_>, store: &mut [u32], links: &mut [u32], setting: &mut Setting) {
    let mut text = line;
    if text.passes(b"minute ") {
        setting.minute = text.first_word();
        return;
    }
    if keep(line, store, links) {
        return;
    }
    heading(line, &mut setting.our_key);
}

fn line(line: Text<'_>, store: &mut [u32], links: &mut [u32], setting: &mut Setting) {
    let mut text = line;
    let name = text.cell();
    if !text.passes(b"|") {
        return act(line, store, links, setting);
    }
    say(name);
    say(b": ");
    ask(text, store, links, setting);
    say(b"\n");
}

fn main() {
    let mut room = [0; LONGEST];
    let input = read_into(&mut room);
    let mut store = [99u32; 16001];
    let mut links = [98u32; 1282];
    links[0] = 0;
    let mut setting = Setting {
        our_key: OUR_KEY,
        minute: 0,
    };
    for text in Text::new(input).lines() {
        line(text, &mut store, &mut links, &mut setting);
    }
}
